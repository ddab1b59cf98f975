// What a table in lent memory does, whatever its rows are (01 Numbers, names, sizes: every table is kept in rising order of its key).
#![tactic(auto)]

mod cells; // where the numbers of a row lie
mod labelled; // tables whose rows speak of windows, documents, requests

ghost use Rattle.std.specs.Prelude.{◌≡◌, Bool, not, List, ℕ, ◌+◌, ◌*◌, ◌≤◌, length, is_ok, IfSome};
ghost use Rattle.std.specs.declared.cmp.Ordering.{Ordering as Order};
ghost use Rattle.sorted.specs.Order.{same};
ghost use Rattle.sorted.specs.Table.{find, keep, at, In};
ghost use Rattle.memory.specs.Rows.{table, end, total, Within, Read, Glimpsed, Found, Kept, Put, Revised, Cleared};
ghost use Rattle.rows.specs.Tables.{laid, Decides, Makes, place_of};

use cells::{cells, place, write_at};
pub use labelled::Labelled;
use memory::Memory;
use std::cmp::Ordering;

pub trait Table {
    type Row: Copy;

    // What tests look at: the row, or of a long row a part.
    type Head: Copy;

    // What a row is found by.
    type Key: Copy;

    // Where the count stands, with the first row behind it; how many numbers a row has; how many rows there is room for.
    const COUNT: usize;

    const WIDTH: usize;

    const CAPACITY: usize;

    ghost COUNT: { ℕ };

    ghost WIDTH: { ℕ };

    ghost CAPACITY: { ℕ };

    ghost decode: { List ℕ → Self.Row };

    ghost head_of: { Self.Row → Self.Head };

    // What is read of a row that was written.
    ghost kept: { Self.Row → Self.Row };

    // A key as the definitions have it, and their order.
    ghost Sort: { Type 0 };

    ghost sort: { Self.Key → Sort };

    ghost key_of: { Self.Head → Sort };

    ghost cmp: { Sort → Sort → Order };

    // What a row's numbers say. Any numbers say something.
    fn read(c: &[u32]) -> Self::Row
        ensures { result ≡ decode c.now };

    fn glance(c: &[u32]) -> Self::Head
        ensures { result ≡ head_of (decode c.now) };

    // Each table stores its own array: no computed const argument can name [u32; WIDTH] here.
    fn write(c: &mut [u32], row: Self::Row)
        ensures { length c.old ≡ WIDTH → decode c.new ≡ kept row };

    fn head(row: Self::Row) -> Self::Head
        ensures { result ≡ head_of row };

    fn key(h: Self::Head) -> Self::Key
        ensures { sort result ≡ key_of h };

    fn order(a: Self::Key, b: Self::Key) -> Ordering
        ensures { result ≡ cmp (sort a) (sort b) };

    ghost fits: { COUNT + 1 + CAPACITY * WIDTH ≤ total };

    ghost few: { CAPACITY ≤ total };

    ghost same_key: { (r : Self.Row) → key_of (head_of (kept r)) ≡ key_of (head_of r) };

    // How many rows count.
    final fn size(m: &Memory) -> usize
        ensures { result ≡ length (table (laid COUNT WIDTH CAPACITY decode) m.now) }
    {
        memory::used(m, Self::COUNT, Self::CAPACITY)
    }

    // Row i; behind the last there is what no numbers say.
    final fn row(m: &Memory, i: usize) -> Self::Row
        ensures { Read (laid COUNT WIDTH CAPACITY decode) m.now i result }
    {
        Self::read(cells::<Self>(m, i))
    }

    // Row i's head.
    final fn head_at(m: &Memory, i: usize) -> Self::Head
        ensures { Glimpsed (laid COUNT WIDTH CAPACITY decode) head_of m.now i result }
    {
        Self::glance(cells::<Self>(m, i))
    }

    // The first row that passes a test.
    final fn first<F: Fn(Self::Head) -> bool>(m: &Memory, test: F) -> Option<Self::Row>
        requires { F.IsAlwaysCallable test }
        ensures found { (p : Self.Row → Bool) → Decides F.post test head_of p → result ≡ find p (table (laid COUNT WIDTH CAPACITY decode) m.now) }
        ensures member { IfSome result (λ r. In r (table (laid COUNT WIDTH CAPACITY decode) m.now)) }
    {
        for i in 0..Self::size(m) {
            if test(Self::head_at(m, i)) {
                return Some(Self::row(m, i));
            }
        }
        None
    }

    // The row with a key.
    final fn get(m: &Memory, key: Self::Key) -> Option<Self::Row>
        ensures { result ≡ at (λ r. key_of (head_of r)) cmp (sort key) (table (laid COUNT WIDTH CAPACITY decode) m.now) }
    {
        Self::first(m, |h| Self::order(key, Self::key(h)).is_eq())
    }

    // How many rows pass a test.
    final fn tally<F: Fn(Self::Head) -> bool>(m: &Memory, test: F) -> usize
        requires { F.IsAlwaysCallable test }
        ensures counted { (p : Self.Row → Bool) → Decides F.post test head_of p → result ≡ length (keep p (table (laid COUNT WIDTH CAPACITY decode) m.now)) }
        ensures most { result ≤ length (table (laid COUNT WIDTH CAPACITY decode) m.now) }
    {
        let mut some = 0;
        for i in 0..Self::size(m) {
            if test(Self::head_at(m, i)) {
                some += 1;
            }
        }
        some
    }

    // Only rows that pass a test stay. None is copied onto itself.
    final fn keep<F: Fn(Self::Head) -> bool>(m: &mut Memory, test: F)
        requires { F.IsAlwaysCallable test }
        ensures kept { (p : Self.Row → Bool) → Decides F.post test head_of p → Kept (laid COUNT WIDTH CAPACITY decode) p m.old m.new }
        ensures rest { Within COUNT (end (laid COUNT WIDTH CAPACITY decode)) m.old m.new }
    {
        let mut j = 0;
        for i in 0..Self::size(m) {
            if test(Self::head_at(m, i)) {
                if j < i {
                    memory::carry(m, place::<Self>(i), place::<Self>(j), Self::WIDTH);
                }
                j += 1;
            }
        }
        m[Self::COUNT] = j as u32;
    }

    // The row with a key goes.
    final fn remove(m: &mut Memory, key: Self::Key)
        ensures { Kept (laid COUNT WIDTH CAPACITY decode) (λ r. not (same (cmp (sort key) (key_of (head_of r))))) m.old m.new }
    {
        Self::keep(m, |h| !Self::order(key, Self::key(h)).is_eq());
    }

    // The place of the first row that does not stand before a key: Ok where that row has the key.
    final fn seek(m: &Memory, key: Self::Key) -> Result<usize, usize>
        ensures { Found (laid COUNT WIDTH CAPACITY decode) (λ r. cmp (sort key) (key_of (head_of r))) m.now (place_of result) (is_ok result) (length (table (laid COUNT WIDTH CAPACITY decode) m.now)) }
    {
        let n = Self::size(m);
        for i in 0..n {
            match Self::order(key, Self::key(Self::head_at(m, i))) {
                Ordering::Greater => {}
                Ordering::Equal => return Ok(i),
                Ordering::Less => return Err(i),
            }
        }
        Err(n)
    }

    // A row goes in, in the place of the one with its key; whether there was room. Where there was none, nothing changes.
    final fn put(m: &mut Memory, row: Self::Row) -> bool
        ensures { Put (laid COUNT WIDTH CAPACITY decode) (λ r. key_of (head_of r)) cmp (kept row) m.old m.new result }
    {
        match Self::seek(m, Self::key(Self::head(row))) {
            Ok(i) => write_at::<Self>(m, i, row),
            Err(i) => {
                let n = Self::size(m);
                if n == Self::CAPACITY {
                    return false;
                }
                memory::shift(m, place::<Self>(i), place::<Self>(n), Self::WIDTH);
                write_at::<Self>(m, i, row);
                m[Self::COUNT] = (n + 1) as u32;
            }
        }
        true
    }

    // Each row changed in its place.
    final fn revise<F: Fn(Self::Row) -> Self::Row>(m: &mut Memory, change: F)
        requires { F.IsAlwaysCallable change }
        ensures revised { (f : Self.Row → Self.Row) → Makes F.post change f → Revised (laid COUNT WIDTH CAPACITY decode) (λ r. kept (f r)) m.old m.new }
        ensures rest { Within COUNT (end (laid COUNT WIDTH CAPACITY decode)) m.old m.new }
    {
        let n = Self::size(m);
        for i in 0..n {
            write_at::<Self>(m, i, change(Self::row(m, i)));
        }
        m[Self::COUNT] = n as u32;
    }

    // No row is left.
    final fn clear(m: &mut Memory)
        ensures { Cleared (laid COUNT WIDTH CAPACITY decode) m.old m.new }
    {
        m[Self::COUNT] = 0;
    }
}
