// What scripts keep in session storage, by origin and top-level window, in lent memory. Written by tools/tables.py.
#![tactic(auto)]

ghost use Rattle.std.specs.Prelude.{◌≡◌, Bool, ℕ};
ghost use Rattle.std.proofs.Common.{refl, rules};
ghost use Rattle.tables.specs.Tables.{session_storage, key_of, cmp, is_secure};
ghost use Rattle.tables.specs.Labels.{mentions, clean};
ghost use Rattle.rows.proofs.Clean.{clean_where_none};
ghost use Rattle.layouts.specs.Rows.{session_value_of};

use rows::{Labelled, Table};
use std::cmp::Ordering;
use types::items::Stored;
use types::rows::SessionValue;
use types::{Label, Origin, WindowNumber};

// How many rows there is room for.
pub const SESSION_STORAGE: usize = 32;

pub struct SessionStorage;

impl Table for SessionStorage {
    type Row = SessionValue;

    type Head = SessionValue;

    type Key = (Origin, WindowNumber);

    const COUNT: usize = 1988;

    const WIDTH: usize = 4;

    const CAPACITY: usize = SESSION_STORAGE;

    ghost COUNT = { 1988 };

    ghost WIDTH = { 4 };

    ghost CAPACITY = { 32 };

    ghost decode = { session_value_of };

    ghost head_of = { λ row. row };

    ghost kept = { λ row. row };

    ghost Sort = { ℕ × (Bool × ℕ) };

    ghost sort = { λ key. (key.0.host.0, (is_secure key.0.protocol, key.1.0)) };

    ghost key_of = { key_of session_storage };

    ghost cmp = { cmp session_storage };

    fn read(c: &[u32]) -> SessionValue {
        SessionValue {
            origin: layouts::site_at(c, 0),
            top: WindowNumber(layouts::number(c, 2)),
            value: Stored(layouts::number(c, 3)),
        }
    }

    fn glance(c: &[u32]) -> SessionValue {
        Self::read(c)
    }

    fn write(c: &mut [u32], row: SessionValue) {
        let numbers = numbers_of(row);
        if c.len() == numbers.len() {
            c.copy_from_slice(&numbers);
        }
    }

    fn head(row: SessionValue) -> SessionValue {
        row
    }

    fn key(h: SessionValue) -> (Origin, WindowNumber) {
        (h.origin, h.top)
    }

    fn order(a: (Origin, WindowNumber), b: (Origin, WindowNumber)) -> Ordering {
        a.0.host
            .0
            .cmp(&b.0.host.0)
            .then(labels::is_secure(a.0.protocol).cmp(&labels::is_secure(b.0.protocol)))
            .then(a.1.0.cmp(&b.1.0))
    }

    ghost fits = { Prim.search rules };

    ghost few = { Prim.search rules };

    ghost same_key = { λ row. refl };
}

impl Labelled for SessionStorage {
    ghost mentions = { mentions session_storage };

    ghost clean = { clean session_storage };

    fn mentions(h: SessionValue, l: Label) -> bool {
        labels::same(l, Label::OfWindow(h.top))
    }

    ghost cleaned = { clean_where_none session_storage };
}

// A row's numbers.
fn numbers_of(row: SessionValue) -> [u32; 4]
    ensures { session_value_of result ≡ row }
{
    let origin = layouts::site_numbers(row.origin);
    [origin[0], origin[1], row.top.0, row.value.0]
}
