// The windows, by number, in lent memory. Written by tools/tables.py.
#![tactic(auto)]

ghost use Rattle.std.specs.Prelude.{◌≡◌, ℕ};
ghost use Rattle.std.proofs.Common.{refl, rules};
ghost use Rattle.tables.specs.Tables.{windows, key_of, cmp};
ghost use Rattle.tables.specs.Labels.{mentions, clean};
ghost use Rattle.rows.proofs.Clean.{clean_where_none};
ghost use Rattle.layouts.specs.Rows.{window_of};

use rows::{Labelled, Table};
use std::cmp::Ordering;
use types::rows::Window;
use types::{Label, WindowNumber};

// How many rows there is room for.
pub const WINDOWS: usize = 32;

pub struct Windows;

impl Table for Windows {
    type Row = Window;

    type Head = Window;

    type Key = WindowNumber;

    const COUNT: usize = 0;

    const WIDTH: usize = 5;

    const CAPACITY: usize = WINDOWS;

    ghost COUNT = { 0 };

    ghost WIDTH = { 5 };

    ghost CAPACITY = { 32 };

    ghost decode = { window_of };

    ghost head_of = { λ row. row };

    ghost kept = { λ row. row };

    ghost Sort = { ℕ };

    ghost sort = { λ key. key.0 };

    ghost key_of = { key_of windows };

    ghost cmp = { cmp windows };

    fn read(c: &[u32]) -> Window {
        Window {
            number: WindowNumber(layouts::number(c, 0)),
            parent: layouts::parent_at(c, 1),
            opener: layouts::opener_at(c, 3),
        }
    }

    fn glance(c: &[u32]) -> Window {
        Self::read(c)
    }

    fn write(c: &mut [u32], row: Window) {
        let numbers = numbers_of(row);
        if c.len() == numbers.len() {
            c.copy_from_slice(&numbers);
        }
    }

    fn head(row: Window) -> Window {
        row
    }

    fn key(h: Window) -> WindowNumber {
        h.number
    }

    fn order(a: WindowNumber, b: WindowNumber) -> Ordering {
        a.0.cmp(&b.0)
    }

    ghost fits = { Prim.search rules };

    ghost few = { Prim.search rules };

    ghost same_key = { λ row. refl };
}

impl Labelled for Windows {
    ghost mentions = { mentions windows };

    ghost clean = { clean windows };

    fn mentions(h: Window, l: Label) -> bool {
        labels::same(l, Label::OfWindow(h.number))
            || labels::in_parent(l, h.parent)
            || labels::in_opener(l, h.opener)
    }

    ghost cleaned = { clean_where_none windows };
}

// A row's numbers.
fn numbers_of(row: Window) -> [u32; 5]
    ensures { window_of result ≡ row }
{
    let parent = layouts::parent_numbers(row.parent);
    let opener = layouts::opener_numbers(row.opener);
    [row.number.0, parent[0], parent[1], opener[0], opener[1]]
}
