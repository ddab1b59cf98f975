// The inputs of scripts, by document and arrival, in lent memory. Written by tools/tables.py.
#![tactic(auto)]

ghost use Rattle.std.specs.Prelude.{◌≡◌, ℕ};
ghost use Rattle.std.proofs.Common.{refl, rules};
ghost use Rattle.tables.specs.Tables.{inputs, key_of, cmp};
ghost use Rattle.tables.specs.Labels.{mentions, clean};
ghost use Rattle.rows.proofs.Clean.{clean_where_none};
ghost use Rattle.layouts.specs.Rows.{input_of};

use rows::{Labelled, Table};
use std::cmp::Ordering;
use types::rows::Input;
use types::{DocumentNumber, Label};

// How many rows there is room for.
pub const INPUTS: usize = 64;

pub struct Inputs;

impl Table for Inputs {
    type Row = Input;

    type Head = Input;

    type Key = (DocumentNumber, u32);

    const COUNT: usize = 2117;

    const WIDTH: usize = 8;

    const CAPACITY: usize = INPUTS;

    ghost COUNT = { 2117 };

    ghost WIDTH = { 8 };

    ghost CAPACITY = { 64 };

    ghost decode = { input_of };

    ghost head_of = { λ row. row };

    ghost kept = { λ row. row };

    ghost Sort = { ℕ × ℕ };

    ghost sort = { λ key. (key.0.0, key.1) };

    ghost key_of = { key_of inputs };

    ghost cmp = { cmp inputs };

    fn read(c: &[u32]) -> Input {
        Input {
            document: DocumentNumber(layouts::number(c, 0)),
            arrival: layouts::number(c, 1),
            news: layouts::news_at(c, 2),
        }
    }

    fn glance(c: &[u32]) -> Input {
        Self::read(c)
    }

    fn write(c: &mut [u32], row: Input) {
        let numbers = numbers_of(row);
        if c.len() == numbers.len() {
            c.copy_from_slice(&numbers);
        }
    }

    fn head(row: Input) -> Input {
        row
    }

    fn key(h: Input) -> (DocumentNumber, u32) {
        (h.document, h.arrival)
    }

    fn order(a: (DocumentNumber, u32), b: (DocumentNumber, u32)) -> Ordering {
        a.0.0.cmp(&b.0.0).then(a.1.cmp(&b.1))
    }

    ghost fits = { Prim.search rules };

    ghost few = { Prim.search rules };

    ghost same_key = { λ row. refl };
}

impl Labelled for Inputs {
    ghost mentions = { mentions inputs };

    ghost clean = { clean inputs };

    fn mentions(h: Input, l: Label) -> bool {
        labels::same(l, Label::OfDocument(h.document)) || labels::in_news(l, h.news)
    }

    ghost cleaned = { clean_where_none inputs };
}

// A row's numbers.
fn numbers_of(row: Input) -> [u32; 8]
    ensures { input_of result ≡ row }
{
    let news = layouts::news_numbers(row.news);
    [
        row.document.0,
        row.arrival,
        news[0],
        news[1],
        news[2],
        news[3],
        news[4],
        news[5],
    ]
}
