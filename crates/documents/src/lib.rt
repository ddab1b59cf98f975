// The documents, by window and place in its history, in lent memory. Written by tools/tables.py.
#![tactic(auto)]

ghost use Rattle.std.specs.Prelude.{◌≡◌, Bool, map, ℕ, ◌≤◌, length};
ghost use Rattle.std.proofs.Common.{refl, rules};
ghost use Rattle.sorted.specs.Table.{keep};
ghost use Rattle.memory.specs.Rows.{table};
ghost use Rattle.types.specs.Lists.{document_numbers};
ghost use Rattle.tables.specs.Nouns.{Document};
ghost use Rattle.tables.specs.Tables.{documents, key_of, cmp};
ghost use Rattle.tables.specs.Labels.{mentions, clean};
ghost use Rattle.rows.specs.Tables.{Decides};
ghost use Rattle.rows.proofs.Clean.{clean_where_none};
ghost use Rattle.layouts.specs.Tables.{documents_in};
ghost use Rattle.layouts.specs.Rows.{document_of};
ghost use Rattle.documents.specs.Told.{number_of};

use memory::Memory;
use rows::{Labelled, Table};
use std::cmp::Ordering;
use types::commands::{Script, ScriptState};
use types::rows::Document;
use types::{DocumentNumber, DocumentNumbers, Label, WindowNumber};

// How many rows there is room for.
pub const DOCUMENTS: usize = 64;

pub struct Documents;

impl Table for Documents {
    type Row = Document;

    type Head = Document;

    type Key = (WindowNumber, u32);

    const COUNT: usize = 161;

    const WIDTH: usize = 20;

    const CAPACITY: usize = DOCUMENTS;

    ghost COUNT = { 161 };

    ghost WIDTH = { 20 };

    ghost CAPACITY = { 64 };

    ghost decode = { document_of };

    ghost head_of = { λ row. row };

    ghost kept = { λ row. row };

    ghost Sort = { ℕ × ℕ };

    ghost sort = { λ key. (key.0.0, key.1) };

    ghost key_of = { key_of documents };

    ghost cmp = { cmp documents };

    fn read(c: &[u32]) -> Document {
        Document {
            window: WindowNumber(layouts::number(c, 0)),
            place: layouts::number(c, 1),
            number: DocumentNumber(layouts::number(c, 2)),
            location: layouts::url_at(c, 3),
            policy: layouts::policy_of(layouts::number(c, 9)),
            referrer: layouts::referrer_at(c, 10),
            script: Script(layouts::number(c, 17)),
            state: ScriptState(layouts::number(c, 18)),
            active: layouts::flag_of(layouts::number(c, 19)),
        }
    }

    fn glance(c: &[u32]) -> Document {
        Self::read(c)
    }

    fn write(c: &mut [u32], row: Document) {
        let numbers = numbers_of(row);
        if c.len() == numbers.len() {
            c.copy_from_slice(&numbers);
        }
    }

    fn head(row: Document) -> Document {
        row
    }

    fn key(h: Document) -> (WindowNumber, u32) {
        (h.window, h.place)
    }

    fn order(a: (WindowNumber, u32), b: (WindowNumber, u32)) -> Ordering {
        a.0.0.cmp(&b.0.0).then(a.1.cmp(&b.1))
    }

    ghost fits = { Prim.search rules };

    ghost few = { Prim.search rules };

    ghost same_key = { λ row. refl };
}

impl Labelled for Documents {
    ghost mentions = { mentions documents };

    ghost clean = { clean documents };

    fn mentions(h: Document, l: Label) -> bool {
        labels::same(l, Label::OfWindow(h.window)) || labels::same(l, Label::OfDocument(h.number))
    }

    ghost cleaned = { clean_where_none documents };
}

// A row's numbers.
fn numbers_of(row: Document) -> [u32; 20]
    ensures { document_of result ≡ row }
{
    let location = layouts::url_numbers(row.location);
    let referrer = layouts::referrer_numbers(row.referrer);
    [
        row.window.0,
        row.place,
        row.number.0,
        location[0],
        location[1],
        location[2],
        location[3],
        location[4],
        location[5],
        layouts::policy_tag(row.policy),
        referrer[0],
        referrer[1],
        referrer[2],
        referrer[3],
        referrer[4],
        referrer[5],
        referrer[6],
        row.script.0,
        row.state.0,
        layouts::flag(row.active),
    ]
}

fn no_numbers() -> DocumentNumbers {
    DocumentNumbers {
        rows: [DocumentNumber(0); 64],
        count: 0,
    }
}

// The numbers of the documents that pass a test.
pub fn numbers<F: Fn(Document) -> bool>(m: &Memory, test: F) -> DocumentNumbers
    requires { F.IsAlwaysCallable test }
    ensures numbers { (p : Document → Bool) → Decides F.post test (λ d. d) p → document_numbers result ≡ map number_of (keep p (table documents_in m.now)) }
    ensures most { result.count ≤ length (table documents_in m.now) }
{
    let mut out = no_numbers();
    let mut j = 0;
    for i in 0..Documents::size(m) {
        let row = Documents::row(m, i);
        if test(row) {
            out.rows[j] = row.number;
            j += 1;
        }
    }
    out.count = j;
    out
}
