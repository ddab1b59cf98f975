// The inputs of a document's script (000 A7:9: scriptinputs), in the order of the table, which is that of their arrival.
ghost use Rattle.csexp.specs.Term.{list};
ghost use Rattle.csexp.specs.Encode.{each};
ghost use Rattle.csexp.specs.Puts.{Writes};
ghost use Rattle.sorted.specs.Table.{keep};
ghost use Rattle.memory.specs.Rows.{table};
ghost use Rattle.layouts.specs.Tables.{inputs_in};
ghost use Rattle.exhibit_parts.specs.Kept.{is_for, input_term};

use crate::values::write_news;
use csexp::write::{close_list, open_list};
use inputs::Inputs;
use memory::Memory;
use rows::Table;
use types::DocumentNumber;

pub fn write_inputs(m: &Memory, out: &mut [u8], at: usize, document: DocumentNumber) -> usize
    ensures { Writes (list (each input_term (keep (is_for document) (table inputs_in m.now)))) out.old at out.new result }
{
    let mut p = open_list(out, at);
    for i in 0..Inputs::size(m) {
        let row = Inputs::row(m, i);
        if row.document == document {
            p = write_news(out, p, row.news);
        }
    }
    close_list(out, p)
}
