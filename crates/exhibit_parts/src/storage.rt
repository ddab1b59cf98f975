// What the origin keeps: in local storage (000 A7:6), and in session storage under its top-level window (000 A7:5). () where it keeps nothing.
#![tactic(auto, using(csexp::proofs::write::Steps::writers))]

ghost use Rattle.csexp.specs.Puts.{Writes};
ghost use Rattle.memory.specs.Rows.{table};
ghost use Rattle.layouts.specs.Tables.{local_in, session_in};
ghost use Rattle.wim.specs.Shown.{local_term, session_term};
ghost use Rattle.exhibit_parts.specs.Kept.{local_at, session_at};

use csexp::write::{empty_list, optional};
use local_storage::LocalStorage;
use memory::Memory;
use rows::Table;
use session_storage::SessionStorage;
use types::{Origin, WindowNumber};

pub fn write_local(m: &Memory, out: &mut [u8], at: usize, origin: Origin) -> usize
    ensures { Writes (local_term (local_at origin (table local_in m.now))) out.old at out.new result }
{
    match LocalStorage::get(m, origin) {
        None => empty_list(out, at),
        Some(row) => optional(out, at, row.value.0),
    }
}

pub fn write_session(
    m: &Memory,
    out: &mut [u8],
    at: usize,
    origin: Origin,
    top: WindowNumber,
) -> usize
    ensures { Writes (session_term (session_at origin top (table session_in m.now))) out.old at out.new result }
{
    match SessionStorage::get(m, (origin, top)) {
        None => empty_list(out, at),
        Some(row) => optional(out, at, row.value.0),
    }
}
