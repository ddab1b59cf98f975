// 000 A8:35 to 45: a document is loaded behind the active one of a window; those behind that go, with everything under them.
ghost use Rattle.std.specs.Prelude.{◌≡◌, [], ◌∷◌, map, suc, length};
ghost use Rattle.types.specs.Lists.{document_numbers};
ghost use Rattle.tables.specs.Tables.{windows, documents, inputs};
ghost use Rattle.memory.specs.Rows.{table};
ghost use Rattle.layouts.specs.Tables.{documents_in};
ghost use Rattle.wim.specs.Walks.{documents_of};
ghost use Rattle.wim.specs.Program.{observed, history};
ghost use Rattle.wim.specs.Response.{later_than, up_to, new_document};
ghost use Rattle.browser.specs.View.{view};
ghost use Rattle.stepping.specs.Holds.{Carries};
ghost use Rattle.documents.specs.Told.{number_of};
ghost use Rattle.responses.specs.Entered.{behind, Finds, entered};

use documents::Documents;
use memory::Memory;
use removing::told::Removal;
use rows::Table;
use types::answers::Answer;
use types::commands::{Script, ScriptState};
use types::rows::{Document, Waiting};
use types::{DocumentNumber, DocumentNumbers, WindowNumber};

// What a new document finds in its window: the place of the active one, its own place behind that, and what goes.
#[derive(Clone, Copy)]
pub struct Spot {
    pub was: u32,
    pub place: u32,
    pub gone: Removal,
}

// The documents of the window v behind the active one.
fn later_than(m: &Memory, v: WindowNumber, current: Option<Document>) -> DocumentNumbers
    ensures { document_numbers result ≡ map number_of (later_than current (documents_of (table documents_in m.now) v)) }
{
    documents::numbers(
        m,
        |e| e.window == v && current.is_some_and(|d| d.place < e.place),
    )
}

// The place behind those up to the active one: behind all, where none is.
fn place_behind(m: &Memory, v: WindowNumber, current: Option<Document>) -> u32
    ensures { result ≡ suc (length (up_to current (documents_of (table documents_in m.now) v))) }
{
    let up_to = Documents::tally(
        m,
        |e| e.window == v && current.is_none_or(|d| e.place <= d.place),
    );
    up_to as u32 + 1
}

// Places begin with 1: where no document is active, 0 is that of none.
pub fn look(m: &Memory, v: WindowNumber) -> Spot
    ensures { Finds (observed (history v) (view m.now)) (behind v (view m.now)) result }
{
    let current = walks::active_document(m, v);
    Spot {
        was: current.map_or(0, |d| d.place),
        place: place_behind(m, v, current),
        gone: removing::removal(m, later_than(m, v, current)),
    }
}

// A8:35 to 39
pub fn new_document(
    v: WindowNumber,
    place: u32,
    n: DocumentNumber,
    w: Waiting,
    a: Answer,
    script: Script,
    state: ScriptState,
) -> Document
    ensures { result ≡ new_document v place n.0 w a script state }
{
    Document {
        window: v,
        place,
        number: n,
        location: w.url,
        policy: a.policy,
        referrer: w.request.referrer,
        script,
        state,
        active: true,
    }
}

// A8:41 to 44
pub fn enter(m: &mut Memory, spot: Spot, row: Document) -> bool
    ensures { Carries (entered spot row) (documents ∷ []) (windows ∷ documents ∷ inputs ∷ []) m.old m.new result }
{
    removing::remove(m, spot.gone);
    Documents::revise(m, |d| {
        if d.window == row.window && d.place == spot.was {
            Document { active: false, ..d }
        } else {
            d
        }
    });
    Documents::put(m, row)
}
