// The active document of a reached window, which reload, back, forward and scripts look at first; and 000 Algorithms 5 and 6, NAVBACK and NAVFORWARD:
// one algorithm with two directions, for triggers and for scripts.
#![tactic(auto)]

ghost use Rattle.std.specs.Prelude.{◌≡◌, true, [], suc, eqb};
ghost use Rattle.tables.specs.Rows.{setting_active};
ghost use Rattle.memory.specs.Rows.{table};
ghost use Rattle.layouts.specs.Tables.{documents_in};
ghost use Rattle.browser.specs.View.{view};
ghost use Rattle.stepping.specs.Holds.{Carries};
ghost use Rattle.history.specs.Display.{display_at};
ghost use Rattle.history.specs.Directions.{beside, way, turned};

use documents::Documents;
use memory::Memory;
use rows::Table;
use types::WindowNumber;
use types::refusals::Missing;
use types::rows::Document;

// The top-level window from which a window is reached and the active document in it, or what isn't there.
pub type Display = Result<(WindowNumber, Document), Missing>;

// "w ← Subwindows(s') such that s'.w.documents ≠ ⟨⟩ if possible; otherwise stop" (000 A9:10, 31, 38, 41)
#[tactic(auto, unfolding(wim::specs::Program::observed))]
pub fn displayed(m: &Memory, w: WindowNumber) -> Display
    ensures { result ≡ display_at w (view m.now) }
{
    let top = walks::reached(m, w).ok_or(Missing::NoWindow)?;
    let d = walks::active_document(m, w).ok_or(Missing::NoDocument)?;
    Ok((top, d))
}

// NAVBACK goes to the document before, NAVFORWARD to the document after. An enum and no closure: the definitions go by the same two (specs/Directions).
#[derive(Clone, Copy)]
pub enum Towards {
    Before,
    After,
}

// Whether one place is just behind another.
fn follows(place: u32, other: u32) -> bool
    ensures { result ≡ eqb (suc other) place }
{
    other < place && place - other == 1
}

fn beside(m: &Memory, w: WindowNumber, d: Document, q: Towards) -> Option<Document>
    ensures { result ≡ beside q w (table documents_in m.now) d }
{
    match q {
        Towards::Before => Documents::first(m, |e| e.window == w && follows(d.place, e.place)),
        Towards::After => Documents::first(m, |e| e.window == w && follows(e.place, d.place)),
    }
}

// Line 2: from the place of the active document to that of the document beside it, if there is one.
#[tactic(auto, unfolding(wim::specs::Walks::active_document))]
pub fn look(m: &Memory, w: WindowNumber, q: Towards) -> Option<(u32, u32)>
    ensures { result ≡ way q w (table documents_in m.now) }
{
    let d = walks::active_document(m, w)?;
    let e = beside(m, w, d, q)?;
    Some((d.place, e.place))
}

fn setting_active(d: Document, w: WindowNumber, place: u32, active: bool) -> Document
    ensures { result ≡ setting_active w place active d }
{
    if d.window == w && d.place == place {
        Document { active, ..d }
    } else {
        d
    }
}

// Lines 3 to 5. CANCELNAV is given a bare number, which equals no reference, and changes nothing.
pub fn turn(m: &mut Memory, w: WindowNumber, from: u32, to: u32)
    ensures { Carries (turned w from to) [] [] m.old m.new true }
{
    Documents::revise(m, |d| setting_active(d, w, from, false));
    Documents::revise(m, |d| setting_active(d, w, to, true));
}
