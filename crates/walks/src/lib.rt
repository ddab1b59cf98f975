// Windows and the documents that hold them (000 Definitions 29 to 31 and 34): what is reached, what stands above, what stands under.
// The rows of both tables may stand in any order, and their counts may say anything.
#![tactic(auto)]

pub mod told; // what stands above a window

ghost use Rattle.std.specs.Prelude.{◌≡◌};
ghost use Rattle.types.specs.Lists.{document_numbers};
ghost use Rattle.tables.specs.Rows.{origin_of};
ghost use Rattle.memory.specs.Rows.{table};
ghost use Rattle.layouts.specs.Tables.{windows_in, documents_in};
ghost use Rattle.wim.specs.Walks.{active_document, window_numbered, document_numbered, above, steps, reached_from, is_reached, is_under};
ghost use Rattle.wim.specs.Program.{is_top, when, with_origin, listens};
ghost use Rattle.walks.specs.Told.{standing};

use documents::Documents;
use memory::Memory;
use rows::Table;
use told::Above;
use types::rows::{Document, Window};
use types::{DocumentNumber, DocumentNumbers, Origin, WindowNumber};
use windows::Windows;

// Parents are followed upward at most so often (01 "What a step does").
pub const STEPS: u32 = 32;

pub fn origin_of(d: Document) -> Origin
    ensures { result ≡ origin_of d }
{
    Origin {
        host: d.location.host,
        protocol: d.location.protocol,
    }
}

pub fn active_document(m: &Memory, w: WindowNumber) -> Option<Document>
    ensures { result ≡ active_document (table documents_in m.now) w }
{
    Documents::first(m, |d| d.window == w && d.active)
}

pub fn numbered(m: &Memory, n: DocumentNumber) -> Option<Document>
    ensures { result ≡ document_numbered (table documents_in m.now) n }
{
    Documents::first(m, |d| d.number == n)
}

#[tactic(auto, unfolding(wim::specs::Walks::window_numbered))]
pub fn window_numbered(m: &Memory, w: WindowNumber) -> Option<Window>
    ensures { result ≡ window_numbered (table windows_in m.now) w }
{
    Windows::get(m, w)
}

// Whether there is a top-level window with this number.
pub fn is_top(m: &Memory, w: WindowNumber) -> bool
    ensures { result ≡ is_top (window_numbered (table windows_in m.now) w) }
{
    window_numbered(m, w).is_some_and(|row| row.parent.is_none())
}

#[tactic(auto, unfolding(wim::specs::Walks::above))]
pub fn above(m: &Memory, w: WindowNumber) -> Above
    ensures { standing result ≡ above (table windows_in m.now) (table documents_in m.now) w }
{
    let Some(row) = window_numbered(m, w) else {
        return Above::Missing;
    };
    let Some(n) = row.parent else {
        return Above::Topmost;
    };
    match numbered(m, n) {
        Some(d) => Above::HeldBy(d),
        None => Above::Missing,
    }
}

// 01's recursive ancestor walk over window rows with a falling step count, used by the navigation rules: n steps at most.
#[tactic(auto, using(crate::proofs::Up::reached_none, crate::proofs::Up::reached_up))]
fn reached_within(n: u32, m: &Memory, w: WindowNumber) -> Option<WindowNumber>
    ensures { result ≡ reached_from n (table windows_in m.now) (table documents_in m.now) w }
{
    if n == 0 {
        return None;
    }
    match above(m, w) {
        Above::Missing => None,
        Above::Topmost => Some(w),
        Above::HeldBy(d) => {
            if d.active {
                reached_within(n - 1, m, d.window)
            } else {
                None
            }
        }
    }
}

// The top-level window from which a window is reached through active documents.
pub fn reached(m: &Memory, w: WindowNumber) -> Option<WindowNumber>
    ensures { result ≡ reached_from steps (table windows_in m.now) (table documents_in m.now) w }
{
    reached_within(STEPS, m, w)
}

pub fn is_reached(m: &Memory, w: WindowNumber) -> bool
    ensures { result ≡ is_reached (table windows_in m.now) (table documents_in m.now) w }
{
    reached(m, w).is_some()
}

// The active document of a window, if that is reached and the document has the origin of d.
pub fn of_origin(m: &Memory, d: Document, v: WindowNumber) -> Option<Document>
    ensures { result ≡ when (is_reached (table windows_in m.now) (table documents_in m.now) v) (with_origin d (active_document (table documents_in m.now) v)) }
{
    if !is_reached(m, v) {
        return None;
    }
    let e = active_document(m, v)?;
    labels::same_origin(origin_of(e), origin_of(d)).then_some(e)
}

// The document with this number, if it is the active one of a reached window.
pub fn listening(m: &Memory, n: DocumentNumber) -> Option<Document>
    ensures { result ≡ listens (table windows_in m.now) (table documents_in m.now) (document_numbered (table documents_in m.now) n) }
{
    let d = numbered(m, n)?;
    (d.active && is_reached(m, d.window)).then_some(d)
}

// Whether one of these documents stands above a window, n steps up at most.
#[tactic(auto, using(crate::proofs::Up::under_none, crate::proofs::Up::under_up))]
fn under_within(n: u32, m: &Memory, gone: DocumentNumbers, w: WindowNumber) -> bool
    ensures { result ≡ is_under n (table windows_in m.now) (table documents_in m.now) (document_numbers gone) w }
{
    if n == 0 {
        return false;
    }
    match above(m, w) {
        Above::Missing | Above::Topmost => false,
        Above::HeldBy(d) => {
            labels::one_of(d.number, gone) || under_within(n - 1, m, gone, d.window)
        }
    }
}

pub fn is_under(m: &Memory, gone: DocumentNumbers, w: WindowNumber) -> bool
    ensures { result ≡ is_under steps (table windows_in m.now) (table documents_in m.now) (document_numbers gone) w }
{
    under_within(STEPS, m, gone, w)
}
