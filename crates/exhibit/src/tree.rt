// The tree of windows and documents as a script of some origin is shown it (000 Definition 35, Clean): active documents alone, those of
// its origin whole but for their headers, of the others their number and their subwindows. A list of windows has windows in it, a window its
// document, a document again a list of windows: the functions call each other with a level less for each list.
ghost use Rattle.std.specs.Prelude.{◌≡◌};
ghost use Rattle.csexp.specs.Term.{list};
ghost use Rattle.csexp.specs.Puts.{Writes, Items};
ghost use Rattle.tables.specs.Tables.{documents};
ghost use Rattle.browser.specs.View.{view};
ghost use Rattle.wim.specs.Walks.{active_document};
ghost use Rattle.wim.specs.Shown.{window_term, whole_document, limited_document};
ghost use Rattle.exhibit.specs.Levels.{hangs_under, windows_under, below, within};

use csexp::write::{close_list, empty_list, labelled, number, open_list, word};
use exhibit_parts::{write_inputs, write_opener, write_referrer};
use labels::same_origin;
use memory::Memory;
use rows::Table;
use types::rows::{Document, Parent, Window};
use types::{Origin, WindowNumber};
use walks::{active_document, origin_of};
use windows::Windows;
use writing::addresses::write_url;

// Whether a window with this parent hangs there.
fn hangs_under(place: Parent, parent: Parent) -> bool
    ensures { result ≡ hangs_under place parent }
{
    place == parent
}

// (window ..): the windows that hang at a place, at most so many levels deep, and none where no level is left.
#[cycle(tree)]
pub fn write_windows(
    m: &Memory,
    out: &mut [u8],
    at: usize,
    origin: Origin,
    place: Parent,
    levels: u32,
) -> usize
    ensures { Writes (list (windows_under levels (view m.now) origin place)) out.old at out.new result }
{
    if levels == 0 {
        return empty_list(out, at);
    }
    let mut p = open_list(out, at);
    for i in 0..Windows::size(m) {
        let row = Windows::row(m, i);
        if hangs_under(place, row.parent) {
            p = write_window(m, out, p, origin, row, levels - 1);
        }
    }
    close_list(out, p)
}

// (window (document) opener)
#[cycle(tree)]
fn write_window(
    m: &Memory,
    out: &mut [u8],
    at: usize,
    origin: Origin,
    row: Window,
    levels: u32,
) -> usize
    ensures { Writes (window_term row (within levels (view m.now) origin (active_document (view m.now documents) row.number))) out.old at out.new result }
{
    let a = open_list(out, at);
    let b = labelled(out, a, b"window", row.number.0);
    let c = open_list(out, b);
    let d = document_items(m, out, c, origin, row.number, levels);
    let e = close_list(out, d);
    let f = write_opener(out, e, row.opener);
    close_list(out, f)
}

// The active document of a window, where it has one: "all inactive documents removed".
// Origins are compared by labels: tried with `==`, the proof did not close, since the search does not join it to `same_origin` at a result of a call.
#[cycle(tree)]
fn document_items(
    m: &Memory,
    out: &mut [u8],
    at: usize,
    origin: Origin,
    window: WindowNumber,
    levels: u32,
) -> usize
    ensures { Items (within levels (view m.now) origin (active_document (view m.now documents) window)) out.old at out.new result }
{
    match active_document(m, window) {
        None => at,
        Some(d) => {
            if same_origin(origin_of(d), origin) {
                write_whole(m, out, at, origin, d, levels)
            } else {
                write_limited(m, out, at, origin, d, levels)
            }
        }
    }
}

// (document location () referrer script scriptstate inputs subwindows 1:T)
#[cycle(tree)]
fn write_whole(
    m: &Memory,
    out: &mut [u8],
    at: usize,
    origin: Origin,
    d: Document,
    levels: u32,
) -> usize
    ensures { Writes (whole_document (view m.now) d (below levels (view m.now) origin d)) out.old at out.new result }
{
    let a = open_list(out, at);
    let b = labelled(out, a, b"document", d.number.0);
    let c = write_url(out, b, d.location);
    let e = empty_list(out, c);
    let f = write_referrer(out, e, d.referrer);
    let g = number(out, f, d.script.0);
    let h = number(out, g, d.state.0);
    let i = write_inputs(m, out, h, d.number);
    let j = write_windows(m, out, i, origin, Some(d.number), levels);
    let k = word(out, j, b"T");
    close_list(out, k)
}

// (document subwindows): "a limited document with the same nonce and the same subwindow list"
#[cycle(tree)]
fn write_limited(
    m: &Memory,
    out: &mut [u8],
    at: usize,
    origin: Origin,
    d: Document,
    levels: u32,
) -> usize
    ensures { Writes (limited_document d (below levels (view m.now) origin d)) out.old at out.new result }
{
    let a = open_list(out, at);
    let b = labelled(out, a, b"document", d.number.0);
    let c = write_windows(m, out, b, origin, Some(d.number), levels);
    close_list(out, c)
}
