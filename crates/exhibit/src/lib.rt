// What the script of a window is shown: 000 A7:2 to 9 with Definition 35 (Clean), as one canonical text in a lent buffer. A script's step itself
// never needs it: the item says what the script does.
#![tactic(auto)]

pub mod tree; // windows and documents

ghost use Rattle.csexp.specs.Term.{write};
ghost use Rattle.csexp.specs.Puts.{Writes};
ghost use Rattle.csexp.specs.Sent.{Sent};
ghost use Rattle.browser.specs.View.{view};
ghost use Rattle.wim.specs.Shown.{shown_to};
ghost use Rattle.exhibit.specs.Exhibits.{Shows};

use csexp::write::{close_list, labelled, number, open_list};
use exhibit_parts::{write_cookies, write_inputs, write_local, write_session};
use memory::Memory;
use tree::write_windows;
use types::WindowNumber;
use types::refusals::Refusal;
use types::rows::Document;
use walks::{STEPS, origin_of};

// How many bytes of the buffer were written, or why nothing is shown.
pub type Showing = Result<usize, Refusal>;

// 000 A7:9: (tree document scriptstate scriptinputs cookies localStorage sessionStorage)
fn write_exhibit(m: &Memory, out: &mut [u8], at: usize, top: WindowNumber, d: Document) -> usize
    ensures { Writes (shown_to (view m.now) top d) out.old at out.new result }
{
    let origin = origin_of(d);
    let a = open_list(out, at);
    let b = write_windows(m, out, a, origin, None, STEPS);
    let c = labelled(out, b, b"document", d.number.0);
    let e = number(out, c, d.state.0);
    let f = write_inputs(m, out, e, d.number);
    let g = write_cookies(m, out, f, origin);
    let h = write_local(m, out, g, origin);
    let i = write_session(m, out, h, origin, top);
    close_list(out, i)
}

// The text from `place` on, where it has room between there and the end: a run over a slice of one byte counts it first.
fn put_exhibit(
    m: &Memory,
    out: &mut [u8],
    place: usize,
    top: WindowNumber,
    d: Document,
) -> Option<usize>
    ensures { Sent (write (shown_to (view m.now) top d)) out.old place out.new result }
{
    let mut nothing = [0u8; 1];
    let n = write_exhibit(m, &mut nothing, 0, top, d);
    if place <= out.len() && n <= out.len() - place {
        let end = place + n;
        write_exhibit(m, &mut out[place..end], 0, top, d);
        return Some(n);
    }
    None
}

// Refusals as for a step of that script (01 "Refusal numbers"): 8, then 3, then 7; at a refusal the buffer is as it was.
pub fn show(m: &Memory, w: WindowNumber, out: &mut [u8], place: usize) -> Showing
    ensures { Shows m.now w out.old place result out.new }
{
    if browser::is_closed(m) {
        return Err(Refusal::Closed);
    }
    let (top, d) = history::displayed(m, w)?;
    put_exhibit(m, out, place, top, d).ok_or(Refusal::NoRoom)
}
