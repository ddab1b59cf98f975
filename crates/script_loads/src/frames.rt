// The command of a script that hangs a frame into a page: IFRAME (000 A7:27 to 35).
ghost use Rattle.wim.specs.Script.{iframe_in, iframe};
ghost use Rattle.storing.specs.Stored.{storing};
ghost use Rattle.stepping.specs.Performs.{Performs};

use crate::loading::{OPENS, load};
use crate::sendings::page_sending;
use memory::Memory;
use rows::Table;
use stepping::Performed;
use storing::scene::Scene;
use types::Url;
use types::commands::Holder;
use types::rows::{Document, Window};
use windows::Windows;

// A7:32 to 35: the frame is hung under the document e, and nobody opened its window.
fn hang(m: &mut Memory, s: Scene, url: Url, e: Document) -> Performed
    ensures { Performs (iframe_in s.document (storing s) url e) s.fresh m.old m.new result }
{
    let row = Window {
        number: s.fresh.window,
        parent: Some(e.number),
        opener: None,
    };
    let o = page_sending(s.document, url, false, row.number);
    load(m, s, OPENS, o, |m| Windows::put(m, row))
}

// A7:27 to 35
pub fn iframe(m: &mut Memory, s: Scene, url: Url, holder: Holder) -> Performed
    ensures { Performs (iframe s.document (storing s) url holder) s.fresh m.old m.new result }
{
    let e = match holder {
        Holder::Itself => s.document,
        Holder::Within(x) => storing::scene::get_window(m, s.document, x),
    };
    hang(m, s, url, e)
}
