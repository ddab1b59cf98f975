// 000 Algorithm 9, lines 13 to 29: urlbar. An address goes into a new window, or into a top-level window that shows something.
ghost use Rattle.types.specs.declared.commands.Target.TheVariants.{NewWindow, Existing};
ghost use Rattle.wim.specs.Main.{urlbar};
ghost use Rattle.stepping.specs.Performs.{Performs};

use super::visiting::{SENDS, sending_to};
use memory::Memory;
use rows::Table;
use stepping::Performed;
use types::commands::Target;
use types::refusals::{Missing, Refusal};
use types::rows::Window;
use types::{Fresh, Url, Wants, WindowNumber};
use windows::Windows;

// 16 to 18, 27 to 29
fn urlbar_new(m: &mut Memory, url: Url, f: Fresh) -> Performed
    ensures { Performs (urlbar url NewWindow) f m.old m.new result }
{
    let wants = Wants {
        window: true,
        ..SENDS
    };
    if !stepping::fresh::ready(m, f, wants) {
        return Err(Refusal::NotFresh);
    }
    let w = f.window;
    let row = Window {
        number: w,
        parent: None,
        opener: None,
    };
    let room = Windows::put(m, row);
    sending::http_send(m, room, sending_to(w, url, None), f)
}

// 19 to 21, 27 to 29: a top-level window that shows something
fn urlbar_existing(m: &mut Memory, url: Url, w: WindowNumber, f: Fresh) -> Performed
    ensures { Performs (urlbar url (Existing w)) f m.old m.new result }
{
    if !walks::is_top(m, w) {
        return Err(Missing::NoWindow.into());
    }
    walks::active_document(m, w).ok_or(Missing::NoDocument)?;
    if !stepping::fresh::ready(m, f, SENDS) {
        return Err(Refusal::NotFresh);
    }
    sending::http_send(m, true, sending_to(w, url, None), f)
}

pub fn urlbar(m: &mut Memory, target: Target, url: Url, f: Fresh) -> Performed
    ensures { Performs (urlbar url target) f m.old m.new result }
{
    match target {
        Target::NewWindow => urlbar_new(m, url, f),
        Target::Existing(w) => urlbar_existing(m, url, w, f),
    }
}
