// A page goes into a window, a new one or one that is there. This is all of HREF and FORM (000 A7:19 to 26, 36 to 51) but the methods that a form takes.
ghost use Rattle.std.specs.Prelude.{◌≡◌, [], ◌∷◌};
ghost use Rattle.tables.specs.Tables.{windows, pending_dns, pending_requests};
ghost use Rattle.wim.specs.Script.{new_top_window};
ghost use Rattle.storing.specs.Stored.{storing};
ghost use Rattle.stepping.specs.Holds.{Carries};
ghost use Rattle.stepping.specs.Performs.{Performs};
ghost use Rattle.script_loads.specs.Navigation.{sent_into, opener_by, opened, into_new, into_existing, navigation};

use crate::loading::{OPENS, SENDS, load};
use crate::sendings::{form_sending, page_sending};
use memory::Memory;
use rows::Table;
use stepping::Performed;
use storing::scene::Scene;
use types::commands::Target;
use types::rows::{Document, Opener, Window};
use types::{Cancelled, Data, Method, Reference, Sending, Url, WindowNumber};
use windows::Windows;

// What is loaded: by a link, with its address and whether it is noreferrer; by a form, with its address, method and data.
#[derive(Clone, Copy)]
pub enum Load {
    Link(Url, bool),
    Form(Url, Method, Data),
}

impl Load {
    // A7:21 to 24, 40 to 49: what goes out into the window v.
    fn sending(self, d: Document, v: WindowNumber) -> Sending
        ensures { result ≡ sent_into d self v }
    {
        match self {
            Load::Link(url, noreferrer) => page_sending(d, url, noreferrer, v),
            Load::Form(url, method, data) => form_sending(d, url, method, data, Reference::Req(v)),
        }
    }

    // A1:3 to 6: the opener of a new window, of a script in w.
    fn opener(self, w: WindowNumber) -> Opener
        ensures { result ≡ opener_by self w }
    {
        match self {
            Load::Link(_, true) => None,
            Load::Link(_, false) | Load::Form(_, _, _) => Some(w),
        }
    }
}

// A1:2 to 8
fn new_top_window(v: WindowNumber, opener: Opener) -> Window
    ensures { result ≡ new_top_window v opener }
{
    Window {
        number: v,
        parent: None,
        opener,
    }
}

fn into_new(m: &mut Memory, s: Scene, l: Load) -> Performed
    ensures { Performs (into_new (storing s) (opener_by l s.window) (sent_into s.document l)) s.fresh m.old m.new result }
{
    let new = s.fresh.window;
    let row = new_top_window(new, l.opener(s.window));
    let o = l.sending(s.document, new);
    let change = |m: &mut Memory| -> bool
        ensures { Carries (opened new row) (windows ∷ []) (pending_requests ∷ pending_dns ∷ []) m.old m.new result }
    {
        let opened = Windows::put(m, row);
        sending::cancel(m, Cancelled::Labelled(Reference::Req(new)));
        opened
    };
    load(m, s, OPENS, o, change)
}

// The window v is the one that GETNAVIGABLEWINDOW gives.
fn into_existing(m: &mut Memory, s: Scene, l: Load, v: WindowNumber) -> Performed
    ensures { Performs (into_existing (storing s) (sent_into s.document l) v) s.fresh m.old m.new result }
{
    let o = l.sending(s.document, v);
    load(m, s, SENDS, o, |m| {
        sending::cancel(m, Cancelled::Labelled(Reference::Req(v)));
        true
    })
}

// A7:20, 39
pub fn navigate(m: &mut Memory, s: Scene, l: Load, target: Target) -> Performed
    ensures { Performs (navigation s.window s.document (storing s) (opener_by l s.window) (sent_into s.document l) target) s.fresh m.old m.new result }
{
    match target {
        Target::NewWindow => into_new(m, s, l),
        Target::Existing(x) => {
            let v = navigable::navigated(m, s.window, s.document, x);
            into_existing(m, s, l, v)
        }
    }
}
