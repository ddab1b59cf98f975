// Refusal 5: the fresh numbers are just those that a step needs, and none of them stands anywhere in the tables.
ghost use Rattle.std.specs.Prelude.{◌≡◌};
ghost use Rattle.tables.specs.Labels.{is_fresh};
ghost use Rattle.tables.specs.View.{label_of};
ghost use Rattle.wim.specs.Step.{numbers, fresh_labels, all_fresh};
ghost use Rattle.browser.specs.View.{view};
ghost use Rattle.stepping.specs.Wanted.{flags, agrees, exactly, ready, spare};

use documents::Documents;
use inputs::Inputs;
use memory::Memory;
use pending_dns::PendingDns;
use pending_requests::PendingRequests;
use rows::Labelled;
use session_storage::SessionStorage;
use types::{Fresh, Label, Wants};
use windows::Windows;

// No row of any table speaks of the label. Cookies, local storage and STS hosts speak of hosts alone.
fn absent(m: &Memory, l: Label) -> bool
    ensures { result ≡ is_fresh (view m.now) (label_of l) }
{
    Windows::clean(m, l)
        && Documents::clean(m, l)
        && SessionStorage::clean(m, l)
        && Inputs::clean(m, l)
        && PendingDns::clean(m, l)
        && PendingRequests::clean(m, l)
}

// A number that is given, and 0 is none, stands nowhere.
fn unused(m: &Memory, l: Label) -> bool
    ensures { result ≡ spare (view m.now) (label_of l) }
{
    labels::number(l) == 0 || absent(m, l)
}

fn all_unused(m: &Memory, f: Fresh) -> bool
    ensures { result ≡ all_fresh (view m.now) (fresh_labels f) }
{
    unused(m, Label::OfWindow(f.window))
        && unused(m, Label::OfRequest(f.request))
        && unused(m, Label::OfDns(f.dns))
        && unused(m, Label::OfKey(f.key))
        && unused(m, Label::OfDocument(f.document))
}

fn agrees(x: bool, n: u32) -> bool
    ensures { result ≡ agrees x n }
{
    x == (n != 0)
}

fn exactly(f: Fresh, w: Wants) -> bool
    ensures { result ≡ exactly (flags w) (numbers f) }
{
    agrees(w.window, f.window.0)
        && agrees(w.request, f.request.0)
        && agrees(w.dns, f.dns.0)
        && agrees(w.key, f.key.0)
        && agrees(w.document, f.document.0)
}

pub fn ready(m: &Memory, f: Fresh, w: Wants) -> bool
    ensures { result ≡ ready w f (view m.now) }
{
    exactly(f, w) && all_unused(m, f)
}
