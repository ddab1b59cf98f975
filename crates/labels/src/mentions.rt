// Whether a label stands in a part of a row.
ghost use Rattle.std.specs.Prelude.{◌≡◌};
ghost use Rattle.tables.specs.Labels.{same_label, among, parent_label, opener_label, seal_label, leads, sender_label};
ghost use Rattle.tables.specs.View.{label_of};

use types::rows::{News, Opener, Parent};
use types::{Label, Reference, Seal};

pub fn number(l: Label) -> u32
    ensures { result ≡ (label_of l).1 }
{
    match l {
        Label::OfWindow(n) => n.0,
        Label::OfRequest(n) => n.0,
        Label::OfDns(n) => n.0,
        Label::OfKey(n) => n.0,
        Label::OfDocument(n) => n.0,
    }
}

pub fn same(l: Label, m: Label) -> bool
    ensures { result ≡ same_label (label_of l) (label_of m) }
{
    l == m
}

pub fn in_parent(l: Label, p: Parent) -> bool
    ensures { result ≡ among (label_of l) (parent_label p) }
{
    p.is_some_and(|d| same(l, Label::OfDocument(d)))
}

pub fn in_opener(l: Label, p: Opener) -> bool
    ensures { result ≡ among (label_of l) (opener_label p) }
{
    p.is_some_and(|w| same(l, Label::OfWindow(w)))
}

pub fn in_seal(l: Label, p: Seal) -> bool
    ensures { result ≡ among (label_of l) (seal_label p) }
{
    p.is_some_and(|k| same(l, Label::OfKey(k)))
}

pub fn in_reference(l: Label, p: Reference) -> bool
    ensures { result ≡ same_label (label_of l) (leads p) }
{
    match p {
        Reference::Req(w) => same(l, Label::OfWindow(w)),
        Reference::Xhr(d, _) => same(l, Label::OfDocument(d)),
    }
}

// The window that a message came from.
pub fn in_news(l: Label, p: News) -> bool
    ensures { result ≡ among (label_of l) (sender_label p) }
{
    match p {
        News::Answered(_, _) => false,
        News::Posted(w, _, _) => same(l, Label::OfWindow(w)),
    }
}
