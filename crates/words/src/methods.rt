// "Methods are the eight of RFC 9110" (01 "The text"): how each is spelt, and a method read by trying one after the other.
ghost use Rattle.std.specs.Prelude.{[], ◌≡◌, get_or};
ghost use Rattle.csexp.specs.Answers.{Reads};
ghost use Rattle.shapes.specs.Words.{spellings, spelling};
ghost use Rattle.shapes.specs.Items.{method_of};

use csexp::{At, means};
use types::Method;

const METHODS: [(Method, &[u8]); 8] = [
    (Method::Get, b"GET"),
    (Method::Head, b"HEAD"),
    (Method::Post, b"POST"),
    (Method::Put, b"PUT"),
    (Method::Delete, b"DELETE"),
    (Method::Connect, b"CONNECT"),
    (Method::Options, b"OPTIONS"),
    (Method::Trace, b"TRACE"),
];

// What the table says of row i: no bytes past its end.
pub fn spelling_at(i: usize) -> &'static [u8]
    ensures { result.now ≡ get_or spellings i [] }
{
    match METHODS.get(i) {
        Some((_, spelling)) => spelling,
        None => b"",
    }
}

// How a method is spelt: its row is its place in the table.
pub fn spelling_of(m: Method) -> &'static [u8]
    ensures { result.now ≡ spelling m }
{
    spelling_at(m as usize)
}

// The atom that spells a method.
#[tactic(auto, using(crate::proofs::Attempts::rows))]
pub fn read_method(s: &[u8], at: usize) -> Option<At<Method>>
    ensures { Reads method_of s.now at result }
{
    for (method, spelling) in METHODS {
        if let Some(found) = means(s, at, spelling, method) {
            return Some(found);
        }
    }
    None
}
