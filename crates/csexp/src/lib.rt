// Canonical S-expressions (RFC 9804, canonical form only; 01 "The text"), read by positions in a slice. A reader takes the position
// where it starts, and hands back what it found with the position behind that, or `None`.
#![tactic(auto)]

ghost use Rattle.std.specs.Prelude.{◌≡◌};

pub mod leaf; // one byte, a decimal number, an atom, a word, a number atom
pub mod shape; // a word that stands for a value, the empty list, a number that may be absent, a labelled number
pub mod cycle; // any term, and the terms of a list: each reads the other
pub mod text; // whole texts and the first term of a text, within limits
pub mod write; // writers into a lent slice

pub use cycle::{more_terms, one_term};
pub use leaf::{atom, decimal, mark, number, word};
pub use shape::{empty_list, labelled, means, optional};
pub use text::{ITEM_BYTES, ITEM_LEVELS, ends_at, whole};

// A value that was found, and the position behind it.
#[derive(Clone, Copy)]
pub struct At<T> {
    pub value: T,
    pub next: usize,
}

impl<T> At<T> {
    // Another value made of that one, which ends where it does.
    pub fn map<U, F: FnOnce(T) -> U>(self, f: F) -> At<U>
        requires { F.pre f self.value }
        ensures value { F.post f self.value result.value }
        ensures next { result.next ≡ self.next }
    {
        At {
            value: f(self.value),
            next: self.next,
        }
    }
}
