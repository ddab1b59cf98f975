// Words that stand for a value, and small lists that the shapes of 01 are full of.
#![tactic(auto, using(crate::proofs::Steps::readers), unfolding(crate::specs::Decode::optional_of, crate::specs::Decode::labelled_of))]

ghost use Rattle.csexp.specs.Decode.{means, empty_list, optional_of, labelled_of};
ghost use Rattle.csexp.specs.Answers.{Reads, Passes};

use crate::At;
use crate::leaf::{mark, number, word};

// The word w, which stands for the value v.
pub fn means<T: Copy>(s: &[u8], at: usize, w: &[u8], v: T) -> Option<At<T>>
    ensures { Reads (means w.now v) s.now at result }
{
    let next = word(s, at, w)?;
    Some(At { value: v, next })
}

// The list with nothing in it.
pub fn empty_list(s: &[u8], at: usize) -> Option<usize>
    ensures { Passes empty_list s.now at result }
{
    let a = mark(s, at, b'(')?;
    mark(s, a, b')')
}

// A number from 1 to hi, or () for none, which is 0.
pub fn optional(s: &[u8], at: usize, hi: u32) -> Option<At<u32>>
    ensures { Reads (optional_of hi) s.now at result }
{
    if let Some(next) = empty_list(s, at) {
        return Some(At { value: 0, next });
    }
    number(s, at, 1, hi)
}

// A labelled number, as (3:dns2:32).
pub fn labelled(s: &[u8], at: usize, label: &[u8], lo: u32, hi: u32) -> Option<At<u32>>
    ensures { Reads (labelled_of label.now lo hi) s.now at result }
{
    let a = mark(s, at, b'(')?;
    let b = word(s, a, label)?;
    let n = number(s, b, lo, hi)?;
    let next = mark(s, n.next, b')')?;
    Some(At {
        value: n.value,
        next,
    })
}
