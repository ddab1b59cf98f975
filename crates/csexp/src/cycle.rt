// Any term: "A term reads a list, a list reads terms, and the text left grows shorter" (01 "The text"). The two functions call each
// other; the measure is the text that is left, in which a list that looks for a term at its own position counts one more than that term.
// `levels` falls from list to list, so the calls never stand deeper than that.
ghost use Rattle.csexp.specs.Answers.{Passes, Leaves};
ghost use Rattle.csexp.specs.Limits.{shallow, shallows};

use crate::leaf::{atom, mark};

// A term of at most `levels` lists inside one another: the position behind it.
#[cycle(more_terms_one_term)]
#[tactic(auto, using(crate::proofs::Shallow::one_term))]
pub fn one_term(s: &[u8], at: usize, levels: usize) -> Option<usize>
    ensures { Passes (shallow levels) s.now at result }
{
    if let Some(a) = mark(s, at, b'(') {
        if levels == 0 {
            return None;
        }
        return more_terms(s, a, levels - 1);
    }
    let a = atom(s, at)?;
    Some(a.next)
}

// The terms up to a ')', each of at most `levels` lists inside one another: the position behind that.
#[cycle(more_terms_one_term)]
#[tactic(auto, using(crate::proofs::Shallow::more_terms))]
pub fn more_terms(s: &[u8], at: usize, levels: usize) -> Option<usize>
    ensures { Leaves (shallows levels) s.now at result }
{
    let mut p = at;
    loop {
        if let Some(e) = mark(s, p, b')') {
            return Some(e);
        }
        p = one_term(s, p, levels)?;
    }
}
