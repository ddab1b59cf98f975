// What stands at a position: one byte, a decimal number, an atom, a word, a number atom.
ghost use Rattle.std.specs.Prelude.{◌≡◌};
ghost use Rattle.csexp.specs.Decode.{word, numeral};
ghost use Rattle.csexp.specs.Answers.{Reads, Passes, Marks, Counts, Strings, digit_at};

use crate::At;

// The byte b.
#[tactic(auto, using(crate::proofs::Leaves::mark_is))]
pub fn mark(s: &[u8], at: usize, b: u8) -> Option<usize>
    ensures { Marks b s.now at result }
{
    if at < s.len() && s[at] == b {
        Some(at + 1)
    } else {
        None
    }
}

// The value of the digit at a position.
#[tactic(auto, unfolding(crate::specs::Answers::digit_at))]
fn digit(s: &[u8], i: usize) -> Option<usize>
    ensures { result ≡ digit_at s.now i }
{
    match s.get(i) {
        Some(b @ b'0'..=b'9') => Some((b - b'0') as usize),
        _ => None,
    }
}

// A decimal number of at most `cap`: 0, or digits that begin with no 0.
#[tactic(auto, using(crate::proofs::Digits::digits))]
pub fn decimal(s: &[u8], at: usize, cap: usize) -> Option<At<usize>>
    ensures { Counts cap s.now at result }
{
    let first = digit(s, at)?;
    let mut value = first;
    let mut next = at + 1;
    if first == 0 {
        return Some(At { value, next });
    }
    if cap < first {
        return None;
    }
    while let Some(d) = digit(s, next) {
        if cap / 10 < value || cap - value * 10 < d {
            return None;
        }
        value = value * 10 + d;
        next += 1;
    }
    Some(At { value, next })
}

// An atom: its length, ':' and as many bytes, which are handed back as a part of the caller's slice (01: "An atom that has been read
// is shown as the very bytes of the input"). A length that is larger than the whole text is no length, so none is too large to count.
#[tactic(auto, using(crate::proofs::Atoms::strings))]
pub fn atom(s: &[u8], at: usize) -> Option<At<&[u8]>>
    ensures { Strings s.now at result }
{
    let length = decimal(s, at, s.len())?;
    let start = mark(s, length.next, b':')?;
    let next = start.checked_add(length.value)?;
    let value = s.get(start..next)?;
    Some(At { value, next })
}

// The atom whose bytes are w.
#[tactic(auto, using(crate::proofs::Atoms::words), unfolding(crate::specs::Decode::word))]
pub fn word(s: &[u8], at: usize, w: &[u8]) -> Option<usize>
    ensures { Passes (word w.now) s.now at result }
{
    let a = atom(s, at)?;
    if w == a.value { Some(a.next) } else { None }
}

// The atom whose bytes are a decimal number from lo to hi.
#[tactic(auto, using(crate::proofs::Atoms::numerals), unfolding(crate::specs::Decode::numeral))]
pub fn number(s: &[u8], at: usize, lo: u32, hi: u32) -> Option<At<u32>>
    ensures { Reads (numeral lo hi) s.now at result }
{
    let a = atom(s, at)?;
    let n = decimal(a.value, 0, hi as usize)?;
    if n.next == a.value.len() && lo as usize <= n.value {
        Some(At {
            value: n.value as u32,
            next: a.next,
        })
    } else {
        None
    }
}
