// Texts within limits: how many bytes a term has at most, and how many lists stand inside one another.
ghost use Rattle.std.specs.Prelude.{◌≡◌};
ghost use Rattle.csexp.specs.Limits.{whole_of, ending_of};

use crate::cycle::one_term;

// What one item of text has at most (01 "Numbers, names, sizes": 16,384 bytes and 16 levels of lists); item_bytes and item_levels of specs/Limits.
pub const ITEM_BYTES: usize = 16384;

pub const ITEM_LEVELS: usize = 16;

// Where the first term from `at` on ends, if there is one within the limits: at most `bytes` bytes, counted from `at`, and at most `levels` levels.
#[tactic(auto, using(crate::proofs::Steps::forward), unfolding(crate::specs::Limits::ending_of))]
pub fn ends_at(s: &[u8], at: usize, bytes: usize, levels: usize) -> Option<usize>
    ensures { result ≡ ending_of bytes levels s.now at }
{
    let p = one_term(s, at, levels)?;
    if p - at <= bytes { Some(p) } else { None }
}

// The text is one canonical term within the limits, and nothing else.
#[tactic(auto, using(crate::proofs::Wholes::whole_is))]
pub fn whole(s: &[u8], bytes: usize, levels: usize) -> bool
    ensures { result ≡ whole_of bytes levels s.now }
{
    s.len() <= bytes && one_term(s, 0, levels) == Some(s.len())
}
