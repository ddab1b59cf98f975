// Two numbers each: a window's parent and opener (000 Definitions 29 and 30), the key of a waiting request.
ghost use Rattle.std.specs.Prelude.{◌≡◌, take, drop};
ghost use Rattle.layouts.specs.Codes.{parent_of, opener_of, seal_of};

use super::single::{at, perhaps, perhaps_numbers};
use types::rows::{Opener, Parent};
use types::{DocumentNumber, KeyNumber, Seal, WindowNumber};

// What the three share is `perhaps`; each has its own name, since the contracts of the tables speak of three nouns.
pub fn parent_at(c: &[u32], p: usize) -> Parent
    ensures { result ≡ parent_of (take 2 (drop p c.now)) }
{
    perhaps(at(c, p, 0), at(c, p, 1)).map(DocumentNumber)
}

pub fn parent_numbers(x: Parent) -> [u32; 2]
    ensures { parent_of result ≡ x }
{
    perhaps_numbers(x.map(|d| d.0))
}

pub fn opener_at(c: &[u32], p: usize) -> Opener
    ensures { result ≡ opener_of (take 2 (drop p c.now)) }
{
    perhaps(at(c, p, 0), at(c, p, 1)).map(WindowNumber)
}

pub fn opener_numbers(x: Opener) -> [u32; 2]
    ensures { opener_of result ≡ x }
{
    perhaps_numbers(x.map(|w| w.0))
}

pub fn seal_at(c: &[u32], p: usize) -> Seal
    ensures { result ≡ seal_of (take 2 (drop p c.now)) }
{
    perhaps(at(c, p, 0), at(c, p, 1)).map(KeyNumber)
}

pub fn seal_numbers(x: Seal) -> [u32; 2]
    ensures { seal_of result ≡ x }
{
    perhaps_numbers(x.map(|k| k.0))
}
