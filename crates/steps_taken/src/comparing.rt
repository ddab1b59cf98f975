// Two memories compared number for number.
ghost use Rattle.std.specs.Prelude.{◌≡◌};
ghost use Rattle.steps_taken.specs.Changes.{changes, differ};

use memory::{Memory, TOTAL};

fn differ(a: u32, b: u32) -> usize
    ensures { result ≡ differ a b }
{
    if a == b { 0 } else { 1 }
}

// In how many places they differ: 0 says that they are the same.
pub fn changed(before: &Memory, after: &Memory) -> usize
    ensures { result ≡ changes before.now after.now }
{
    let mut count = 0;
    for i in 0..TOTAL {
        count += differ(before[i], after[i]);
    }
    count
}
