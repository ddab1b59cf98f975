// Where a command aims: "`_BLANK` only in HREF and FORM" (01 "What a step does"), `_SELF` and `SELF` only in IFRAME.
#![tactic(auto, using(csexp::proofs::Steps::readers))]

ghost use Rattle.csexp.specs.Answers.{Reads};
ghost use Rattle.shapes.specs.Items.{target_of, holder_of, matching_of, addressee_of};

use crate::{read_origin, read_window};
use csexp::{At, empty_list, means, number};
use types::Matching;
use types::commands::{Addressee, Holder, Target};

// 6:_BLANK, or a labelled window
pub fn read_target(s: &[u8], at: usize) -> Option<At<Target>>
    ensures { Reads target_of s.now at result }
{
    if let Some(blank) = means(s, at, b"_BLANK", Target::NewWindow) {
        return Some(blank);
    }
    Some(read_window(s, at)?.map(Target::Existing))
}

// 5:_SELF, or 4:SELF as A7:28 prints it, or a labelled window
pub fn read_holder(s: &[u8], at: usize) -> Option<At<Holder>>
    ensures { Reads holder_of s.now at result }
{
    means(s, at, b"_SELF", Holder::Itself)
        .or_else(|| means(s, at, b"SELF", Holder::Itself))
        .or_else(|| Some(read_window(s, at)?.map(Holder::Within)))
}

// () or a number, which may be 0: of another kind than a fragment, which is from 1 on
pub fn read_matching(s: &[u8], at: usize) -> Option<At<Matching>>
    ensures { Reads matching_of s.now at result }
{
    if let Some(next) = empty_list(s, at) {
        return Some(At { value: None, next });
    }
    Some(number(s, at, 0, u32::MAX)?.map(Some))
}

// () or (host protocol)
pub fn read_addressee(s: &[u8], at: usize) -> Option<At<Addressee>>
    ensures { Reads addressee_of s.now at result }
{
    if let Some(next) = empty_list(s, at) {
        return Some(At { value: None, next });
    }
    Some(read_origin(s, at)?.map(Some))
}
