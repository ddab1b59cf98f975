// The numbers of 01 "Refusal numbers".
ghost use Rattle.std.specs.Prelude.{◌≡◌};
ghost use Rattle.wim.specs.Step.{refusal_number, verdict_number};
ghost use Rattle.rehearsal.specs.Rehearses.{verdict_of};

use crate::telling::Rehearsed;
use types::refusals::Refusal;

// No `From<Refusal>`: it would stand in `types`, below the definition of the numbers (wim/specs/Step).
fn refusal_number(why: Refusal) -> u32
    ensures { result ≡ refusal_number why }
{
    match why {
        Refusal::BadText => 1,
        Refusal::BadShape => 2,
        Refusal::Lacking(_) => 3,
        Refusal::Stopped => 4,
        Refusal::NotFresh => 5,
        Refusal::Full => 6,
        Refusal::NoRoom => 7,
        Refusal::Closed => 8,
    }
}

// A refusal's number, and 0 for an accepted step.
pub fn number(told: Rehearsed) -> u32
    ensures { result ≡ verdict_number (verdict_of told) }
{
    match told {
        Ok(_) => 0,
        Err(why) => refusal_number(why),
    }
}
