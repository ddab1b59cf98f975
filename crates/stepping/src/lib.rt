// How a step ends, and what it hands back: nothing of the memory, which it has changed in place. Beside it refusal 5.
#![tactic(auto)]

pub mod fresh; // refusal 5: just the fresh numbers that a step wants, and none of them stands anywhere

ghost use Rattle.std.specs.Prelude.{◌≡◌};
ghost use Rattle.stepping.specs.Gives.{concluded};
ghost use Rattle.stepping.specs.Wanted.{Unwanted};

use types::refusals::Refusal;
use types::{Fresh, Message};

// What goes out, or why the step is refused.
pub type Performed = Result<Option<Message>, Refusal>;

// The end of a step that sends this, where there was room for every row that was put.
pub fn conclude(room: bool, message: Option<Message>) -> Performed
    ensures { result ≡ concluded room message }
{
    if room {
        Ok(message)
    } else {
        Err(Refusal::Full)
    }
}

// Refusal 5 of a step that brings no number: no table need be looked at.
pub fn brings_none(f: Fresh) -> bool
    ensures { Unwanted f result }
{
    f.window.0 == 0 && f.request.0 == 0 && f.dns.0 == 0 && f.key.0 == 0 && f.document.0 == 0
}
