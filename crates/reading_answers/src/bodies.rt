// The status and the body of an answer.
#![tactic(auto, using(csexp::proofs::Steps::readers))]

ghost use Rattle.csexp.specs.Answers.{Reads};
ghost use Rattle.csexp.specs.Decode.{numeral};
ghost use Rattle.shapes.specs.Items.{page_of, body_of};

use csexp::{At, mark, number};
use reading_parts::short_number;
use types::answers::Body;
use types::commands::{Script, ScriptState};
use words::statuses::status_kind;

// A number that is a status.
#[tactic(auto, using(crate::proofs::Statuses::statuses))]
pub fn read_status(s: &[u8], at: usize) -> Option<At<u16>>
    ensures { Reads (numeral 100 505) s.now at result }
{
    let n = short_number(s, at, 0, u16::MAX)?;
    status_kind(n.value)?;
    Some(n)
}

// (script scriptstate)
fn read_page(s: &[u8], at: usize) -> Option<At<Body>>
    ensures { Reads page_of s.now at result }
{
    let a = mark(s, at, b'(')?;
    let script = number(s, a, 0, u32::MAX)?;
    let state = number(s, script.next, 0, u32::MAX)?;
    let next = mark(s, state.next, b')')?;
    Some(At {
        value: Body::Page(Script(script.value), ScriptState(state.value)),
        next,
    })
}

// a number, or a page
pub fn read_body(s: &[u8], at: usize) -> Option<At<Body>>
    ensures { Reads body_of s.now at result }
{
    if let Some(n) = number(s, at, 0, u32::MAX) {
        return Some(n.map(Body::Number));
    }
    read_page(s, at)
}
