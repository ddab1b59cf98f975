// One of the ten commands, or nothing: each is tried at the same position.
#![tactic(auto, using(crate::proofs::Making::choices))]

ghost use Rattle.csexp.specs.Answers.{Reads};
ghost use Rattle.shapes.specs.Items.{command_of};
ghost use Rattle.reading_parts.specs.Kinds.{loading_of, changing_of, moving_of};

use crate::loading::{read_form, read_href, read_iframe, read_xhr};
use crate::naming::{read_named, read_post_message, read_set_script, read_set_script_state};
use csexp::{At, empty_list};
use types::commands::Command;

// BACK, FORWARD, CLOSE or POSTMESSAGE
fn read_moving(s: &[u8], at: usize) -> Option<At<Command>>
    ensures { Reads moving_of s.now at result }
{
    if let Some(window) = read_named(s, at, b"BACK") {
        return Some(window.map(Command::Back));
    }
    if let Some(window) = read_named(s, at, b"FORWARD") {
        return Some(window.map(Command::Forward));
    }
    if let Some(window) = read_named(s, at, b"CLOSE") {
        return Some(window.map(Command::Close));
    }
    read_post_message(s, at)
}

// SETSCRIPT, SETSCRIPTSTATE, XMLHTTPREQUEST or one of those
fn read_changing(s: &[u8], at: usize) -> Option<At<Command>>
    ensures { Reads changing_of s.now at result }
{
    read_set_script(s, at)
        .or_else(|| read_set_script_state(s, at))
        .or_else(|| read_xhr(s, at))
        .or_else(|| read_moving(s, at))
}

// HREF, IFRAME, FORM or one of those
fn read_loading(s: &[u8], at: usize) -> Option<At<Command>>
    ensures { Reads loading_of s.now at result }
{
    read_href(s, at)
        .or_else(|| read_iframe(s, at))
        .or_else(|| read_form(s, at))
        .or_else(|| read_changing(s, at))
}

// one of the ten, or nothing: ()
#[tactic(auto, using(csexp::proofs::Steps::readers))]
pub fn read_command(s: &[u8], at: usize) -> Option<At<Command>>
    ensures { Reads command_of s.now at result }
{
    if let Some(next) = empty_list(s, at) {
        return Some(At {
            value: Command::Nothing,
            next,
        });
    }
    read_loading(s, at)
}
