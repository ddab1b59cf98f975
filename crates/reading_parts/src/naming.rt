// The commands that name a window.
#![tactic(auto, using(csexp::proofs::Steps::fields))]

ghost use Rattle.csexp.specs.Answers.{Reads};
ghost use Rattle.shapes.specs.Items.{set_script_of, set_script_state_of, post_message_of};
ghost use Rattle.reading_parts.specs.Named.{named_of};

use crate::read_window;
use crate::targets::read_addressee;
use csexp::{At, mark, number, word};
use types::WindowNumber;
use types::commands::{Command, Script, ScriptState};

// (9:SETSCRIPT window script)
pub fn read_set_script(s: &[u8], at: usize) -> Option<At<Command>>
    ensures { Reads set_script_of s.now at result }
{
    let a = mark(s, at, b'(')?;
    let b = word(s, a, b"SETSCRIPT")?;
    let window = read_window(s, b)?;
    let script = number(s, window.next, 0, u32::MAX)?;
    let next = mark(s, script.next, b')')?;
    Some(At {
        value: Command::SetScript(window.value, Script(script.value)),
        next,
    })
}

// (14:SETSCRIPTSTATE window scriptstate)
pub fn read_set_script_state(s: &[u8], at: usize) -> Option<At<Command>>
    ensures { Reads set_script_state_of s.now at result }
{
    let a = mark(s, at, b'(')?;
    let b = word(s, a, b"SETSCRIPTSTATE")?;
    let window = read_window(s, b)?;
    let state = number(s, window.next, 0, u32::MAX)?;
    let next = mark(s, state.next, b')')?;
    Some(At {
        value: Command::SetScriptState(window.value, ScriptState(state.value)),
        next,
    })
}

// A list of a word and a window, as (4:BACK window)
pub fn read_named(s: &[u8], at: usize, name: &[u8]) -> Option<At<WindowNumber>>
    ensures { Reads (named_of name.now) s.now at result }
{
    let a = mark(s, at, b'(')?;
    let b = word(s, a, name)?;
    let window = read_window(s, b)?;
    let next = mark(s, window.next, b')')?;
    Some(At {
        value: window.value,
        next,
    })
}

// (11:POSTMESSAGE window message origin)
pub fn read_post_message(s: &[u8], at: usize) -> Option<At<Command>>
    ensures { Reads post_message_of s.now at result }
{
    let a = mark(s, at, b'(')?;
    let b = word(s, a, b"POSTMESSAGE")?;
    let window = read_window(s, b)?;
    let message = number(s, window.next, 0, u32::MAX)?;
    let addressee = read_addressee(s, message.next)?;
    let next = mark(s, addressee.next, b')')?;
    Some(At {
        value: Command::PostMessage(window.value, message.value, addressee.value),
        next,
    })
}
