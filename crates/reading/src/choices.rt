// The choices of a TRIGGER, "in the algorithm's order" (01 "The text"): 000 A7 and A9.
#![tactic(auto, using(csexp::proofs::Steps::readers))]

ghost use Rattle.csexp.specs.Answers.{Reads};
ghost use Rattle.shapes.specs.Items.{script_of, place_of, urlbar_of, choices_of};

use csexp::{At, mark, means, number, optional, word};
use reading_answers::quietly;
use reading_parts::{
    read_command, read_cookies, read_fragment, read_named, read_protocol, read_window, short_number,
};
use types::commands::{ScriptState, Target};
use types::items::{Event, Happening, Output, Stored};
use types::{Host, Parameters, Path, Url};

// (6:script window scriptstate cookies localStorage sessionStorage command)
#[tactic(auto, using(csexp::proofs::Steps::fields))]
fn read_script(s: &[u8], at: usize) -> Option<At<Happening>>
    ensures { Reads script_of s.now at result }
{
    let a = mark(s, at, b'(')?;
    let b = word(s, a, b"script")?;
    let window = read_window(s, b)?;
    let state = number(s, window.next, 0, u32::MAX)?;
    let cookies = read_cookies(s, state.next)?;
    let local = optional(s, cookies.next, u32::MAX)?;
    let session = optional(s, local.next, u32::MAX)?;
    let command = read_command(s, session.next)?;
    let next = mark(s, command.next, b')')?;
    let output = Output {
        state: ScriptState(state.value),
        local: Stored(local.value),
        session: Stored(session.value),
        command: command.value,
    };
    Some(At {
        value: Happening {
            event: Event::RunScript(window.value, output),
            cookies: cookies.value,
        },
        next,
    })
}

// 3:new, or a labelled window
fn read_place(s: &[u8], at: usize) -> Option<At<Target>>
    ensures { Reads place_of s.now at result }
{
    if let Some(found) = means(s, at, b"new", Target::NewWindow) {
        return Some(found);
    }
    let window = read_window(s, at)?;
    Some(window.map(Target::Existing))
}

// (6:urlbar place protocol host path fragment parameters): A9:22 to 26 choose the fragment first
#[tactic(auto, using(csexp::proofs::Steps::fields))]
fn read_urlbar(s: &[u8], at: usize) -> Option<At<Happening>>
    ensures { Reads urlbar_of s.now at result }
{
    let a = mark(s, at, b'(')?;
    let b = word(s, a, b"urlbar")?;
    let target = read_place(s, b)?;
    let protocol = read_protocol(s, target.next)?;
    let host = short_number(s, protocol.next, 1, u16::MAX)?;
    let path = short_number(s, host.next, 0, u16::MAX)?;
    let fragment = read_fragment(s, path.next)?;
    let parameters = optional(s, fragment.next, u32::MAX)?;
    let next = mark(s, parameters.next, b')')?;
    let url = Url {
        protocol: protocol.value,
        host: Host(host.value),
        path: Path(path.value),
        parameters: Parameters(parameters.value),
        fragment: fragment.value,
    };
    Some(At {
        value: quietly(Event::Urlbar(target.value, url)),
        next,
    })
}

// script, urlbar, or one of (6:reload window), (7:forward window), (4:back window)
#[tactic(auto, using(crate::proofs::Triggers::choices))]
pub fn read_choices(s: &[u8], at: usize) -> Option<At<Happening>>
    ensures { Reads choices_of s.now at result }
{
    if let Some(script) = read_script(s, at) {
        return Some(script);
    }
    if let Some(urlbar) = read_urlbar(s, at) {
        return Some(urlbar);
    }
    if let Some(window) = read_named(s, at, b"reload") {
        return Some(window.map(|w| quietly(Event::Reload(w))));
    }
    if let Some(window) = read_named(s, at, b"forward") {
        return Some(window.map(|w| quietly(Event::GoForward(w))));
    }
    let window = read_named(s, at, b"back")?;
    Some(window.map(|w| quietly(Event::GoBack(w))))
}
