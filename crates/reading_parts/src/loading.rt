// The commands that load an address; it "carries its protocol and an optional fragment" (01 "What a step does").
#![tactic(auto, using(csexp::proofs::Steps::fields))]

ghost use Rattle.csexp.specs.Answers.{Reads};
ghost use Rattle.shapes.specs.Items.{href_of, iframe_of, form_of, xhr_of};

use crate::targets::{read_holder, read_matching, read_target};
use crate::{read_flag, read_url};
use csexp::{At, mark, optional, word};
use types::Data;
use types::commands::Command;
use words::read_method;

// (4:HREF url window noreferrer)
pub fn read_href(s: &[u8], at: usize) -> Option<At<Command>>
    ensures { Reads href_of s.now at result }
{
    let a = mark(s, at, b'(')?;
    let b = word(s, a, b"HREF")?;
    let url = read_url(s, b)?;
    let target = read_target(s, url.next)?;
    let noreferrer = read_flag(s, target.next)?;
    let next = mark(s, noreferrer.next, b')')?;
    Some(At {
        value: Command::Href(url.value, target.value, noreferrer.value),
        next,
    })
}

// (6:IFRAME url window)
pub fn read_iframe(s: &[u8], at: usize) -> Option<At<Command>>
    ensures { Reads iframe_of s.now at result }
{
    let a = mark(s, at, b'(')?;
    let b = word(s, a, b"IFRAME")?;
    let url = read_url(s, b)?;
    let holder = read_holder(s, url.next)?;
    let next = mark(s, holder.next, b')')?;
    Some(At {
        value: Command::Iframe(url.value, holder.value),
        next,
    })
}

// (4:FORM url method data window)
pub fn read_form(s: &[u8], at: usize) -> Option<At<Command>>
    ensures { Reads form_of s.now at result }
{
    let a = mark(s, at, b'(')?;
    let b = word(s, a, b"FORM")?;
    let url = read_url(s, b)?;
    let method = read_method(s, url.next)?;
    let data = optional(s, method.next, u32::MAX)?;
    let target = read_target(s, data.next)?;
    let next = mark(s, target.next, b')')?;
    Some(At {
        value: Command::Form(url.value, method.value, Data(data.value), target.value),
        next,
    })
}

// (14:XMLHTTPREQUEST url method data xhrreference)
pub fn read_xhr(s: &[u8], at: usize) -> Option<At<Command>>
    ensures { Reads xhr_of s.now at result }
{
    let a = mark(s, at, b'(')?;
    let b = word(s, a, b"XMLHTTPREQUEST")?;
    let url = read_url(s, b)?;
    let method = read_method(s, url.next)?;
    let data = optional(s, method.next, u32::MAX)?;
    let matching = read_matching(s, data.next)?;
    let next = mark(s, matching.next, b')')?;
    Some(At {
        value: Command::XmlHttpRequest(url.value, method.value, Data(data.value), matching.value),
        next,
    })
}
