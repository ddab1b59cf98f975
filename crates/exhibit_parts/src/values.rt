// Values that stand in what is shown. An absent one is ().
#![tactic(auto, using(csexp::proofs::write::Steps::writers))]

ghost use Rattle.csexp.specs.Puts.{Writes};
ghost use Rattle.wim.specs.Nouns.{Page, Answered, Posted};
ghost use Rattle.wim.specs.Shown.{opener_term, referrer_term, matching_term, body_term, news_term};

use csexp::write::{close_list, empty_list, labelled, number, open_list, open_word};
use types::answers::Body;
use types::commands::{Script, ScriptState};
use types::rows::{News, Opener};
use types::{Matching, Origin, Referrer, WindowNumber};
use writing::addresses::{write_origin, write_url};

// () or (6:window number)
pub fn write_opener(out: &mut [u8], at: usize, opener: Opener) -> usize
    ensures { Writes (opener_term opener) out.old at out.new result }
{
    match opener {
        None => empty_list(out, at),
        Some(w) => labelled(out, at, b"window", w.0),
    }
}

// () or an address
pub fn write_referrer(out: &mut [u8], at: usize, referrer: Referrer) -> usize
    ensures { Writes (referrer_term referrer) out.old at out.new result }
{
    match referrer {
        None => empty_list(out, at),
        Some(url) => write_url(out, at, url),
    }
}

// () or a number, which may be 0
fn write_matching(out: &mut [u8], at: usize, matching: Matching) -> usize
    ensures { Writes (matching_term matching) out.old at out.new result }
{
    match matching {
        None => empty_list(out, at),
        Some(n) => number(out, at, n),
    }
}

// (script scriptstate)
fn write_page(out: &mut [u8], at: usize, script: Script, state: ScriptState) -> usize
    ensures { Writes (body_term (Page script state)) out.old at out.new result }
{
    let a = open_list(out, at);
    let b = number(out, a, script.0);
    let c = number(out, b, state.0);
    close_list(out, c)
}

// A number, or a page
fn write_body(out: &mut [u8], at: usize, body: Body) -> usize
    ensures { Writes (body_term body) out.old at out.new result }
{
    match body {
        Body::Number(n) => number(out, at, n),
        Body::Page(script, state) => write_page(out, at, script, state),
    }
}

// 000 A8:49: (14:XMLHTTPREQUEST body matching)
fn write_answered(out: &mut [u8], at: usize, matching: Matching, body: Body) -> usize
    ensures { Writes (news_term (Answered matching body)) out.old at out.new result }
{
    let a = open_word(out, at, b"XMLHTTPREQUEST");
    let b = write_body(out, a, body);
    let c = write_matching(out, b, matching);
    close_list(out, c)
}

// 000 A7:86: (11:POSTMESSAGE window origin message)
fn write_posted(
    out: &mut [u8],
    at: usize,
    sender: WindowNumber,
    origin: Origin,
    message: u32,
) -> usize
    ensures { Writes (news_term (Posted sender origin message)) out.old at out.new result }
{
    let a = open_word(out, at, b"POSTMESSAGE");
    let b = labelled(out, a, b"window", sender.0);
    let c = write_origin(out, b, origin);
    let d = number(out, c, message);
    close_list(out, d)
}

// What a script input is.
pub fn write_news(out: &mut [u8], at: usize, news: News) -> usize
    ensures { Writes (news_term news) out.old at out.new result }
{
    match news {
        News::Answered(matching, body) => write_answered(out, at, matching, body),
        News::Posted(sender, origin, message) => write_posted(out, at, sender, origin, message),
    }
}
