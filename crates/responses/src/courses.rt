// The course of an answer: which way it goes, and what is looked at for it, before anything is changed (000 A8:11, 24, 30 to 34, 46, 47).
#![tactic(auto, unfolding(wim::specs::Program::observed))]

ghost use Rattle.std.specs.Prelude.{◌≡◌};
ghost use Rattle.wim.specs.Program.{observed, reached, listening};
ghost use Rattle.wim.specs.Response.{is_redirect, where_to};
ghost use Rattle.browser.specs.View.{view};
ghost use Rattle.responses.specs.Course.{body_at, window_at, script_at, course_at, Decides};

use crate::loading::{Spot, look};
use memory::Memory;
use types::answers::{Answer, Body, Location, Status};
use types::commands::{Script, ScriptState};
use types::rows::{Input, News};
use types::{DocumentNumber, Matching, Reference, Url, WindowNumber};
use words::statuses::{StatusKind, status_kind};

// To the address that it names; into a window, at a spot in its history, with the new document's script and state;
// to the document whose script asked, as an input; or nowhere.
#[derive(Clone, Copy)]
pub enum Course {
    Followed(Url),
    Loaded {
        window: WindowNumber,
        spot: Spot,
        script: Script,
        state: ScriptState,
    },
    Handed(Input),
    NothingMore,
}

// A8:11, by what the status says
fn is_redirect(s: Status) -> bool
    ensures { result ≡ is_redirect s }
{
    status_kind(s.0) == Some(StatusKind::Redirects)
}

fn where_to(s: Status, l: Location) -> Option<Url>
    ensures { result ≡ where_to s l }
{
    if is_redirect(s) { l } else { None }
}

// A8:30 to 44: a window's answer without a redirect; a page goes into the history of the window, from which some go.
fn body_course(m: &Memory, v: WindowNumber, a: Answer) -> Course
    ensures { Decides a (body_at (view m.now) v a.body) result }
{
    match a.body {
        Body::Number(_) => Course::NothingMore,
        Body::Page(script, state) => Course::Loaded {
            window: v,
            spot: look(m, v),
            script,
            state,
        },
    }
}

// A8:24, 28, 29, 32: of an answer to a window.
fn window_course(m: &Memory, v: WindowNumber, a: Answer) -> Course
    ensures { Decides a (window_at (view m.now) v (observed (reached v) (view m.now)) (where_to a.status a.location) a.body) result }
{
    if walks::reached(m, v).is_none() {
        return Course::NothingMore;
    }
    match where_to(a.status, a.location) {
        None => body_course(m, v, a),
        Some(u) => Course::Followed(u),
    }
}

// A8:47 to 50: for the document whose script asked, if it is the active one of a reached window; an XHR is not redirected (A8:24).
fn script_course(m: &Memory, n: DocumentNumber, matching: Matching, a: Answer) -> Course
    ensures { Decides a (script_at (view m.now) matching (where_to a.status a.location) (observed (listening n) (view m.now))) result }
{
    if where_to(a.status, a.location).is_some() {
        return Course::NothingMore;
    }
    match walks::listening(m, n) {
        None => Course::NothingMore,
        Some(d) => {
            let news = News::Answered(matching, a.body);
            Course::Handed(storing::next_input(m, d.number, news))
        }
    }
}

// The request, which waits till now, says whom its answer is for.
pub fn course_of(m: &Memory, reference: Reference, a: Answer) -> Course
    ensures { Decides a (course_at reference a (view m.now)) result }
{
    match reference {
        Reference::Req(v) => window_course(m, v, a),
        Reference::Xhr(n, matching) => script_course(m, n, matching, a),
    }
}
