// 000 Algorithm 8, PROCESSRESPONSE: the course of an answer is found, its headers are acted upon, and it takes that course.
ghost use Rattle.std.specs.Prelude.{◌≡◌};
ghost use Rattle.types.specs.Lists.{cookies_in};
ghost use Rattle.wim.specs.Response.{process_response};
ghost use Rattle.stepping.specs.Performs.{Performs};
ghost use Rattle.responses.specs.Taken.{wants_by, Takes};

use crate::courses::{Course, course_of};
use crate::headers::act_on_headers;
use crate::loading::{enter, new_document};
use crate::redirecting::{redirection, with_fragment_of};
use inputs::Inputs;
use memory::Memory;
use rows::Table;
use stepping::{Performed, conclude};
use types::answers::Answer;
use types::cookies::SetCookies;
use types::refusals::Refusal;
use types::rows::Waiting;
use types::{Fresh, Wants};

const NOTHING: Wants = Wants {
    window: false,
    request: false,
    dns: false,
    key: false,
    document: false,
};

// A redirect is sent, a page is a new document; else no number is brought.
fn wanted(course: Course) -> Wants
    ensures { result ≡ wants_by course }
{
    match course {
        Course::Followed(_) => Wants {
            request: true,
            dns: true,
            ..NOTHING
        },
        Course::Loaded { .. } => Wants {
            document: true,
            ..NOTHING
        },
        Course::Handed(_) | Course::NothingMore => NOTHING,
    }
}

// A8:7 to 29, 35 to 45, 48 to 50. `room` tells of what was put before.
fn takes(m: &mut Memory, room: bool, course: Course, w: Waiting, a: Answer, f: Fresh) -> Performed
    ensures { Takes course w a f room m.old m.new result }
{
    match course {
        Course::Followed(u) => {
            let to = with_fragment_of(w.url, u);
            sending::http_send(m, room, redirection(to, w, a), f)
        }
        Course::Loaded {
            window,
            spot,
            script,
            state,
        } => {
            let row = new_document(window, spot.place, f.document, w, a, script, state);
            let entered = enter(m, spot, row);
            conclude(room && entered, None)
        }
        Course::Handed(row) => {
            let filed = Inputs::put(m, row);
            conclude(room && filed, None)
        }
        Course::NothingMore => conclude(room, None),
    }
}

pub fn process_response(
    m: &mut Memory,
    w: Waiting,
    a: Answer,
    few: SetCookies,
    f: Fresh,
) -> Performed
    ensures { Performs (process_response w.reference w a (cookies_in few)) f m.old m.new result }
{
    let course = course_of(m, w.reference, a);
    if !stepping::fresh::ready(m, f, wanted(course)) {
        return Err(Refusal::NotFresh);
    }
    let room = act_on_headers(m, w, a, few);
    takes(m, room, course, w, a, f)
}
