// "Answer headers: Set-Cookie, Location, Strict-Transport-Security, ReferrerPolicy, each at most once" (01 "The text"), in any order.
#![tactic(auto, using(crate::proofs::Heading::heading))]

ghost use Rattle.csexp.specs.Answers.{Reads, Rest};
ghost use Rattle.shapes.specs.Items.{policy_of, one_header_of, more_headers, no_headers, headers_of};
ghost use Rattle.reading_answers.specs.Headers.{cookies_header, location_header, strict_header, policy_header};

use csexp::{At, mark, means, word};
use reading_parts::{NO_COOKIES, read_cookies, read_url};
use types::Policy;
use types::answers::Headers;

// (10:Set-Cookie cookies)
fn cookies_header(s: &[u8], at: usize, h: Headers) -> Option<At<Headers>>
    ensures { Reads (cookies_header h) s.now at result }
{
    if h.set {
        return None;
    }
    let a = mark(s, at, b'(')?;
    let b = word(s, a, b"Set-Cookie")?;
    let cookies = read_cookies(s, b)?;
    let next = mark(s, cookies.next, b')')?;
    Some(At {
        value: Headers {
            set: true,
            cookies: cookies.value,
            ..h
        },
        next,
    })
}

// (8:Location url)
fn location_header(s: &[u8], at: usize, h: Headers) -> Option<At<Headers>>
    ensures { Reads (location_header h) s.now at result }
{
    if h.location.is_some() {
        return None;
    }
    let a = mark(s, at, b'(')?;
    let b = word(s, a, b"Location")?;
    let url = read_url(s, b)?;
    let next = mark(s, url.next, b')')?;
    Some(At {
        value: Headers {
            location: Some(url.value),
            ..h
        },
        next,
    })
}

// (25:Strict-Transport-Security1:T)
fn strict_header(s: &[u8], at: usize, h: Headers) -> Option<At<Headers>>
    ensures { Reads (strict_header h) s.now at result }
{
    if h.strict {
        return None;
    }
    let a = mark(s, at, b'(')?;
    let b = word(s, a, b"Strict-Transport-Security")?;
    let t = word(s, b, b"T")?;
    let next = mark(s, t, b')')?;
    Some(At {
        value: Headers { strict: true, ..h },
        next,
    })
}

// 11:no-referrer or 6:origin
fn read_policy(s: &[u8], at: usize) -> Option<At<Policy>>
    ensures { Reads policy_of s.now at result }
{
    means(s, at, b"no-referrer", Policy::NoReferrer).or_else(|| means(
        s,
        at,
        b"origin",
        Policy::OriginOnly,
    ))
}

// (14:ReferrerPolicy policy)
fn policy_header(s: &[u8], at: usize, h: Headers) -> Option<At<Headers>>
    ensures { Reads (policy_header h) s.now at result }
{
    if !matches!(h.policy, Policy::Unset) {
        return None;
    }
    let a = mark(s, at, b'(')?;
    let b = word(s, a, b"ReferrerPolicy")?;
    let policy = read_policy(s, b)?;
    let next = mark(s, policy.next, b')')?;
    Some(At {
        value: Headers {
            policy: policy.value,
            ..h
        },
        next,
    })
}

// One header more than those of h.
fn one_header(s: &[u8], at: usize, h: Headers) -> Option<At<Headers>>
    ensures { Reads (one_header_of h) s.now at result }
{
    cookies_header(s, at, h)
        .or_else(|| location_header(s, at, h))
        .or_else(|| strict_header(s, at, h))
        .or_else(|| policy_header(s, at, h))
}

const NO_HEADERS: Headers = Headers {
    set: false,
    cookies: NO_COOKIES,
    location: None,
    strict: false,
    policy: Policy::Unset,
};

// The headers up to a ')'.
#[tactic(auto, using(crate::proofs::Heading::turns))]
fn more_headers(s: &[u8], at: usize) -> Option<At<Headers>>
    ensures { Rest (more_headers no_headers) s.now at result }
{
    let mut value = NO_HEADERS;
    let mut next = at;
    loop {
        if let Some(end) = mark(s, next, b')') {
            return Some(At { value, next: end });
        }
        let more = one_header(s, next, value)?;
        value = more.value;
        next = more.next;
    }
}

// The list of an answer's headers.
pub fn read_headers(s: &[u8], at: usize) -> Option<At<Headers>>
    ensures { Reads headers_of s.now at result }
{
    let a = mark(s, at, b'(')?;
    more_headers(s, a)
}
