// 000 Algorithm 4, HTTP_SEND: an STS host turns the address to S first; then cookies are chosen; then headers; then the DNS question goes out.
// And Algorithm 3, CANCELNAV.
#![tactic(auto)]

pub mod request_tests; // tests of methods and addresses

ghost use Rattle.std.specs.Prelude.{◌≡◌, true, cond, [], ◌∷◌};
ghost use Rattle.tables.specs.Tables.{pending_dns, pending_requests};
ghost use Rattle.wim.specs.Sending.{secured, unfragmented, stripped_to_origin, referer, request_of, question_of};
ghost use Rattle.stepping.specs.Holds.{Carries};
ghost use Rattle.sending.specs.Sends.{sent, Sends};
ghost use Rattle.sending.specs.Cancels.{cancelled};

use memory::Memory;
use pending_dns::PendingDns;
use pending_requests::PendingRequests;
use rows::Table;
use stepping::Performed;
use types::cookies::Jar;
use types::rows::Question;
use types::{
    Cancelled, DnsNumber, Fresh, Message, Parameters, Path, Policy, Protocol, Referrer, Request,
    RequestNumber, Sending, Url,
};

// A4:2, 3
fn secured_if(sts: bool, u: Url) -> Url
    ensures { result ≡ cond sts (secured u) u }
{
    if sts {
        Url {
            protocol: Protocol::Secure,
            ..u
        }
    } else {
        u
    }
}

fn unfragmented(u: Url) -> Url
    ensures { result ≡ unfragmented u }
{
    Url {
        fragment: None,
        ..u
    }
}

fn stripped(u: Url) -> Url
    ensures { result ≡ stripped_to_origin u }
{
    Url {
        path: Path(0),
        parameters: Parameters(0),
        fragment: None,
        ..u
    }
}

// A4:8 to 14
fn referer(p: Policy, r: Referrer) -> Referrer
    ensures { result ≡ referer p r }
{
    match p {
        Policy::Unset => r.map(|u| unfragmented(u)),
        Policy::NoReferrer => None,
        Policy::OriginOnly => r.map(|u| stripped(u)),
    }
}

// The message with its headers: A4:5, 7, 14
fn request_of(o: Sending, jar: Jar, q: RequestNumber) -> Request
    ensures { result ≡ request_of o jar q.0 }
{
    Request {
        number: q,
        method: o.method,
        host: o.url.host,
        path: o.url.path,
        parameters: o.parameters,
        cookies: jar,
        origin: o.origin,
        referrer: referer(o.policy, o.referrer),
        body: o.body,
    }
}

fn question_of(o: Sending, u: Url, jar: Jar, q: RequestNumber, n: DnsNumber) -> Question
    ensures { result ≡ question_of o u jar q.0 n.0 }
{
    Question {
        number: n,
        reference: o.reference,
        request: request_of(o, jar, q),
        url: u,
    }
}

// A4:2 to 15. Whether there was room for the question; where there was none, nothing changes.
pub fn send(m: &mut Memory, o: Sending, q: RequestNumber, n: DnsNumber) -> bool
    ensures { Carries (sent o q.0 n.0) (pending_dns ∷ []) [] m.old m.new result }
{
    let strict = sts::strict(m, o.url.host);
    let url = secured_if(strict, o.url);
    let jar = cookies::sent_to(m, o.url.host, url.protocol);
    PendingDns::put(m, question_of(o, url, jar, q, n))
}

// HTTP_SEND ends a step; `room` says whether there was room for what the step put before.
pub fn http_send(m: &mut Memory, room: bool, o: Sending, f: Fresh) -> Performed
    ensures { Sends room o f m.old m.new result }
{
    let put = send(m, o, f.request, f.dns);
    stepping::conclude(room && put, Some(Message::Resolve(o.url.host, f.dns)))
}

// CANCELNAV: a window's number without its label equals no reference.
pub fn cancel(m: &mut Memory, what: Cancelled)
    ensures { Carries (cancelled what) [] (pending_requests ∷ pending_dns ∷ []) m.old m.new true }
{
    if let Cancelled::Labelled(s) = what {
        PendingRequests::keep(m, |h| !labels::same_reference(s, h.reference));
        PendingDns::keep(m, |h| !labels::same_reference(s, h.reference));
    }
}
