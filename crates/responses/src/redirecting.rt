// 000 A8:7 to 26: what is sent on to where the answer to a window's request points.
ghost use Rattle.std.specs.Prelude.{◌≡◌};
ghost use Rattle.wim.specs.Response.{with_fragment_of, asked_origin, origin_after, turns_to_get, redirection};

use sending::request_tests::{is_get_or_head, url_origin};
use types::answers::{Answer, Status};
use types::rows::Waiting;
use types::{Data, Method, Origin, OriginHeader, Sending, Url};

// A8:13, 14
pub fn with_fragment_of(old: Url, u: Url) -> Url
    ensures { result ≡ with_fragment_of old u }
{
    Url {
        fragment: u.fragment.or(old.fragment),
        ..u
    }
}

fn asked_origin(w: Waiting) -> Origin
    ensures { result ≡ asked_origin w }
{
    Origin {
        host: w.request.host,
        protocol: w.url.protocol,
    }
}

// A8:17 to 20
fn origin_after(u: Url, w: Waiting, o: OriginHeader) -> OriginHeader
    ensures { result ≡ origin_after u w o }
{
    let asked = asked_origin(w);
    match o {
        OriginHeader::From(x) if url_origin(u) == asked || asked == x => o,
        _ => OriginHeader::Null,
    }
}

// A8:21 to 23
fn turns_to_get(s: Status, m: Method) -> bool
    ensures { result ≡ turns_to_get s m }
{
    s.0 == 303 && !is_get_or_head(m)
}

// A8:7 to 10, 15 to 26
pub fn redirection(u: Url, w: Waiting, a: Answer) -> Sending
    ensures { result ≡ redirection u w a }
{
    let q = w.request;
    let turns = turns_to_get(a.status, q.method);
    Sending {
        reference: w.reference,
        method: if turns { Method::Get } else { q.method },
        url: u,
        parameters: u.parameters,
        body: if turns { Data(0) } else { q.body },
        origin: origin_after(u, w, q.origin),
        referrer: q.referrer,
        policy: a.policy,
    }
}
