// Requests and addresses to send.
use types::cookies::{CookieName, CookieValue, Jar, Pair};
use types::{
    Address, Data, DnsNumber, Host, KeyNumber, Message, Method, OriginHeader, Parameters, Path,
    Request, RequestNumber,
};

pub fn question() -> Message {
    Message::Resolve(Host(5), DnsNumber(32))
}

pub fn open() -> Message {
    Message::Open(Address(9), bare(Method::Get))
}

pub fn sealed() -> Message {
    Message::Sealed(Address(9), KeyNumber(33), bare(Method::Get))
}

pub fn pair(prefixed: bool, name: u16, value: u32) -> Pair {
    Pair {
        name: CookieName {
            prefixed,
            number: name,
        },
        value: CookieValue(value),
    }
}

// The same cookie `count` times.
pub fn cookies(p: Pair, count: usize) -> Jar {
    Jar {
        rows: [p; 64],
        count,
    }
}

// With a method alone, as in 01's example run.
fn bare(method: Method) -> Request {
    Request {
        number: RequestNumber(31),
        method,
        host: Host(5),
        path: Path(7),
        parameters: Parameters(0),
        cookies: cookies(pair(false, 0, 0), 0),
        origin: OriginHeader::Unsent,
        referrer: None,
        body: Data(0),
    }
}
