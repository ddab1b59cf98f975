// Each kind of message, and the largest.
use crate::{given, say};
use std::io;
use types::{
    Address, Data, Host, KeyNumber, Message, Method, Origin, OriginHeader, Parameters, Path,
    Protocol, Request, RequestNumber, Url,
};

// The two lines of 01's example run.
pub fn example(rt: &impl Print) -> io::Result<()> {
    say::event(rt, b"question", Some(given::question()))?;
    say::event(rt, b"request", Some(given::open()))
}

pub fn sealed(rt: &impl Print) -> io::Result<()> {
    say::event(rt, b"under a key", Some(given::sealed()))?;
    say::event(rt, b"nothing", None)
}

// The largest event: 64 cookies, each name prefixed, each number as wide as it can be.
fn largest(count: usize) -> Message {
    let jar = given::cookies(given::pair(true, 65535, 4294967295), count);
    let request = Request {
        number: RequestNumber(4294967295),
        method: Method::Options,
        host: Host(65535),
        path: Path(65535),
        parameters: Parameters(4294967295),
        cookies: jar,
        origin: OriginHeader::From(Origin {
            host: Host(65535),
            protocol: Protocol::Plain,
        }),
        referrer: Some(Url {
            protocol: Protocol::Secure,
            host: Host(65535),
            path: Path(65535),
            parameters: Parameters(4294967295),
            fragment: Some(4294967295),
        }),
        body: Data(4294967295),
    };
    Message::Sealed(Address(65535), KeyNumber(4294967295), request)
}

pub fn full(rt: &impl Print) -> io::Result<()> {
    say::event(rt, b"largest event", Some(largest(64)))?;
    say::length(rt, b"length of the largest event", Some(largest(64)))?;
    say::length(rt, b"a count beyond 64 is read as 64", Some(largest(65)))?;
    say::length(rt, b"63 cookies", Some(largest(63)))
}
