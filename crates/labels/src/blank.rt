// What fills a place of which nothing is said.
ghost use Rattle.std.specs.Prelude.{◌≡◌, []};
ghost use Rattle.tables.specs.Rows.{jar, blank_url, blank_request};

use types::cookies::{CookieName, CookieValue, Jar, Pair};
use types::{
    Data, Host, Method, OriginHeader, Parameters, Path, Protocol, Request, RequestNumber, Url,
};

// No cookies: also what the collecting of cookies begins with.
pub fn empty_jar() -> Jar
    ensures { result ≡ jar [] }
{
    let none = Pair {
        name: CookieName {
            prefixed: false,
            number: 0,
        },
        value: CookieValue(0),
    };
    Jar {
        rows: [none; 64],
        count: 0,
    }
}

pub fn no_url() -> Url
    ensures { result ≡ blank_url }
{
    Url {
        protocol: Protocol::Plain,
        host: Host(0),
        path: Path(0),
        parameters: Parameters(0),
        fragment: None,
    }
}

pub fn no_request() -> Request
    ensures { result ≡ blank_request }
{
    let cookies = empty_jar();
    Request {
        number: RequestNumber(0),
        method: Method::Get,
        host: Host(0),
        path: Path(0),
        parameters: Parameters(0),
        cookies: cookies,
        origin: OriginHeader::Unsent,
        referrer: None,
        body: Data(0),
    }
}
