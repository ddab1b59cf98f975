// The headers of a request: 01 "Request headers stand as Cookie, Origin, Referer".
#![tactic(auto, using(csexp::proofs::write::Steps::writers))]

ghost use Rattle.shapes.specs.Nouns.{Null, From, Known};
ghost use Rattle.csexp.specs.Puts.{Writes, Items};
ghost use Rattle.shapes.specs.Events.{origin_header, referer_header, headers_term};

use super::addresses::{write_origin, write_url};
use super::cookies::write_cookies;
use csexp::write::{close_list, open_list, open_word, word};
use types::{Origin, OriginHeader, Referrer, Request, Url};

// (6:Origin 4:null): 000's ◇
pub fn write_null_origin(out: &mut [u8], at: usize) -> usize
    ensures { Items (origin_header Null) out.old at out.new result }
{
    let a = open_word(out, at, b"Origin");
    let b = word(out, a, b"null");
    close_list(out, b)
}

// (6:Origin (host protocol))
pub fn write_known_origin(out: &mut [u8], at: usize, origin: Origin) -> usize
    ensures { Items (origin_header (From origin)) out.old at out.new result }
{
    let a = open_word(out, at, b"Origin");
    let b = write_origin(out, a, origin);
    close_list(out, b)
}

// The Origin header, where it is sent.
pub fn origin_items(out: &mut [u8], at: usize, origin: OriginHeader) -> usize
    ensures { Items (origin_header origin) out.old at out.new result }
{
    match origin {
        OriginHeader::Unsent => at,
        OriginHeader::Null => write_null_origin(out, at),
        OriginHeader::From(o) => write_known_origin(out, at, o),
    }
}

// (7:Referer url)
pub fn write_referer(out: &mut [u8], at: usize, url: Url) -> usize
    ensures { Items (referer_header (Known url)) out.old at out.new result }
{
    let a = open_word(out, at, b"Referer");
    let b = write_url(out, a, url);
    close_list(out, b)
}

// The Referer header, where it is known.
pub fn referer_items(out: &mut [u8], at: usize, referrer: Referrer) -> usize
    ensures { Items (referer_header referrer) out.old at out.new result }
{
    match referrer {
        None => at,
        Some(url) => write_referer(out, at, url),
    }
}

// Cookie, and Origin and Referer where they are there.
pub fn write_headers(out: &mut [u8], at: usize, request: Request) -> usize
    ensures { Writes (headers_term request) out.old at out.new result }
{
    let a = open_list(out, at);
    let b = write_cookies(out, a, request.cookies);
    let c = origin_items(out, b, request.origin);
    let d = referer_items(out, c, request.referrer);
    close_list(out, d)
}
