// Protocols, fragments, addresses and origins (000 Definitions 12 and 13).
#![tactic(auto, using(csexp::proofs::write::Steps::writers))]

ghost use Rattle.csexp.specs.Puts.{Writes};
ghost use Rattle.shapes.specs.Events.{protocol_term, fragment_term, url_term, origin_term};

use csexp::write::{close_list, empty_list, number, open_list, open_word, optional, word};
use types::{Fragment, Origin, Protocol, Url};

// 1:P or 1:S
pub fn write_protocol(out: &mut [u8], at: usize, protocol: Protocol) -> usize
    ensures { Writes (protocol_term protocol) out.old at out.new result }
{
    match protocol {
        Protocol::Plain => word(out, at, b"P"),
        Protocol::Secure => word(out, at, b"S"),
    }
}

// () or a number
pub fn write_fragment(out: &mut [u8], at: usize, fragment: Fragment) -> usize
    ensures { Writes (fragment_term fragment) out.old at out.new result }
{
    match fragment {
        None => empty_list(out, at),
        Some(n) => number(out, at, n),
    }
}

// (3:URL protocol host path parameters fragment)
pub fn write_url(out: &mut [u8], at: usize, url: Url) -> usize
    ensures { Writes (url_term url) out.old at out.new result }
{
    let a = open_word(out, at, b"URL");
    let b = write_protocol(out, a, url.protocol);
    let c = number(out, b, url.host.0 as u32);
    let d = number(out, c, url.path.0 as u32);
    let e = optional(out, d, url.parameters.0);
    let f = write_fragment(out, e, url.fragment);
    close_list(out, f)
}

// (host protocol)
pub fn write_origin(out: &mut [u8], at: usize, origin: Origin) -> usize
    ensures { Writes (origin_term origin) out.old at out.new result }
{
    let a = open_list(out, at);
    let b = number(out, a, origin.host.0 as u32);
    let c = write_protocol(out, b, origin.protocol);
    close_list(out, c)
}
