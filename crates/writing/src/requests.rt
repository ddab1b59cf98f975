// Requests: 000 Definition 15 (12), and under a key.
#![tactic(auto, using(csexp::proofs::write::Steps::writers))]

ghost use Rattle.csexp.specs.Puts.{Writes};
ghost use Rattle.shapes.specs.Events.{method_term, request_term, sealed_term};

use crate::headers::write_headers;
use csexp::write::{close_list, labelled, number, open_list, open_word, optional, word};
use types::{KeyNumber, Method, Request};
use words::spelling_of;

// 3:GET and so on, by the table that the reader goes by.
pub fn write_method(out: &mut [u8], at: usize, method: Method) -> usize
    ensures { Writes (method_term method) out.old at out.new result }
{
    word(out, at, spelling_of(method))
}

// (7:HTTPReq (7:request number) method host path parameters headers body)
pub fn write_request(out: &mut [u8], at: usize, request: Request) -> usize
    ensures { Writes (request_term request) out.old at out.new result }
{
    let a = open_word(out, at, b"HTTPReq");
    let b = labelled(out, a, b"request", request.number.0);
    let c = write_method(out, b, request.method);
    let d = number(out, c, request.host.0 as u32);
    let e = number(out, d, request.path.0 as u32);
    let f = optional(out, e, request.parameters.0);
    let g = write_headers(out, f, request);
    let h = optional(out, g, request.body.0);
    close_list(out, h)
}

// (5:enc_a (request (3:key number)) (3:pub host))
pub fn write_sealed(out: &mut [u8], at: usize, key: KeyNumber, request: Request) -> usize
    ensures { Writes (sealed_term key request) out.old at out.new result }
{
    let a = open_word(out, at, b"enc_a");
    let b = open_list(out, a);
    let c = write_request(out, b, request);
    let d = labelled(out, c, b"key", key.0);
    let e = close_list(out, d);
    let f = labelled(out, e, b"pub", request.host.0 as u32);
    close_list(out, f)
}
