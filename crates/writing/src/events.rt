// Questions to the DNS server, and events: 01 "An event is receiver, sender, message; the browser has address 1, its DNS server 2".
#![tactic(auto, using(csexp::proofs::write::Steps::writers))]

ghost use Rattle.csexp.specs.Puts.{Puts, Writes};
ghost use Rattle.shapes.specs.Events.{question_term, request_term, sealed_term, event_term, event_of, event_text};

use super::requests::{write_request, write_sealed};
use csexp::write::{close_list, labelled, number, open_list, open_word};
use types::{Address, DnsNumber, Host, KeyNumber, Message, Request};

// (10:DNSResolve host (3:dns number))
pub fn write_question(out: &mut [u8], at: usize, host: Host, dns: DnsNumber) -> usize
    ensures { Writes (question_term host dns) out.old at out.new result }
{
    let a = open_word(out, at, b"DNSResolve");
    let b = number(out, a, host.0 as u32);
    let c = labelled(out, b, b"dns", dns.0);
    close_list(out, c)
}

// A question, to the DNS server.
pub fn send_question(out: &mut [u8], at: usize, host: Host, dns: DnsNumber) -> usize
    ensures { Writes (event_term 2 (question_term host dns)) out.old at out.new result }
{
    let a = open_list(out, at);
    let b = number(out, a, 2);
    let c = number(out, b, 1);
    let d = write_question(out, c, host, dns);
    close_list(out, d)
}

// A request, to an address.
pub fn send_open(out: &mut [u8], at: usize, address: Address, request: Request) -> usize
    ensures { Writes (event_term address.0 (request_term request)) out.old at out.new result }
{
    let a = open_list(out, at);
    let b = number(out, a, address.0 as u32);
    let c = number(out, b, 1);
    let d = write_request(out, c, request);
    close_list(out, d)
}

// A request under a key, to an address.
pub fn send_sealed(
    out: &mut [u8],
    at: usize,
    address: Address,
    key: KeyNumber,
    request: Request,
) -> usize
    ensures { Writes (event_term address.0 (sealed_term key request)) out.old at out.new result }
{
    let a = open_list(out, at);
    let b = number(out, a, address.0 as u32);
    let c = number(out, b, 1);
    let d = write_sealed(out, c, key, request);
    close_list(out, d)
}

// The event that carries a message.
#[tactic(auto, using(csexp::proofs::write::Steps::writers), unfolding(shapes::specs::Events::event_of))]
pub fn write_message(out: &mut [u8], at: usize, message: Message) -> usize
    ensures { Writes (event_of message) out.old at out.new result }
{
    match message {
        Message::Resolve(host, dns) => send_question(out, at, host, dns),
        Message::Open(address, request) => send_open(out, at, address, request),
        Message::Sealed(address, key, request) => send_sealed(out, at, address, key, request),
    }
}

// What goes out; nothing for a step without a message.
pub fn write_sent(out: &mut [u8], at: usize, message: Option<Message>) -> usize
    ensures { Puts (event_text message) out.old at out.new result }
{
    match message {
        None => at,
        Some(message) => write_message(out, at, message),
    }
}
