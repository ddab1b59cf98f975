// The messages that a browser takes, but for TRIGGER.
#![tactic(auto, using(csexp::proofs::Steps::readers))]

ghost use Rattle.std.specs.Prelude.{◌≡◌};
ghost use Rattle.csexp.specs.Answers.{Reads};
ghost use Rattle.shapes.specs.Items.{reply_of, encrypted_of, resolved_of, message_of, quietly};

use crate::bodies::{read_body, read_status};
use crate::headers::read_headers;
use csexp::{At, labelled, mark, means, word};
use reading_parts::{NO_COOKIES, short_number};
use types::answers::{Answer, DnsAnswer, Reply, Status};
use types::items::{Event, Happening};
use types::{Address, DnsNumber, Host, KeyNumber, RequestNumber};

// (8:HTTPResp (7:request number) status headers body)
#[tactic(auto, using(csexp::proofs::Steps::fields))]
pub fn read_reply(s: &[u8], at: usize) -> Option<At<Reply>>
    ensures { Reads reply_of s.now at result }
{
    let a = mark(s, at, b'(')?;
    let b = word(s, a, b"HTTPResp")?;
    let number = labelled(s, b, b"request", 1, u32::MAX)?;
    let status = read_status(s, number.next)?;
    let headers = read_headers(s, status.next)?;
    let body = read_body(s, headers.next)?;
    let next = mark(s, body.next, b')')?;
    Some(At {
        value: Reply {
            answer: Answer {
                number: RequestNumber(number.value),
                status: Status(status.value),
                location: headers.value.location,
                strict: headers.value.strict,
                policy: headers.value.policy,
                body: body.value,
            },
            cookies: headers.value.cookies,
        },
        next,
    })
}

// (5:enc_s answer (3:key number))
#[tactic(auto, using(csexp::proofs::Steps::fields))]
fn read_encrypted(s: &[u8], at: usize) -> Option<At<Happening>>
    ensures { Reads encrypted_of s.now at result }
{
    let a = mark(s, at, b'(')?;
    let b = word(s, a, b"enc_s")?;
    let reply = read_reply(s, b)?;
    let key = labelled(s, reply.next, b"key", 1, u32::MAX)?;
    let next = mark(s, key.next, b')')?;
    Some(At {
        value: Happening {
            event: Event::EncryptedAnswer(KeyNumber(key.value), reply.value.answer),
            cookies: reply.value.cookies,
        },
        next,
    })
}

// (11:DNSResolved host address (3:dns number))
#[tactic(auto, using(csexp::proofs::Steps::fields))]
fn read_resolved(s: &[u8], at: usize) -> Option<At<Happening>>
    ensures { Reads resolved_of s.now at result }
{
    let a = mark(s, at, b'(')?;
    let b = word(s, a, b"DNSResolved")?;
    let host = short_number(s, b, 1, u16::MAX)?;
    let address = short_number(s, host.next, 1, u16::MAX)?;
    let number = labelled(s, address.next, b"dns", 1, u32::MAX)?;
    let next = mark(s, number.next, b')')?;
    Some(At {
        value: quietly(Event::DnsResolved(DnsAnswer {
            host: Host(host.value),
            address: Address(address.value),
            number: DnsNumber(number.value),
        })),
        next,
    })
}

// An event that brings no cookies.
pub fn quietly(event: Event) -> Happening
    ensures { result ≡ quietly event }
{
    Happening {
        event,
        cookies: NO_COOKIES,
    }
}

// an answer, plain or encrypted, a DNS answer, or 12:CLOSECORRUPT
pub fn read_message(s: &[u8], at: usize) -> Option<At<Happening>>
    ensures { Reads message_of s.now at result }
{
    if let Some(reply) = read_reply(s, at) {
        return Some(At {
            value: Happening {
                event: Event::PlainAnswer(reply.value.answer),
                cookies: reply.value.cookies,
            },
            next: reply.next,
        });
    }
    read_encrypted(s, at)
        .or_else(|| read_resolved(s, at))
        .or_else(|| means(s, at, b"CLOSECORRUPT", quietly(Event::CloseCorrupt)))
}
