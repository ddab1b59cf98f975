// 000 Algorithm 9, lines 64 to 74: a DNS answer. The request that waited for its host's address goes out, and waits for its answer.
ghost use Rattle.std.specs.Prelude.{◌≡◌, [], ◌∷◌};
ghost use Rattle.types.specs.declared.Protocol.TheVariants.{Plain, Secure};
ghost use Rattle.tables.specs.Tables.{pending_dns, pending_requests};
ghost use Rattle.wim.specs.Program.{ask, question};
ghost use Rattle.wim.specs.Main.{waiting_of, go_out, resolved};
ghost use Rattle.pending_dns.specs.Tidied.{tidied};
ghost use Rattle.stepping.specs.Holds.{Carries};
ghost use Rattle.stepping.specs.Performs.{Performs};
ghost use Rattle.resolving.specs.Waits.{handed_over, OfTidy};

use memory::Memory;
use pending_dns::PendingDns;
use pending_requests::PendingRequests;
use rows::Table;
use stepping::Performed;
use types::answers::DnsAnswer;
use types::refusals::{Missing, Refusal};
use types::rows::{Question, Waiting};
use types::{Address, Fresh, Message, Protocol, Seal, Wants};

fn waiting_of(q: Question, seal: Seal, address: Address) -> Waiting
    ensures { result ≡ waiting_of q seal address }
{
    Waiting {
        reference: q.reference,
        request: q.request,
        url: q.url,
        seal,
        address,
    }
}

// 69 or 72, then 73; whether there was room for the request.
fn hand_over(m: &mut Memory, q: Question, seal: Seal, address: Address) -> bool
    ensures { Carries (handed_over (tidied q) seal address) (pending_requests ∷ []) (pending_dns ∷ []) m.old m.new result }
{
    let room = PendingRequests::put(m, waiting_of(q, seal, address));
    PendingDns::remove(m, q.number);
    room
}

// 72 to 74: over P the request is sent as it stands.
fn go_plain(m: &mut Memory, q: Question, address: Address, f: Fresh) -> Performed
    ensures { OfTidy q (go_out Plain q address) f m.old m.new result }
{
    if !stepping::brings_none(f) {
        return Err(Refusal::NotFresh);
    }
    let room = hand_over(m, q, None, address);
    stepping::conclude(room, Some(Message::Open(address, q.request)))
}

// 69, 70, 73 and 74: over S it is sealed with a new key.
fn go_sealed(m: &mut Memory, q: Question, address: Address, f: Fresh) -> Performed
    ensures { OfTidy q (go_out Secure q address) f m.old m.new result }
{
    let wants = Wants {
        window: false,
        request: false,
        dns: false,
        key: true,
        document: false,
    };
    if !stepping::fresh::ready(m, f, wants) {
        return Err(Refusal::NotFresh);
    }
    let room = hand_over(m, q, Some(f.key), address);
    stepping::conclude(room, Some(Message::Sealed(address, f.key, q.request)))
}

// 68, 71
fn go_out(m: &mut Memory, q: Question, p: Protocol, address: Address, f: Fresh) -> Performed
    ensures { OfTidy q (go_out p q address) f m.old m.new result }
{
    match p {
        Protocol::Plain => go_plain(m, q, address, f),
        Protocol::Secure => go_sealed(m, q, address, f),
    }
}

// 65: the question with its number waits, and the answer is for the host that was asked for. What a memory holds is tidy.
pub fn resolved(m: &mut Memory, a: DnsAnswer, f: Fresh) -> Performed
    ensures { Performs (ask (question a.number) (resolved a)) f m.old m.new result }
{
    let q = PendingDns::get(m, a.number).ok_or(Missing::NoQuestion)?;
    if a.host != q.request.host {
        return Err(Missing::Mismatch.into());
    }
    go_out(m, q, q.url.protocol, a.address, f)
}
