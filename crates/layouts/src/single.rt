// What one number says: the k-th of a part, a truth, a short number, a kind.
ghost use Rattle.std.specs.Prelude.{◌≡◌, ℕ, ◌<◌, ◌%◌, get_or, take, drop};
ghost use Rattle.layouts.specs.Codes.{perhaps, flag_of, protocol_of, method_of, policy_of};

use types::{Method, Policy, Protocol};

// Number k of a part that starts at p, however many numbers it has; beyond the end there are zeros.
pub fn at(c: &[u32], p: usize, k: usize) -> u32
    ensures { (w : ℕ) → k < w → result ≡ get_or (take w (drop p c.now)) k 0 }
{
    if p < c.len() && k < c.len() - p {
        c[p + k]
    } else {
        0
    }
}

// Number i; beyond the end there are zeros.
pub fn number(c: &[u32], i: usize) -> u32
    ensures { result ≡ get_or c.now i 0 }
{
    if i < c.len() { c[i] } else { 0 }
}

// What may be absent: a tag, and behind it a number.
pub fn perhaps(tag: u32, n: u32) -> Option<u32>
    ensures { result ≡ perhaps tag n }
{
    if tag == 0 { None } else { Some(n) }
}

pub fn perhaps_numbers(x: Option<u32>) -> [u32; 2]
    ensures { perhaps (get_or result 0 0) (get_or result 1 0) ≡ x }
{
    match x {
        None => [0, 0],
        Some(n) => [1, n],
    }
}

pub fn flag_of(tag: u32) -> bool
    ensures { result ≡ flag_of tag }
{
    tag != 0
}

pub fn flag(b: bool) -> u32
    ensures { flag_of result ≡ b }
{
    u32::from(b)
}

pub fn half(n: u32) -> u16
    ensures { result ≡ n % 65536 }
{
    (n % 65536) as u16
}

pub fn low(n: u16) -> u32
    ensures { result % 65536 ≡ n }
{
    u32::from(n)
}

// The number of a kind is written out beside the kind of a number: `as` would hide that each undoes the other.
pub fn protocol_of(tag: u32) -> Protocol
    ensures { result ≡ protocol_of tag }
{
    match tag {
        0 => Protocol::Plain,
        _ => Protocol::Secure,
    }
}

pub fn protocol_tag(p: Protocol) -> u32
    ensures { protocol_of result ≡ p }
{
    match p {
        Protocol::Plain => 0,
        Protocol::Secure => 1,
    }
}

pub fn method_of(tag: u32) -> Method
    ensures { result ≡ method_of tag }
{
    match tag {
        0 => Method::Get,
        1 => Method::Head,
        2 => Method::Post,
        3 => Method::Put,
        4 => Method::Delete,
        5 => Method::Connect,
        6 => Method::Options,
        _ => Method::Trace,
    }
}

pub fn method_tag(x: Method) -> u32
    ensures { method_of result ≡ x }
{
    match x {
        Method::Get => 0,
        Method::Head => 1,
        Method::Post => 2,
        Method::Put => 3,
        Method::Delete => 4,
        Method::Connect => 5,
        Method::Options => 6,
        Method::Trace => 7,
    }
}

pub fn policy_of(tag: u32) -> Policy
    ensures { result ≡ policy_of tag }
{
    match tag {
        0 => Policy::Unset,
        1 => Policy::NoReferrer,
        _ => Policy::OriginOnly,
    }
}

pub fn policy_tag(x: Policy) -> u32
    ensures { policy_of result ≡ x }
{
    match x {
        Policy::Unset => 0,
        Policy::NoReferrer => 1,
        Policy::OriginOnly => 2,
    }
}
