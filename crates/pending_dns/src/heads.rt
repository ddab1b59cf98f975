// What tests of waiting requests look at. Written by tools/tables.py.
use types::{DnsNumber, Reference, RequestNumber};

#[derive(Clone, Copy)]
pub struct Head {
    pub number: DnsNumber,
    pub reference: Reference,
    pub request: RequestNumber,
}
