// The nouns of the browser: what stands in an item, in a table and in a message. No function, no rule: those are definitions. Labels, addresses and requests stand
// here, under short paths, since the prover spells the path of a type wherever one is passed by value; what is made of them has rooms of its own.
#![tactic(auto)]

pub mod cookies; // set, and sent
pub mod commands; // what a script asks for
pub mod answers; // what comes back
pub mod items; // an event with what was chosen for it
pub mod rows; // of the nine tables
pub mod refusals; // what a step comes to

use cookies::Jar;

// The five labels. Each number is a struct of its own, so that a window's is never taken for a document's (01 "Numbers, names, sizes").

#[derive(Clone, Copy, PartialEq, Eq)]
pub struct WindowNumber(pub u32);

#[derive(Clone, Copy, PartialEq, Eq)]
pub struct DocumentNumber(pub u32);

#[derive(Clone, Copy, PartialEq, Eq)]
pub struct RequestNumber(pub u32);

#[derive(Clone, Copy, PartialEq, Eq)]
pub struct DnsNumber(pub u32);

#[derive(Clone, Copy, PartialEq, Eq)]
pub struct KeyNumber(pub u32);

// A number under its label.
#[derive(Clone, Copy, PartialEq, Eq)]
pub enum Label {
    OfWindow(WindowNumber),
    OfRequest(RequestNumber),
    OfDns(DnsNumber),
    OfKey(KeyNumber),
    OfDocument(DocumentNumber),
}

// The numbers that a step brings, in 01's order; 0 stands for one that is not given.
#[derive(Clone, Copy)]
pub struct Fresh {
    pub window: WindowNumber,
    pub request: RequestNumber,
    pub dns: DnsNumber,
    pub key: KeyNumber,
    pub document: DocumentNumber,
}

// Which fresh numbers a step needs.
#[derive(Clone, Copy)]
pub struct Wants {
    pub window: bool,
    pub request: bool,
    pub dns: bool,
    pub key: bool,
    pub document: bool,
}

// Some windows, by number, in an array beside a count, since nothing is allocated: as many as there may be, and one more. The first `count` count, and a count beyond the room for them is read as that.
#[derive(Clone, Copy)]
pub struct WindowNumbers {
    pub rows: [WindowNumber; 33],
    pub count: usize,
}

// Some documents, by number, in an array beside a count, since nothing is allocated: as many as there may be.
#[derive(Clone, Copy)]
pub struct DocumentNumbers {
    pub rows: [DocumentNumber; 64],
    pub count: usize,
}

// Addresses on the wire and in the address bar: 000 Definitions 12 and 13.

// A host's name.
#[derive(Clone, Copy, PartialEq, Eq)]
pub struct Host(pub u16);

// A network address, an element of 000's IPs.
#[derive(Clone, Copy)]
pub struct Address(pub u16);

// 0 is "/".
#[derive(Clone, Copy)]
pub struct Path(pub u16);

// 0 is the empty dictionary.
#[derive(Clone, Copy)]
pub struct Parameters(pub u32);

// 000's P and S.
#[derive(Clone, Copy, PartialEq, Eq)]
pub enum Protocol {
    Plain,
    Secure,
}

// An absent fragment and the fragment 0 are one.
pub type Fragment = Option<u32>;

// 000 Definition 12.
#[derive(Clone, Copy)]
pub struct Url {
    pub protocol: Protocol,
    pub host: Host,
    pub path: Path,
    pub parameters: Parameters,
    pub fragment: Fragment,
}

// 000 Definition 13.
#[derive(Clone, Copy, PartialEq, Eq)]
pub struct Origin {
    pub host: Host,
    pub protocol: Protocol,
}

// Requests: 000 Definition 15 (12), and what is remembered of them while they wait.

// The eight of RFC 9110.
#[derive(Clone, Copy)]
pub enum Method {
    Get,
    Head,
    Post,
    Put,
    Delete,
    Connect,
    Options,
    Trace,
}

// A request's body, a form's data; 0 is the empty term.
#[derive(Clone, Copy)]
pub struct Data(pub u32);

// The Origin header: absent, 000's ◇, or an origin.
#[derive(Clone, Copy)]
pub enum OriginHeader {
    Unsent,
    Null,
    From(Origin),
}

// The Referer header, a document's referrer; 000's ⊥ is None.
pub type Referrer = Option<Url>;

// The header ReferrerPolicy; 000's ⊥ is Unset.
#[derive(Clone, Copy)]
pub enum Policy {
    Unset,
    NoReferrer,
    OriginOnly,
}

// The number by which a script knows its XHR's answer again; 000's ⊥ is None.
pub type Matching = Option<u32>;

// 000 Definition 32: whom an answer is for, a window or the script of a document.
#[derive(Clone, Copy, PartialEq, Eq)]
pub enum Reference {
    Req(WindowNumber),
    Xhr(DocumentNumber, Matching),
}

// What CANCELNAV (000 A3) is given: a reference, or a window's number without its label, which equals no reference.
#[derive(Clone, Copy)]
pub enum Cancelled {
    Bare(WindowNumber),
    Labelled(Reference),
}

// 000 Definition 15 (12), with the headers that a browser sends.
#[derive(Clone, Copy)]
pub struct Request {
    pub number: RequestNumber,
    pub method: Method,
    pub host: Host,
    pub path: Path,
    pub parameters: Parameters,
    pub cookies: Jar,
    pub origin: OriginHeader,
    pub referrer: Referrer,
    pub body: Data,
}

// What HTTP_SEND (000 A4) is given; the request's host and path are the address's.
#[derive(Clone, Copy)]
pub struct Sending {
    pub reference: Reference,
    pub method: Method,
    pub url: Url,
    pub parameters: Parameters,
    pub body: Data,
    pub origin: OriginHeader,
    pub referrer: Referrer,
    pub policy: Policy,
}

// The key of a request that went out encrypted; 000's ⊥ is None.
pub type Seal = Option<KeyNumber>;

// What goes out: a question to the DNS server, a plain request, an encrypted one with its key.
#[derive(Clone, Copy)]
pub enum Message {
    Resolve(Host, DnsNumber),
    Open(Address, Request),
    Sealed(Address, KeyNumber, Request),
}
