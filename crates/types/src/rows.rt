// The rows of the nine tables, in 01's order.
use super::answers::Body;
use super::commands::{Script, ScriptState};
use super::cookies::Cookie;
use super::items::Stored;
use super::{
    Address, DnsNumber, DocumentNumber, Host, Matching, Origin, Policy, Reference, Referrer,
    Request, Seal, Url, WindowNumber,
};

// The document that a window hangs under; None for a top-level window.
pub type Parent = Option<DocumentNumber>;

// The window that opened a window; None where nobody did.
pub type Opener = Option<WindowNumber>;

// 000 Definition 29. Its documents are rows of their own.
#[derive(Clone, Copy)]
pub struct Window {
    pub number: WindowNumber,
    pub parent: Parent,
    pub opener: Opener,
}

// 000 Definition 30, with the window that holds it and its place in that window's history, from 1 on. Of the headers it keeps ReferrerPolicy.
#[derive(Clone, Copy)]
pub struct Document {
    pub window: WindowNumber,
    pub place: u32,
    pub number: DocumentNumber,
    pub location: Url,
    pub policy: Policy,
    pub referrer: Referrer,
    pub script: Script,
    pub state: ScriptState,
    pub active: bool,
}

#[derive(Clone, Copy)]
pub struct HostCookie {
    pub host: Host,
    pub cookie: Cookie,
}

#[derive(Clone, Copy)]
pub struct LocalValue {
    pub origin: Origin,
    pub value: Stored,
}

#[derive(Clone, Copy)]
pub struct SessionValue {
    pub origin: Origin,
    pub top: WindowNumber,
    pub value: Stored,
}

// What a script input is: an XHR's answer, or a message with its sender's window and origin.
#[derive(Clone, Copy)]
pub enum News {
    Answered(Matching, Body),
    Posted(WindowNumber, Origin, u32),
}

// An input of a document's script, the arrival-th since it was loaded.
#[derive(Clone, Copy)]
pub struct Input {
    pub document: DocumentNumber,
    pub arrival: u32,
    pub news: News,
}

// A request that waits for the address of its host: 000's pendingDNS.
#[derive(Clone, Copy)]
pub struct Question {
    pub number: DnsNumber,
    pub reference: Reference,
    pub request: Request,
    pub url: Url,
}

// A request that waits for its answer: 000's pendingRequests.
#[derive(Clone, Copy)]
pub struct Waiting {
    pub reference: Reference,
    pub request: Request,
    pub url: Url,
    pub seal: Seal,
    pub address: Address,
}

// A host that is spoken to over S alone.
#[derive(Clone, Copy)]
pub struct StrictHost {
    pub host: Host,
}
