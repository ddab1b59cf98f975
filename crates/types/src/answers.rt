// Answers: 000 Definitions 15 (13) and 18.
use super::commands::{Script, ScriptState};
use super::cookies::SetCookies;
use super::{Address, DnsNumber, Host, Policy, RequestNumber, Url};

#[derive(Clone, Copy)]
pub struct Status(pub u16);

// The Location header: where an answer points, if anywhere.
pub type Location = Option<Url>;

// A number, or a page: a script with its first state.
#[derive(Clone, Copy)]
pub enum Body {
    Number(u32),
    Page(Script, ScriptState),
}

// The headers of an answer; `set` says whether Set-Cookie is among them, since it may be there and empty.
#[derive(Clone, Copy)]
pub struct Headers {
    pub set: bool,
    pub cookies: SetCookies,
    pub location: Location,
    pub strict: bool,
    pub policy: Policy,
}

// The cookies of Set-Cookie stand beside, since an enum holds no array.
#[derive(Clone, Copy)]
pub struct Answer {
    pub number: RequestNumber,
    pub status: Status,
    pub location: Location,
    pub strict: bool,
    pub policy: Policy,
    pub body: Body,
}

// An answer as it is read, with its cookies.
#[derive(Clone, Copy)]
pub struct Reply {
    pub answer: Answer,
    pub cookies: SetCookies,
}

#[derive(Clone, Copy)]
pub struct DnsAnswer {
    pub host: Host,
    pub address: Address,
    pub number: DnsNumber,
}
