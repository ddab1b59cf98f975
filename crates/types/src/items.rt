// Items: an event with its choices, and the fresh numbers (01 "The text").
use super::answers::{Answer, DnsAnswer};
use super::commands::{Command, ScriptState, Target};
use super::cookies::SetCookies;
use super::{Fresh, KeyNumber, Url, WindowNumber};

// A value of local or session storage; 0 has no row.
#[derive(Clone, Copy)]
pub struct Stored(pub u32);

// What a script puts out (000 A7:10); its cookies stand beside the event.
#[derive(Clone, Copy)]
pub struct Output {
    pub state: ScriptState,
    pub local: Stored,
    pub session: Stored,
    pub command: Command,
}

// What happens to a browser, with the choices that 000 A9 leaves open.
#[derive(Clone, Copy)]
pub enum Event {
    RunScript(WindowNumber, Output),
    Urlbar(Target, Url),
    Reload(WindowNumber),
    GoForward(WindowNumber),
    GoBack(WindowNumber),
    CloseCorrupt,
    EncryptedAnswer(KeyNumber, Answer),
    PlainAnswer(Answer),
    DnsResolved(DnsAnswer),
}

// An event with the cookies that it brings, of a script or of an answer: an enum holds no array.
#[derive(Clone, Copy)]
pub struct Happening {
    pub event: Event,
    pub cookies: SetCookies,
}

#[derive(Clone, Copy)]
pub struct Item {
    pub event: Event,
    pub cookies: SetCookies,
    pub fresh: Fresh,
}
