// What a script commands: 000 A7, lines 19 to 86.
use super::{Data, Matching, Method, Origin, Url, WindowNumber};

#[derive(Clone, Copy)]
pub struct Script(pub u32);

#[derive(Clone, Copy)]
pub struct ScriptState(pub u32);

// Where a page is to be loaded: into a new window (`_BLANK`, and urlbar's `new`) or into one that is there. No Option: a None would not say that a window is made.
#[derive(Clone, Copy)]
pub enum Target {
    NewWindow,
    Existing(WindowNumber),
}

// Under which window a frame is hung: the script's own (`_SELF`, or `SELF`) or another. No Option: a None would not say whose.
#[derive(Clone, Copy)]
pub enum Holder {
    Itself,
    Within(WindowNumber),
}

// For which origin a message is; None, 000's ⊥, for any.
pub type Addressee = Option<Origin>;

#[derive(Clone, Copy)]
pub enum Command {
    Nothing,
    Href(Url, Target, bool),
    Iframe(Url, Holder),
    Form(Url, Method, Data, Target),
    SetScript(WindowNumber, Script),
    SetScriptState(WindowNumber, ScriptState),
    XmlHttpRequest(Url, Method, Data, Matching),
    Back(WindowNumber),
    Forward(WindowNumber),
    Close(WindowNumber),
    PostMessage(WindowNumber, u32, Addressee),
}
