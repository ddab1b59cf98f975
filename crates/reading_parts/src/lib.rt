// Readers of the parts that the messages and the choices of an item are made of. Each hands back a value and the position behind it,
// or None where it found nothing. A script's command is one of them: 000 A7, lines 19 to 86; "one of HREF, IFRAME, FORM, SETSCRIPT,
// SETSCRIPTSTATE, XMLHTTPREQUEST, BACK, FORWARD, CLOSE, POSTMESSAGE or nothing" (01 "What a step does").
#![tactic(auto)]

mod numbers; // a number of 16 bits, a labelled window
mod addresses; // protocol, fragment, address, origin
mod cookies; // truth values, and at most four cookies
mod targets; // where a command aims
mod loading; // commands that load an address
mod naming; // commands that name a window
mod choosing; // one of them, or nothing

pub use addresses::{read_fragment, read_origin, read_protocol, read_url};
pub use choosing::read_command;
pub use cookies::{NO_COOKIES, read_cookies, read_flag};
pub use naming::read_named;
pub use numbers::{read_window, short_number};
