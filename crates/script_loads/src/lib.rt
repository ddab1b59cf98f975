// The commands of a script that load something (000 A7:19 to 51 and 60 to 72): a page into a window, a frame into a page, an answer for the script itself.
#![tactic(auto)]

mod sendings; // what goes out by each command
mod loading; // how each of them ends
mod navigation; // a page goes into a window, a new one or one that is there
mod links; // HREF and FORM
mod frames; // IFRAME
mod fetching; // XMLHTTPREQUEST

pub use fetching::xhr;
pub use frames::iframe;
pub use links::{form, href};
