// Commands of a script that send nothing (000 Algorithm 7): each looks and refuses first, then stores what every step stores, then makes its own change.
mod ending; // how each of them ends
mod going; // what goes when a window is closed
mod moves; // BACK, FORWARD, CLOSE
mod posting; // POSTMESSAGE
mod words; // nothing, SETSCRIPT, SETSCRIPTSTATE

pub use crate::commands::moves::{back, close, forward};
pub use crate::commands::posting::post_message;
pub use crate::commands::words::{nothing, set_script, set_script_state};
