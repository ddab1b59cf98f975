// Two events that come from outside: DNS answers, and the browser's closing.
#![tactic(auto)]

mod resolving; // 000 A9:64 to 74
mod closing; // 000 A9:46 to 54

pub use closing::close_corrupt;
pub use resolving::resolved;
