// 000 Algorithm 9, lines 13 to 42: what a user does with the browser's window.
#![tactic(auto)]

mod visiting; // an address that a window is to show
mod opening; // 13 to 29, urlbar
mod reloading; // 30 to 36, reload
mod moving; // 37 to 42, forward and back

pub use moving::{back, forward};
pub use opening::urlbar;
pub use reloading::reload;
