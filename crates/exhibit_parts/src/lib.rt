// Writers of the parts of what a script is shown (000 A7:2 to 9): each writes a term at a position of a lent slice, as csexp's do.
#![tactic(auto)]

pub mod values; // opener, referrer, matching number, body, news
pub mod input_terms; // the inputs of a document
pub mod cookie_terms; // the cookies of an origin that a script may see
pub mod storage; // its values in local and session storage

pub use cookie_terms::write_cookies;
pub use input_terms::write_inputs;
pub use storage::{write_local, write_session};
pub use values::{write_opener, write_referrer};
