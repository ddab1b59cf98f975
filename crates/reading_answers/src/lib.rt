// Readers of the messages that a browser takes, but for TRIGGER: 000 Definitions 15 (13) and 18, and CLOSECORRUPT.
#![tactic(auto)]

mod bodies; // the status and the body of an answer
mod headers; // its headers, in any order
mod messages; // answers, plain and encrypted, DNS answers, closing

pub use messages::{quietly, read_message};
