// The words of HTTP that readers and writers share (01 "The text").
#![tactic(auto)]

pub mod methods; // one table of how the methods are spelt, and a method read by it
pub mod statuses; // which numbers are statuses, and which of them redirect

pub use methods::{read_method, spelling_at, spelling_of};
