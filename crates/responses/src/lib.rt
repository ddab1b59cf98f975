// 000 Algorithm 8, PROCESSRESPONSE, with A9:55 to 63: an HTTP answer comes in, encrypted or plain, for a window or for a script.
#![tactic(auto)]

mod headers; // the request no longer waits, and the headers of its answer are acted upon
mod redirecting; // what is sent on to where an answer points
mod loading; // a document enters the history of a window
mod courses; // which way an answer goes
mod responses; // and there it goes
mod answers; // the request that it is for

pub use answers::{encrypted_answer, plain_answer};
