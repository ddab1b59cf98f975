// Events as they go out, a line for each: its name and its bytes; and buffers as the writer leaves them (crates/events_written/stdout).
#![tactic(auto)]

mod given; // requests and addresses to send
mod kinds; // each kind of message, and the largest
mod rooms; // where in a buffer an event stands
mod say; // a line of output

use std::io;

fn main(rt: HostRuntime) -> io::Result<()> {
    kinds::example(&rt)?;
    kinds::sealed(&rt)?;
    kinds::full(&rt)?;
    rooms::fits(&rt)?;
    rooms::fails(&rt)?;
    rooms::silence(&rt)
}
