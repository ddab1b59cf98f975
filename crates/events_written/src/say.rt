// A line of output: the name of a case, and what was written.
use std::io;
use types::Message;
use writing::{length_of, write_event};

// An event alone, in a buffer that has room for every event.
pub fn event(rt: &impl Print, name: &[u8], message: Option<Message>) -> io::Result<()> {
    let mut buffer = [0u8; 4096];
    let answer = write_event(&mut buffer, 0, message);
    rt.write_all(name)?;
    print!(rt; ": ")?;
    match answer.and_then(|n| buffer.get(..n)) {
        Some(text) => rt.write_all(text)?,
        None => print!(rt; "no room")?,
    }
    println!(rt; "")
}

// How many bytes an event has.
pub fn length(rt: &impl Print, name: &[u8], message: Option<Message>) -> io::Result<()> {
    rt.write_all(name)?;
    println!(rt; ": {}", length_of(message))
}

// A buffer as it is left, behind the answer.
pub fn buffer(
    rt: &impl Print,
    name: &[u8],
    out: &mut [u8],
    place: usize,
    message: Option<Message>,
) -> io::Result<()> {
    let answer = write_event(out, place, message);
    rt.write_all(name)?;
    match answer {
        Some(n) => print!(rt; ": {n} [")?,
        None => print!(rt; ": no room [")?,
    }
    rt.write_all(out)?;
    println!(rt; "]")
}
