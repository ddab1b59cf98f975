// Where in a buffer an event stands: buffers with room before and behind, with just enough room, and with too little.
use crate::{given, say};
use std::io;

// Of 37 bytes.
fn question(rt: &impl Print, name: &[u8], out: &mut [u8], place: usize) -> io::Result<()> {
    say::buffer(rt, name, out, place, Some(given::question()))
}

// Of 63 bytes.
fn request(rt: &impl Print, name: &[u8], out: &mut [u8], place: usize) -> io::Result<()> {
    say::buffer(rt, name, out, place, Some(given::open()))
}

fn nothing(rt: &impl Print, name: &[u8], out: &mut [u8], place: usize) -> io::Result<()> {
    say::buffer(rt, name, out, place, None)
}

pub fn fits(rt: &impl Print) -> io::Result<()> {
    let mut exact = [b'.'; 37];
    question(rt, b"just enough room", &mut exact, 0)?;
    let mut start = [b'.'; 40];
    question(rt, b"at the start", &mut start, 0)?;
    let mut middle = [b'.'; 47];
    question(rt, b"in the middle", &mut middle, 6)?;
    let mut last = [b'.'; 40];
    question(rt, b"up to the end", &mut last, 3)?;
    let mut twice = [b'.'; 105];
    question(rt, b"one event", &mut twice, 1)?;
    request(rt, b"and behind it another", &mut twice, 38)
}

pub fn fails(rt: &impl Print) -> io::Result<()> {
    let mut short = [b'.'; 36];
    question(rt, b"one byte short", &mut short, 0)?;
    let mut middle = [b'.'; 40];
    question(rt, b"one byte short in the middle", &mut middle, 4)?;
    question(rt, b"at the end", &mut middle, 40)?;
    question(rt, b"past the end", &mut middle, 41)?;
    request(rt, b"far past the end", &mut middle, usize::MAX)?;
    let mut none = [b'.'; 0];
    question(rt, b"no buffer", &mut none, 0)
}

// A step without a message writes none, wherever the place lies.
pub fn silence(rt: &impl Print) -> io::Result<()> {
    let mut buffer = [b'.'; 8];
    nothing(rt, b"nothing at the start", &mut buffer, 0)?;
    nothing(rt, b"nothing at the end", &mut buffer, 8)?;
    nothing(rt, b"nothing past the end", &mut buffer, 9)?;
    nothing(rt, b"nothing far past the end", &mut buffer, usize::MAX)
}
