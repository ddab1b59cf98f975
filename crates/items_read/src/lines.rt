// The lines of the input.
use crate::telling::tell_reading;
use reading::read_item;
use seeking::find;
use std::io;

fn one_line(rt: &impl Print, line: &[u8]) -> io::Result<()> {
    let e = find(line, 0, b' ');
    rt.write_all(&line[..e])?;
    if e < line.len() {
        tell_reading(rt, read_item(&line[e + 1..]))?;
    }
    rt.write_all(b"\n")
}

pub fn each_line(rt: &impl Print, s: &[u8]) -> io::Result<()> {
    for line in s.split_inclusive(|b| *b == b'\n') {
        one_line(rt, line.strip_suffix(b"\n").unwrap_or(line))?;
    }
    Ok(())
}
