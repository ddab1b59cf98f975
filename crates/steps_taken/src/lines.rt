// The lines of the input.
ghost use Rattle.std.specs.Prelude.{◌≡◌, ◌≤◌, length};

use crate::memories::{fill, put};
use crate::telling::take;
use csexp::decimal;
use memory::Memory;
use seeking::find;
use std::io;

// No buffer is longer: there is room for the longest event, and for bytes before it and behind.
const LONGEST: usize = 8192;

fn dots() -> [u8; LONGEST]
    ensures { 8192 ≡ length result }
{
    [b'.'; LONGEST]
}

// The place behind a space, or the end.
fn behind(line: &[u8], at: usize) -> usize
    ensures { result ≤ length line.now }
{
    if at < line.len() { at + 1 } else { line.len() }
}

// The number at a place, and the place behind the space that follows it; where there is none, 0 and the end.
fn number(line: &[u8], at: usize, most: usize) -> (usize, usize)
    ensures { (result.0 ≤ most) × (result.1 ≤ length line.now) }
{
    match decimal(line, at, most) {
        Some(n) => (n.value, behind(line, n.next)),
        None => (0, line.len()),
    }
}

fn step_line(rt: &impl Print, line: &[u8], m: &mut Memory) -> io::Result<()> {
    let (room, after) = number(line, 0, LONGEST);
    let (place, name) = number(line, after, usize::MAX);
    let end = find(line, name, b' ');
    let text = behind(line, end);
    let mut buffer = dots();
    take(
        rt,
        &line[name..end],
        &line[text..],
        m,
        &mut buffer[..room],
        place,
    )
}

fn put_line(line: &[u8], m: &mut Memory) {
    let (place, after) = number(line, 4, 10239);
    let (n, _) = number(line, after, u32::MAX as usize);
    put(m, place, n as u32);
}

fn any_line(line: &[u8], m: &mut Memory) {
    let (bound, _) = number(line, 4, u32::MAX as usize);
    fill(m, bound as u32);
}

// A line that makes a memory is told as it stands. One that makes none is told to be so, and leaves the memory as it was.
fn memory_line(rt: &impl Print, line: &[u8], first: u8, m: &mut Memory) -> io::Result<()> {
    rt.write_all(line)?;
    println!(rt; "")?;
    match first {
        b'a' => any_line(line, m),
        b'p' => put_line(line, m),
        b'e' => rehearsal::make_empty(m),
        _ => println!(rt; "not understood")?,
    }
    Ok(())
}

// A step's line begins with a digit.
fn one_line(rt: &impl Print, line: &[u8], m: &mut Memory) -> io::Result<()> {
    match line {
        [] => Ok(()),
        [first, ..] if *first <= b'9' => step_line(rt, line, m),
        [first, ..] => memory_line(rt, line, *first, m),
    }
}

pub fn each_line(rt: &impl Print, s: &[u8], m: &mut Memory) -> io::Result<()> {
    for line in s.split_inclusive(|b| *b == b'\n') {
        one_line(rt, line.strip_suffix(b"\n").unwrap_or(line), m)?;
    }
    Ok(())
}
