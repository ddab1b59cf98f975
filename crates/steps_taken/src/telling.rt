// What a step left, as a line: its name, its verdict (0, or the number of the refusal) and the count of bytes written; in how many places the memory changed; and of the buffer how many dots are left
// before the event, the event, and how many dots behind it: together as many bytes as the buffer has, where every other byte is as it was.
use crate::comparing::changed;
use memory::Memory;
use seeking::{find, pass};
use std::io;

fn tell_buffer(rt: &impl Print, out: &[u8]) -> io::Result<()> {
    let start = pass(out, 0, b'.');
    print!(rt; "{start}")?;
    if start < out.len() {
        let end = find(out, start, b'.');
        print!(rt; " ")?;
        rt.write_all(&out[start..end])?;
        print!(rt; " {}", pass(out, end, b'.') - end)?;
    }
    Ok(())
}

// The step is taken here, between a copy of the memory and its comparing.
pub fn take(
    rt: &impl Print,
    name: &[u8],
    text: &[u8],
    m: &mut Memory,
    out: &mut [u8],
    place: usize,
) -> io::Result<()> {
    let before = *m;
    let taken = rehearsal::step(text, m, out, place);
    let verdict = rehearsal::number(taken);
    let count = taken.unwrap_or(0);
    rt.write_all(name)?;
    print!(rt;
        ": {verdict}, {count} bytes; memory {} changed; buffer ",
        changed(&before, m)
    )?;
    tell_buffer(rt, out)?;
    println!(rt; "")
}
