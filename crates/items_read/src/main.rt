// Reads texts and items. Each line of the input is a name, a space and a text; each line of the output is the name, and 1, 2 or what the item says.
#![tactic(auto)]

mod lines;
mod telling;

use seeking::read_full;
use std::io;

fn main(rt: HostRuntime) -> io::Result<()> {
    let mut buffer = [0u8; 65536];
    let n = read_full(&mut rt.stdin(), &mut buffer)?;
    lines::each_line(&rt, &buffer[..n])
}
