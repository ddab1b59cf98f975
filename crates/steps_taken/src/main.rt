// Takes steps with memories and buffers of every kind (crates/steps_taken/stdin), and says of each what it left of them. One memory is lent to all. The lines of the input:
//     empty                    the memory is made an empty browser
//     any BOUND                each of its numbers is made any that is less than the bound; any 1 makes them all 0
//     put PLACE NUMBER         one of its numbers is put; the last, 10239, says whether the browser is closed
//     SIZE PLACE NAME TEXT     a step on the text, with a buffer of so many dots and a place in it
// Of a line that begins with another letter it says that it is not understood.
#![tactic(auto)]

mod memories; // how a memory is made
mod comparing; // two memories, number for number
mod telling; // what a step left
mod lines; // the lines of the input

use memory::TOTAL;
use seeking::read_full;
use std::io;

fn main(rt: HostRuntime) -> io::Result<()> {
    let mut m = [0u32; TOTAL];
    let mut input = [0u8; 65536];
    let n = read_full(&mut rt.stdin(), &mut input)?;
    lines::each_line(&rt, &input[..n], &mut m)
}
