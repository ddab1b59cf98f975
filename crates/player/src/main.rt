// Plays runs (01 "The player's run"): the one on standard input, a line for each item on standard output; or, where files are named, that of each from an
// empty browser, under a line with its name. The memory that a run is played in is this program's.
#![tactic(auto)]

mod named; // the runs of files

use memory::TOTAL;
use std::io;

fn main(rt: HostRuntime) -> io::Result<()> {
    let mut m = [0u32; TOTAL];
    let words = named::count(&rt);
    if words < 2 {
        return playing::play_all(&mut rt.stdin(), &mut io::writer(&rt), &mut m, true);
    }
    named::play_each(&rt, words, &mut m)
}
