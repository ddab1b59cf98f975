// Plays a run from standard input as the player does, but prints none of its lines; then prints what the script of a window is shown, as one line, or the
// number of the refusal: 8, 3, 7. Where the run stopped (refusal 1), that is asked of the browser as it stood then. The window's number is the one
// argument; where it is missing, or no such number, that is said on standard error, and nothing is read or printed.
#![tactic(auto)]

mod asked; // the window's number
mod telling; // the line

use memory::TOTAL;
use std::io;
use types::WindowNumber;

fn main(rt: HostRuntime) -> io::Result<()> {
    let w = asked::window_asked(&rt);
    if w == 0 {
        return eprintln!(rt; "shown: name one window by its number, 1 to 4294967295");
    }
    let mut m = [0u32; TOTAL];
    playing::play_all(&mut rt.stdin(), &mut io::writer(&rt), &mut m, false)?;
    telling::tell(&rt, &m, WindowNumber(w))
}
