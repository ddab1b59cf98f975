// As many items as a portion of the input has. Where the portion is not the last one, what is left of it is to be the beginning of the next.
ghost use Rattle.playing.specs.Plays.{Plays};

use crate::items::play_item;
use crate::lines::put_last;
use crate::looking::{Halt, next_in};
use memory::Memory;

// How many bytes were played, how many bytes their lines have, and why no more were played.
#[derive(Clone, Copy)]
pub struct Played {
    pub read: usize,
    pub written: usize,
    pub halt: Halt,
}

// The lines stand at the front of the buffer. `last` says that nothing follows the text.
pub fn play(text: &[u8], last: bool, m: &mut Memory, out: &mut [u8]) -> Played
    ensures { Plays text.now last m.old out.old result m.new out.new }
{
    let mut read = 0;
    let mut written = 0;
    loop {
        match next_in(&text[read..], last, out.len() - written) {
            Ok(n) => {
                let end = read + n;
                written = play_item(&text[read..end], m, out, written);
                read = end;
            }
            Err(halt) => {
                let end = put_last(out, written, halt);
                return Played {
                    read,
                    written: end,
                    halt,
                };
            }
        }
    }
}
