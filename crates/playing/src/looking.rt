// What comes next in a portion of the input.
ghost use Rattle.std.specs.Prelude.{◌≡◌};
ghost use Rattle.playing.specs.Portions.{unended, next_in};

use csexp::{ITEM_BYTES, ITEM_LEVELS, ends_at};

// The longest line: "An outgoing event has at most 4,096 bytes" (01 "Numbers, names, sizes"), and the line break.
pub const LINE_BYTES: usize = 4097;

// Why no more of a portion is played.
#[derive(Clone, Copy)]
pub enum Halt {
    Over, // nothing is left, and nothing follows
    Stopped, // "After refusal 1 it stops."
    Hungry, // what is left is no item, and may become one by what follows
    Crowded, // a line may have no room
}

// No item stands first: that is refusal 1 where nothing follows, and where no item is so long.
fn unended(s: &[u8], last: bool) -> Halt
    ensures { result ≡ unended s.now last }
{
    if s.is_empty() {
        if last { Halt::Over } else { Halt::Hungry }
    } else if last || ITEM_BYTES <= s.len() {
        Halt::Stopped
    } else {
        Halt::Hungry
    }
}

// What stands first in what is left of a portion, with so much room for lines: an item of so many bytes, or none.
pub fn next_in(s: &[u8], last: bool, room: usize) -> Result<usize, Halt>
    ensures { result ≡ next_in s.now last room }
{
    if room < LINE_BYTES {
        return Err(Halt::Crowded);
    }
    match ends_at(s, 0, ITEM_BYTES, ITEM_LEVELS) {
        Some(end) => Ok(end),
        None => Err(unended(s, last)),
    }
}
