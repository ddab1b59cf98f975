// The line of an item: "the outgoing event, () for none, or the refusal number alone" (01 "The player's run"). A line is added to a buffer at a place, and the
// place behind it is handed back.
ghost use Rattle.std.specs.Prelude.{◌≡◌, [], ◌∷◌, ◌+◌, ◌<◌, ◌≤◌, length};
ghost use Rattle.playing.specs.declared.looking.Halt.TheVariants.{Stopped};
ghost use Rattle.playing.specs.Lines.{line_bytes, last_line, Adds, Answered};

use crate::looking::Halt;

pub fn put_byte(out: &mut [u8], at: usize, b: u8) -> usize
    requires { at < length out.old }
    ensures { Adds (b ∷ []) out.old at out.new result }
{
    out[at] = b;
    at + 1
}

// Of an event the step wrote so many bytes. Where it wrote none: (), or the number of the refusal, which has one digit.
pub fn put_answer(out: &mut [u8], at: usize, count: usize, n: u32) -> usize
    requires at_in_bounds { at + 4096 ≤ length out.old }
    requires count_bound { count ≤ 4096 }
    requires n_bound { n ≤ 8 }
    ensures { Answered count n out.old at out.new result }
{
    if 0 < count {
        at + count
    } else if n == 0 {
        let p = put_byte(out, at, b'(');
        put_byte(out, p, b')')
    } else {
        put_byte(out, at, b'0' + n as u8)
    }
}

// Behind the last item: the line of refusal 1, or none.
pub fn put_last(out: &mut [u8], at: usize, halt: Halt) -> usize
    requires { halt ≡ Stopped → at + line_bytes ≤ length out.old }
    ensures { Adds (last_line halt) out.old at out.new result }
{
    match halt {
        Halt::Stopped => {
            let p = put_byte(out, at, b'1');
            put_byte(out, p, b'\n')
        }
        Halt::Over | Halt::Hungry | Halt::Crowded => at,
    }
}
