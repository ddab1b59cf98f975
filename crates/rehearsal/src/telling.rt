// What a step hands back to its caller: the verdict, and the event in the lent buffer.
ghost use Rattle.std.specs.Prelude.{◌+◌, ◌≤◌, ◌↔◌, IsTrue, length};
ghost use Rattle.rehearsal.specs.Writes.{Writes};

use stepping::Performed;
use types::refusals::Refusal;
use writing::write_event;

// How many bytes of the buffer were written, or why the step is refused: a refusal writes none.
pub type Rehearsed = Result<usize, Refusal>;

// Whether there is room for the longest event: "An outgoing event has at most 4,096 bytes" (01 "Numbers, names, sizes").
pub fn is_wide(out: &[u8], place: usize) -> bool
    ensures { IsTrue result ↔ (place + 4096 ≤ length out.now) }
{
    place <= out.len() && 4096 <= out.len() - place
}

// The event is written; or has no room, and nothing is.
pub fn tell(done: Performed, out: &mut [u8], place: usize) -> Rehearsed
    ensures { Writes done out.old place result out.new }
{
    write_event(out, place, done?).ok_or(Refusal::NoRoom)
}
