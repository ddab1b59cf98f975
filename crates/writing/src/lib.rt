// Writes what goes out into a buffer that is lent (01 "The text", "Refusal numbers"). The writers of its parts each write a term at a position of a lent slice, as those
// of csexp::write do. That nothing of an event is lost, so written, is a theorem (proofs/Backs), and so is that no other text reads as it (proofs/Only).
// A buffer and a place in it stay two parameters: `Puts` and its kin promise each byte of the buffer by its place.
#![tactic(auto)]

pub mod addresses; // protocols, fragments, addresses, origins
pub mod cookies; // the Cookie header
pub mod headers; // the headers of a request
mod requests; // methods, requests, requests under a key
mod events; // questions, and what goes out as a whole

ghost use Rattle.writing.specs.Wrote.{Wrote, Long};

use types::Message;

// How many bytes go out: at most 4,096, and 0 for a step without a message. A run over a slice of one byte counts them.
pub fn length_of(message: Option<Message>) -> usize
    ensures { Long message result }
{
    let mut nothing = [0u8; 1];
    events::write_sent(&mut nothing, 0, message)
}

// What goes out stands in the buffer from `place` on; where it has no room between there and the end, the buffer is as it was. A step
// without a message writes none, and its place is not looked at.
pub fn write_event(out: &mut [u8], place: usize, message: Option<Message>) -> Option<usize>
    ensures { Wrote message out.old place out.new result }
{
    let n = length_of(message);
    if n == 0 {
        return Some(0);
    }
    if place <= out.len() && n <= out.len() - place {
        let end = place + n;
        // 01 "bytes before and after it stay": the writer is lent the middle part of the output buffer, mutable.
        events::write_sent(&mut out[place..end], 0, message);
        return Some(n);
    }
    None
}
