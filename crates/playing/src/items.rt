// One item of a run.
ghost use Rattle.std.specs.Prelude.{◌+◌, ◌≤◌, length};
ghost use Rattle.shapes.specs.Texts.{item_in};
ghost use Rattle.wim.specs.Run.{performed};
ghost use Rattle.browser.specs.View.{browser};
ghost use Rattle.playing.specs.Lines.{line_bytes};
ghost use Rattle.playing.specs.Turns.{Turns};

use crate::lines::{put_answer, put_byte};
use memory::Memory;

// The event is written where its line begins. The place behind the line.
pub fn play_item(text: &[u8], m: &mut Memory, out: &mut [u8], at: usize) -> usize
    requires { at + line_bytes ≤ length out.old }
    ensures { Turns (performed (item_in text.now) (browser m.old)) (browser m.old) out.old at out.new (browser m.new) result }
{
    let told = rehearsal::step(text, m, out, at);
    let p = put_answer(out, at, told.unwrap_or(0), rehearsal::number(told));
    put_byte(out, p, b'\n')
}
