// A run from an input that is open for reading. The input goes through a window of fixed size, so it may be of any length; an item is played as soon as it is
// whole.
ghost use Rattle.std.specs.Prelude.{◌≡◌, false, OnOk};
ghost use Rattle.wim.specs.Step.{empty_browser};
ghost use Rattle.wim.specs.Made.{RunsTo};
ghost use Rattle.browser.specs.View.{browser};
ghost use Rattle.playing.specs.Feeds.{Begins};
ghost use Rattle.playing.specs.Told.{Told};

use crate::window::{Run, turn};
use memory::Memory;
use std::io;
use std::io::{Read, Write};

// What is read of the input at once, and what is told of it: room for two of the longest items. Both stand on the stack.
const PORTION: usize = 32768;

// A proved loop has to end, and nothing says that an input does: the turns count down from a number that no run uses up.
const TURNS: u64 = 18446744073709551615;

// The memory made empty, and nothing held.
fn begin(m: &mut Memory) -> Run
    ensures begins { Begins m.new result.held }
    ensures open { result.last ≡ false }
{
    rehearsal::make_empty(m);
    Run {
        held: 0,
        last: false,
        over: false,
    }
}

// The run begins with the memory made empty. Its lines are written where they are to be told. Whatever came, also where a read or a write failed, the browser is
// one that a run from the empty open one comes to. Where it is known which bytes the input has and which were written, what was written is the whole run.
pub fn play_all<R: Read, W: Write>(
    input: &mut R,
    out: &mut W,
    m: &mut Memory,
    loud: bool,
) -> io::Result<()>
    ensures comes { RunsTo empty_browser (browser m.new) }
    ensures told { OnOk result (Told loud (R.remaining input.old) (W.contents out.old) (W.contents out.new)) }
{
    let mut run = begin(m);
    let mut window = [0u8; PORTION];
    let mut lines = [0u8; PORTION];
    let mut turns = TURNS;
    // No `for`: what is still to come is counted down in what `turn` promises (specs/Told).
    while 0 < turns {
        run = turn(input, out, m, &mut window, &mut lines, run, loud)?;
        if run.over {
            return Ok(());
        }
        turns -= 1;
    }
    Ok(())
}
