// The window over the input: what was read and is not yet played stands at its front.
ghost use Rattle.std.specs.Prelude.{◌≡◌, ◌-◌, ◌≤◌, length, take, drop, IfOk, OnOk, OnErr};
ghost use Rattle.std.specs.Io.KnownBytes.{Appends, ReadConsumes};
ghost use Rattle.wim.specs.Made.{RunsTo};
ghost use Rattle.browser.specs.View.{browser};
ghost use Rattle.playing.specs.Keeps.{Keeps};
ghost use Rattle.playing.specs.Feeds.{Feeds};
ghost use Rattle.playing.specs.Told.{spoken, Turned};

use crate::looking::Halt;
use crate::portions::play;
use memory::Memory;
use std::io;
use std::io::{Read, Write};

// How many bytes of the window are held, whether the input has ended, and whether the run has.
#[derive(Clone, Copy)]
pub struct Run {
    pub held: usize,
    pub last: bool,
    pub over: bool,
}

// The bytes between two places go to the front: how many they are.
fn keep(window: &mut [u8], from: usize, to: usize) -> usize
    requires from_le_to { from ≤ to }
    requires to_in_bounds { to ≤ length window.old }
    ensures { Keeps window.old from to window.new result }
{
    window.copy_within(from..to, 0);
    to - from
}

// Reads on behind the bytes that are held: how many came, and none at the end of the input.
fn fill<R: Read>(input: &mut R, window: &mut [u8], held: usize) -> io::Result<usize>
    requires { held ≤ length window.old }
    ensures within { IfOk result (λ n. n ≤ length window.new - held) }
    ensures kept { take held window.new ≡ take held window.old }
    ensures bytes { ReadConsumes (R.remaining input.old) (R.remaining input.new) result (drop held window.new) }
{
    input.read(&mut window[held..])
}

// Writes the lines where they are to be told, and lets none wait for more.
fn tell<W: Write>(out: &mut W, loud: bool, lines: &[u8]) -> io::Result<()>
    ensures { OnOk result (Appends (W.contents out.old) (W.contents out.new) (spoken loud lines.now)) }
{
    if loud {
        out.write_all(lines)?;
        out.flush()?;
    }
    Ok(())
}

// Plays what is held and tells the lines. Where that may yet become an item, it reads on.
pub fn turn<R: Read, W: Write>(
    input: &mut R,
    out: &mut W,
    m: &mut Memory,
    window: &mut [u8],
    lines: &mut [u8],
    run: Run,
    loud: bool,
) -> io::Result<Run>
    requires { run.held ≤ length window.old }
    ensures ok { IfOk result (λ r. Feeds m.old window.new m.new r.held) }
    ensures told { IfOk result (λ r. Turned loud (length lines.old) (W.contents out.old) (W.contents out.new)
        run window.old m.old (R.remaining input.old) r window.new m.new (R.remaining input.new)) }
    ensures err { OnErr result (RunsTo (browser m.old) (browser m.new)) }
{
    let held = run.held;
    let last = run.last;
    let played = play(&window[..held], last, m, lines);
    let written = played.written;
    tell(out, loud, &lines[..written])?;
    let read = played.read;
    let left = keep(window, read, held);
    let halt = played.halt;
    match halt {
        Halt::Over | Halt::Stopped => Ok(Run {
            held: left,
            last,
            over: true,
        }),
        Halt::Crowded => Ok(Run {
            held: left,
            last,
            over: false,
        }),
        Halt::Hungry => {
            let n = fill(input, window, left)?;
            Ok(Run {
                held: left + n,
                last: n == 0,
                over: false,
            })
        }
    }
}
