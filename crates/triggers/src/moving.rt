// 000 Algorithm 9, lines 37 to 42: forward and back.
ghost use Rattle.wim.specs.Main.{displayed, forward, back};
ghost use Rattle.stepping.specs.Performs.{Performs};
ghost use Rattle.history.specs.Directions.{nav};

use history::Towards;
use memory::Memory;
use stepping::Performed;
use types::refusals::Refusal;
use types::{Fresh, WindowNumber};

// A trigger stores nothing before it moves.
fn go(m: &mut Memory, w: WindowNumber, q: Towards, f: Fresh) -> Performed
    ensures { Performs (displayed w (λ d. nav q w (λ p. p))) f m.old m.new result }
{
    history::displayed(m, w)?;
    let Some((from, to)) = history::look(m, w, q) else {
        return Err(Refusal::Stopped);
    };
    if !stepping::brings_none(f) {
        return Err(Refusal::NotFresh);
    }
    history::turn(m, w, from, to);
    Ok(None)
}

// 37 to 39
pub fn forward(m: &mut Memory, w: WindowNumber, f: Fresh) -> Performed
    ensures { Performs (forward w) f m.old m.new result }
{
    go(m, w, Towards::After, f)
}

// 40 to 42
pub fn back(m: &mut Memory, w: WindowNumber, f: Fresh) -> Performed
    ensures { Performs (back w) f m.old m.new result }
{
    go(m, w, Towards::Before, f)
}
