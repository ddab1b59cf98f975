// 000 Algorithm 7, lines 73 to 82: the commands BACK, FORWARD and CLOSE of a script.
ghost use Rattle.std.specs.Prelude.{◌≡◌};
ghost use Rattle.types.specs.declared.commands.Command.TheVariants.{Back, Forward, Close};
ghost use Rattle.wim.specs.Program.{observed, navigated};
ghost use Rattle.wim.specs.Script.{get_navigable_window, command};
ghost use Rattle.browser.specs.View.{view};
ghost use Rattle.stepping.specs.Performs.{Performs};
ghost use Rattle.history.specs.Directions.{nav};
ghost use Rattle.storing.specs.Stored.{storing};

use super::ending::end;
use super::going::with_all_under;
use history::Towards;
use memory::Memory;
use stepping::Performed;
use storing::scene::Scene;
use types::WindowNumber;
use types::refusals::Refusal;

// A1:9, 10
#[tactic(auto, unfolding(wim::specs::Program::observed))]
fn target(m: &Memory, s: Scene, x: WindowNumber) -> WindowNumber
    ensures { result ≡ observed (navigated s.window s.document x) (view m.now) }
{
    navigable::navigated(m, s.window, s.document, x)
}

// A5 and A6: where the history leads nowhere, it is 4, and nothing is stored.
fn go(m: &mut Memory, s: Scene, x: WindowNumber, q: Towards) -> Performed
    ensures { Performs (get_navigable_window s.window s.document x (λ v. nav q v (storing s))) s.fresh m.old m.new result }
{
    let v = target(m, s, x);
    let (from, to) = history::look(m, v, q).ok_or(Refusal::Stopped)?;
    end(m, s, |m| {
        history::turn(m, v, from, to);
        true
    })
}

// A7:73 to 75
pub fn back(m: &mut Memory, s: Scene, x: WindowNumber) -> Performed
    ensures { Performs (command s.window s.document (storing s) (Back x)) s.fresh m.old m.new result }
{
    go(m, s, x, Towards::Before)
}

// A7:76 to 78
pub fn forward(m: &mut Memory, s: Scene, x: WindowNumber) -> Performed
    ensures { Performs (command s.window s.document (storing s) (Forward x)) s.fresh m.old m.new result }
{
    go(m, s, x, Towards::After)
}

// A7:79 to 82
pub fn close(m: &mut Memory, s: Scene, x: WindowNumber) -> Performed
    ensures { Performs (command s.window s.document (storing s) (Close x)) s.fresh m.old m.new result }
{
    let v = target(m, s, x);
    let gone = with_all_under(m, v);
    end(m, s, |m| {
        removing::remove(m, gone);
        true
    })
}
