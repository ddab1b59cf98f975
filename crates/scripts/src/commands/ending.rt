// How a command ends that sends nothing: what every script step stores, and the command's own change.
ghost use Rattle.std.specs.Prelude.{[]};
ghost use Rattle.wim.specs.Program.{Program};
ghost use Rattle.stepping.specs.Performs.{Performs};
ghost use Rattle.storing.specs.Stored.{storing};
ghost use Rattle.script_loads.specs.Change.{Does, silence};

use memory::Memory;
use stepping::Performed;
use storing::scene::Scene;
use types::refusals::Refusal;

// No fresh number is given, or it is 5. The change says whether there was room for what it put.
pub fn end<F: FnOnce(&mut Memory) -> bool>(m: &mut Memory, s: Scene, change: F) -> Performed
    requires { F.IsAlwaysCallable change }
    ensures { (p : Program) → Does F.post change [] silence p → Performs (storing s p) s.fresh m.old m.new result }
{
    if !stepping::brings_none(s.fresh) {
        return Err(Refusal::NotFresh);
    }
    let stored = storing::scene::store(m, s);
    let changed = change(m);
    stepping::conclude(stored && changed, None)
}
