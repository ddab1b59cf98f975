// How a command that loads something ends: what every script step stores, the command's own change, and HTTP_SEND.
ghost use Rattle.stepping.specs.Performs.{Performs};
ghost use Rattle.stepping.specs.Wanted.{picked};
ghost use Rattle.storing.specs.Stored.{storing};
ghost use Rattle.wim.specs.Program.{Program};
ghost use Rattle.script_loads.specs.Change.{Does, sends};

use memory::Memory;
use stepping::Performed;
use storing::scene::Scene;
use types::refusals::Refusal;
use types::{Sending, Wants};

// HTTP_SEND takes a number for the request and one for the DNS question.
pub const SENDS: Wants = Wants {
    window: false,
    request: true,
    dns: true,
    key: false,
    document: false,
};

// A new window takes one more.
pub const OPENS: Wants = Wants {
    window: true,
    request: true,
    dns: true,
    key: false,
    document: false,
};

// Just the fresh numbers that are wanted are given, or it is 5. The change says whether there was room for what it put.
pub fn load<F: FnOnce(&mut Memory) -> bool>(
    m: &mut Memory,
    s: Scene,
    wants: Wants,
    o: Sending,
    change: F,
) -> Performed
    requires { F.IsAlwaysCallable change }
    ensures { (p : Program) → Does F.post change (picked wants s.fresh) (sends o s.fresh) p → Performs (storing s p) s.fresh m.old m.new result }
{
    if !stepping::fresh::ready(m, s.fresh, wants) {
        return Err(Refusal::NotFresh);
    }
    let stored = storing::scene::store(m, s);
    let changed = change(m);
    sending::http_send(m, stored && changed, o, s.fresh)
}
