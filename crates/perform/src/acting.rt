// The step of an item in place. Where it finds a table full, it leaves the memory as it stands then: that is for a copy, or for a memory that has room.
ghost use Rattle.std.specs.Prelude.{◌≡◌};
ghost use Rattle.wim.specs.Step.{closes};
ghost use Rattle.perform.specs.Acts.{Acts};

use crate::events::happen;
use memory::Memory;
use stepping::Performed;
use types::items::{Event, Item};

// 000 A9:53.
fn closes(e: Event) -> bool
    ensures { result ≡ closes e }
{
    matches!(e, Event::CloseCorrupt)
}

pub fn act(m: &mut Memory, item: Item) -> Performed
    ensures { Acts item m.old m.new result }
{
    let done = happen(m, item.event, item.cookies, item.fresh);
    if done.is_ok() {
        browser::set_closed(m, closes(item.event));
    }
    done
}
