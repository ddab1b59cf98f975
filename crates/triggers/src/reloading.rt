// 000 Algorithm 9, lines 30 to 36: reload.
ghost use Rattle.wim.specs.Main.{reload};
ghost use Rattle.stepping.specs.Performs.{Performs};

use super::visiting::{SENDS, sending_to};
use memory::Memory;
use stepping::Performed;
use types::refusals::Refusal;
use types::{Cancelled, Fresh, WindowNumber};

// 32 to 36: the document's address again, with the referrer that it had
pub fn reload(m: &mut Memory, w: WindowNumber, f: Fresh) -> Performed
    ensures { Performs (reload w) f m.old m.new result }
{
    let (_, d) = history::displayed(m, w)?;
    if !stepping::fresh::ready(m, f, SENDS) {
        return Err(Refusal::NotFresh);
    }
    sending::cancel(m, Cancelled::Bare(w));
    sending::http_send(m, true, sending_to(w, d.location, d.referrer), f)
}
