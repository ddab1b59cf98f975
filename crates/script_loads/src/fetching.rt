// The command of a script that fetches for the script itself: XMLHTTPREQUEST (000 A7:60 to 72).
ghost use Rattle.types.specs.declared.Reference.TheVariants.{Xhr};
ghost use Rattle.wim.specs.Script.{xhr};
ghost use Rattle.storing.specs.Stored.{storing};
ghost use Rattle.stepping.specs.Performs.{Performs};

use crate::loading::{SENDS, load};
use crate::sendings::xhr_sending;
use memory::Memory;
use sending::request_tests::{is_forbidden, url_origin};
use stepping::Performed;
use storing::scene::Scene;
use types::refusals::Refusal;
use types::{Data, Matching, Method, Reference, Url};

// A7:60 to 72. CONNECT and TRACE, and another origin than the script's own, are where WIM stops. Nothing is cancelled by it.
pub fn xhr(
    m: &mut Memory,
    s: Scene,
    url: Url,
    method: Method,
    data: Data,
    matching: Matching,
) -> Performed
    ensures { Performs (xhr s.document (storing s) url method «data» (Xhr s.document.number matching)) s.fresh m.old m.new result }
{
    let own = walks::origin_of(s.document);
    if is_forbidden(method) || !labels::same_origin(url_origin(url), own) {
        return Err(Refusal::Stopped);
    }
    let reference = Reference::Xhr(s.document.number, matching);
    let o = xhr_sending(s.document, url, method, data, reference);
    load(m, s, SENDS, o, |_| true)
}
