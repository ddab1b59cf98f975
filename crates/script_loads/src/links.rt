// The commands of a script that load a page into a window: HREF and FORM (000 A7:19 to 26 and 36 to 51).
ghost use Rattle.wim.specs.Script.{href, form};
ghost use Rattle.storing.specs.Stored.{storing};
ghost use Rattle.stepping.specs.Performs.{Performs};

use crate::navigation::{Load, navigate};
use memory::Memory;
use sending::request_tests::is_form_method;
use stepping::Performed;
use storing::scene::Scene;
use types::commands::Target;
use types::refusals::Refusal;
use types::{Data, Method, Url};

// A7:19 to 26
pub fn href(m: &mut Memory, s: Scene, url: Url, noreferrer: bool, target: Target) -> Performed
    ensures { Performs (href s.window s.document (storing s) url noreferrer target) s.fresh m.old m.new result }
{
    navigate(m, s, Load::Link(url, noreferrer), target)
}

// A7:36 to 51. GET and POST alone are a form's methods.
pub fn form(
    m: &mut Memory,
    s: Scene,
    url: Url,
    method: Method,
    data: Data,
    target: Target,
) -> Performed
    ensures { Performs (form s.window s.document (storing s) url method «data» target) s.fresh m.old m.new result }
{
    if !is_form_method(method) {
        return Err(Refusal::Stopped);
    }
    navigate(m, s, Load::Form(url, method, data), target)
}
