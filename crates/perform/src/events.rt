// Each event by its own function.
ghost use Rattle.wim.specs.Main.{cookies_in, program};
ghost use Rattle.stepping.specs.Performs.{Performs};

use memory::Memory;
use stepping::Performed;
use types::Fresh;
use types::cookies::SetCookies;
use types::items::Event;

pub fn happen(m: &mut Memory, e: Event, new: SetCookies, f: Fresh) -> Performed
    ensures { Performs (program e (cookies_in new)) f m.old m.new result }
{
    match e {
        Event::RunScript(w, out) => scripts::run_script(m, w, out, new, f),
        Event::Urlbar(target, url) => triggers::urlbar(m, target, url, f),
        Event::Reload(w) => triggers::reload(m, w, f),
        Event::GoForward(w) => triggers::forward(m, w, f),
        Event::GoBack(w) => triggers::back(m, w, f),
        Event::CloseCorrupt => resolving::close_corrupt(m, f),
        Event::EncryptedAnswer(k, a) => responses::encrypted_answer(m, k, a, new, f),
        Event::PlainAnswer(a) => responses::plain_answer(m, a, new, f),
        Event::DnsResolved(a) => resolving::resolved(m, a, f),
    }
}
