// A message for the script of another window: 000 A7:83 to 87, POSTMESSAGE.
ghost use Rattle.std.specs.Prelude.{◌≡◌};
ghost use Rattle.wim.specs.Script.{is_for, post_message};
ghost use Rattle.stepping.specs.Performs.{Performs};
ghost use Rattle.storing.specs.Stored.{storing};

use super::ending::end;
use super::words::nothing;
use inputs::Inputs;
use memory::Memory;
use rows::Table;
use stepping::Performed;
use storing::scene::Scene;
use types::WindowNumber;
use types::commands::Addressee;
use types::refusals::Missing;
use types::rows::{Document, News};

// 85
fn is_for(to: Addressee, d: Document) -> bool
    ensures { result ≡ is_for to d }
{
    to.is_none_or(|o| labels::same_origin(walks::origin_of(d), o))
}

// To the active document of a window that is reached, if the message is for its origin; else nobody hears of it.
pub fn post_message(
    m: &mut Memory,
    s: Scene,
    x: WindowNumber,
    message: u32,
    to: Addressee,
) -> Performed
    ensures { Performs (post_message s.window s.document (storing s) x message to) s.fresh m.old m.new result }
{
    walks::reached(m, x).ok_or(Missing::NoWindow)?;
    match walks::active_document(m, x) {
        Some(d) if is_for(to, d) => {
            let sender = walks::origin_of(s.document);
            let row = storing::next_input(m, d.number, News::Posted(s.window, sender, message));
            end(m, s, |m| Inputs::put(m, row))
        }
        _ => nothing(m, s),
    }
}
