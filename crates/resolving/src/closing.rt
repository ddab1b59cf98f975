// 000 Algorithm 9, lines 46 to 54: CLOSECORRUPT. Cookies that last, local storage and STS hosts stay; all else goes.
ghost use Rattle.std.specs.Prelude.{true, [], ◌∷◌};
ghost use Rattle.tables.specs.Tables.{windows, documents, cookies, session_storage, inputs, pending_dns, pending_requests};
ghost use Rattle.wim.specs.Main.{close_corrupt};
ghost use Rattle.stepping.specs.Holds.{Carries};
ghost use Rattle.stepping.specs.Performs.{Performs};
ghost use Rattle.resolving.specs.Emptied.{emptied};

use cookies::Cookies;
use documents::Documents;
use inputs::Inputs;
use memory::Memory;
use pending_dns::PendingDns;
use pending_requests::PendingRequests;
use rows::Table;
use session_storage::SessionStorage;
use stepping::Performed;
use types::Fresh;
use types::refusals::Refusal;
use windows::Windows;

// 48 to 52
fn empty(m: &mut Memory)
    ensures { Carries emptied [] (windows ∷ documents ∷ inputs ∷ pending_dns ∷ pending_requests ∷ session_storage ∷ cookies ∷ []) m.old m.new true }
{
    Windows::clear(m);
    Documents::clear(m);
    Inputs::clear(m);
    PendingDns::clear(m);
    PendingRequests::clear(m);
    SessionStorage::clear(m);
    Cookies::keep(m, |row| !row.cookie.session);
}

// That the browser is closed then (53) is told by the step.
pub fn close_corrupt(m: &mut Memory, f: Fresh) -> Performed
    ensures { Performs close_corrupt f m.old m.new result }
{
    if !stepping::brings_none(f) {
        return Err(Refusal::NotFresh);
    }
    empty(m);
    Ok(None)
}
