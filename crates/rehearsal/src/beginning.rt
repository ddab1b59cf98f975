// Where every run begins (01 "The player's run": "an empty open browser").
ghost use Rattle.std.specs.Prelude.{◌≡◌};
ghost use Rattle.wim.specs.Step.{empty_browser};
ghost use Rattle.browser.specs.View.{browser};

use cookies::Cookies;
use documents::Documents;
use inputs::Inputs;
use local_storage::LocalStorage;
use memory::Memory;
use pending_dns::PendingDns;
use pending_requests::PendingRequests;
use rows::Table;
use session_storage::SessionStorage;
use sts::Sts;
use windows::Windows;

// Whatever the memory held.
pub fn make_empty(m: &mut Memory)
    ensures { browser m.new ≡ empty_browser }
{
    Windows::clear(m);
    Documents::clear(m);
    Cookies::clear(m);
    LocalStorage::clear(m);
    SessionStorage::clear(m);
    Inputs::clear(m);
    PendingDns::clear(m);
    PendingRequests::clear(m);
    Sts::clear(m);
    browser::set_closed(m, false);
}
