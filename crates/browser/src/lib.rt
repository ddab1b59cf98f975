// The browser that a memory holds: open or closed, with how much room. Its tables are read and written by crates of their own.
#![tactic(auto)]

ghost use Rattle.std.specs.Prelude.{◌≡◌};
ghost use Rattle.browser.specs.View.{is_closed, is_roomy, browser, with_closed};

use cookies::{COOKIES, Cookies};
use documents::{DOCUMENTS, Documents};
use inputs::{INPUTS, Inputs};
use local_storage::{LOCAL_STORAGE, LocalStorage};
use memory::Memory;
use pending_dns::{PENDING_DNS, PendingDns};
use pending_requests::{PENDING_REQUESTS, PendingRequests};
use rows::Table;
use session_storage::{SESSION_STORAGE, SessionStorage};
use sts::{STS, Sts};
use windows::{WINDOWS, Windows};

// The last number.
const CLOSED: usize = memory::TOTAL - 1;

pub fn is_closed(m: &Memory) -> bool
    ensures { result ≡ is_closed m.now }
{
    memory::get(m, CLOSED) != 0
}

pub fn set_closed(m: &mut Memory, closed: bool)
    ensures { browser m.new ≡ with_closed closed (browser m.old) }
{
    m[CLOSED] = u32::from(closed);
}

// Whether every table has four free rows: no step puts more into one.
pub fn is_roomy(m: &Memory) -> bool
    ensures { result ≡ is_roomy m.now }
{
    Windows::size(m) <= WINDOWS - 4
        && Documents::size(m) <= DOCUMENTS - 4
        && Cookies::size(m) <= COOKIES - 4
        && LocalStorage::size(m) <= LOCAL_STORAGE - 4
        && SessionStorage::size(m) <= SESSION_STORAGE - 4
        && Inputs::size(m) <= INPUTS - 4
        && PendingDns::size(m) <= PENDING_DNS - 4
        && PendingRequests::size(m) <= PENDING_REQUESTS - 4
        && Sts::size(m) <= STS - 4
}
