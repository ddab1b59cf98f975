// The cookies that a script may see (000 A7:3): those of its document's host, without the httpOnly ones, and secure ones only over S.
ghost use Rattle.std.specs.Prelude.{◌≡◌};
ghost use Rattle.csexp.specs.Term.{list};
ghost use Rattle.csexp.specs.Encode.{each};
ghost use Rattle.csexp.specs.Puts.{Writes};
ghost use Rattle.sorted.specs.Table.{keep};
ghost use Rattle.memory.specs.Rows.{table};
ghost use Rattle.layouts.specs.Tables.{host_cookies_in};
ghost use Rattle.wim.specs.Shown.{cookie_term};
ghost use Rattle.exhibit_parts.specs.Kept.{is_open_to};

use cookies::Cookies;
use csexp::write::{close_list, open_list};
use memory::Memory;
use rows::Table;
use types::Origin;
use types::rows::HostCookie;
use writing::cookies::write_pair;

fn is_open_to(row: HostCookie, origin: Origin) -> bool
    ensures { result ≡ is_open_to origin row }
{
    row.host == origin.host
        && !row.cookie.httponly
        && labels::goes_over(origin.protocol, row.cookie)
}

// (name value)
fn write_cookie(out: &mut [u8], at: usize, row: HostCookie) -> usize
    ensures { Writes (cookie_term row) out.old at out.new result }
{
    write_pair(out, at, labels::pair_of(row))
}

pub fn write_cookies(m: &Memory, out: &mut [u8], at: usize, origin: Origin) -> usize
    ensures { Writes (list (each cookie_term (keep (is_open_to origin) (table host_cookies_in m.now)))) out.old at out.new result }
{
    let mut p = open_list(out, at);
    for i in 0..Cookies::size(m) {
        let row = Cookies::row(m, i);
        if is_open_to(row, origin) {
            p = write_cookie(out, p, row);
        }
    }
    close_list(out, p)
}
