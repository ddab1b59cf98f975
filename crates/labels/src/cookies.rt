// Cookies.
ghost use Rattle.std.specs.Prelude.{◌≡◌};
ghost use Rattle.tables.specs.Rows.{same_name, goes_over, pair_of};

use super::addresses::is_secure;
use types::Protocol;
use types::cookies::{Cookie, CookieName, Pair};
use types::rows::HostCookie;

pub fn same_name(m: CookieName, n: CookieName) -> bool
    ensures { result ≡ same_name m n }
{
    m == n
}

pub fn goes_over(p: Protocol, c: Cookie) -> bool
    ensures { result ≡ goes_over p c }
{
    !c.secure || is_secure(p)
}

pub fn pair_of(row: HostCookie) -> Pair
    ensures { result ≡ pair_of row }
{
    Pair {
        name: row.cookie.name,
        value: row.cookie.value,
    }
}
