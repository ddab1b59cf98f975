// Which cookies may be set at all, and of each name the one that stands last, among the few that a script's step or an answer brings.
ghost use Rattle.std.specs.Prelude.{◌≡◌, Bool, ℕ, drop};
ghost use Rattle.types.specs.declared.cookies.Cookie.{Cookie};
ghost use Rattle.sorted.specs.Table.{keep};
ghost use Rattle.types.specs.Lists.{cookies_in};
ghost use Rattle.wim.specs.Cookies.{bad_prefix, named, latest};
ghost use Rattle.storing.specs.Setting.{may_set, sifted};

use types::Protocol;
use types::cookies::{Cookie, CookieName, SetCookies};

// As many as an answer or a script's step brings.
pub const FEW: usize = 4;

// Of few cookies those that pass a test, which is also told the place behind each.
pub fn kept<F: Fn(Cookie, usize) -> bool>(few: SetCookies, test: F) -> SetCookies
    requires { F.IsAlwaysCallable test }
    ensures { (p : Cookie → ℕ → Bool) → ((c : Cookie) (i : ℕ) (b : Bool) → F.post test c i b → b ≡ p c i) → cookies_in result ≡ sifted p 0 (cookies_in few) }
{
    let mut rows = few.rows;
    let mut count = 0;
    for i in 0..few.count.min(FEW) {
        let c = few.rows[i];
        if test(c, i + 1) {
            rows[count] = c;
            count += 1;
        }
    }
    SetCookies { rows, count }
}

fn bad_prefix(p: Protocol, c: Cookie) -> bool
    ensures { result ≡ bad_prefix p c }
{
    c.name.prefixed && (!labels::is_secure(p) || !c.secure)
}

fn may_set(script: bool, p: Protocol, c: Cookie) -> bool
    ensures { result ≡ may_set script p c }
{
    !(script && c.httponly || bad_prefix(p, c))
}

// Those that a script, or an answer, may set at all.
pub fn permitted(few: SetCookies, script: bool, p: Protocol) -> SetCookies
    ensures { cookies_in result ≡ keep (may_set script p) (cookies_in few) }
{
    kept(few, |c, _| may_set(script, p, c))
}

// Whether one of the cookies has a name, from one place on. A `for`, no chain: `iter().take().skip().any()` is no plainer, and left a goal.
fn named_from(few: SetCookies, from: usize, name: CookieName) -> bool
    ensures { result ≡ named name (drop from (cookies_in few)) }
{
    for i in from..few.count.min(FEW) {
        if labels::same_name(few.rows[i].name, name) {
            return true;
        }
    }
    false
}

// Of each name the cookie that stands last.
pub fn latest(few: SetCookies) -> SetCookies
    ensures { cookies_in result ≡ latest (cookies_in few) }
{
    kept(few, |c, behind| !named_from(few, behind, c.name))
}
