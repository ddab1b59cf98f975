// What a script's step or an answer stores: cookies (000 Definitions 36 and 37), local and session storage, and what a script hears next.
#![tactic(auto)]

mod setting; // which cookies may be set at all
pub mod scene; // what a step of a script stands on, and what it stores

ghost use Rattle.std.specs.Prelude.{◌≡◌, not, [], ◌∷◌};
ghost use Rattle.types.specs.declared.cookies.Cookie.{Cookie};
ghost use Rattle.types.specs.declared.rows.HostCookie.{HostCookie};
ghost use Rattle.sorted.specs.Table.{keep};
ghost use Rattle.types.specs.Lists.{cookies_in};
ghost use Rattle.tables.specs.Tables.{cookies, local_storage, session_storage, apply};
ghost use Rattle.tables.specs.Rows.{same_host};
ghost use Rattle.wim.specs.Cookies.{bad_prefix, guarded, cookie_merge, store_all};
ghost use Rattle.wim.specs.Script.{store_local, store_session};
ghost use Rattle.memory.specs.Rows.{table};
ghost use Rattle.layouts.specs.Tables.{host_cookies_in, inputs_in};
ghost use Rattle.stepping.specs.Holds.{Carries};
ghost use Rattle.storing.specs.Next.{next_input};

use cookies::Cookies;
use inputs::Inputs;
use local_storage::LocalStorage;
use memory::Memory;
use rows::Table;
use session_storage::SessionStorage;
use types::cookies::{Cookie, SetCookies};
use types::items::Stored;
use types::rows::{Input, LocalValue, News, SessionValue};
use types::{DocumentNumber, Host, Origin, Protocol, WindowNumber};

// Whether the host has an httpOnly cookie with the same name.
fn is_guarded(m: &Memory, h: Host, c: Cookie) -> bool
    ensures { result ≡ guarded (keep (λ (o : HostCookie). same_host o.host h) (table host_cookies_in m.now)) c }
{
    Cookies::first(
        m,
        |old| old.host == h && labels::same_name(old.cookie.name, c.name) && old.cookie.httponly,
    )
    .is_some()
}

// Definition 36: which of a script's cookies are stored, where h is the host of the script's document.
pub fn merge(m: &Memory, h: Host, few: SetCookies, p: Protocol) -> SetCookies
    ensures { cookies_in result ≡ cookie_merge (keep (λ (o : HostCookie). same_host o.host h) (table host_cookies_in m.now)) (cookies_in few) p }
{
    let last = setting::latest(setting::permitted(few, true, p));
    setting::kept(last, |c, _| !is_guarded(m, h, c))
}

// Definition 37: which of an answer's cookies are stored.
pub fn taken(few: SetCookies, p: Protocol) -> SetCookies
    ensures { cookies_in result ≡ keep (λ (c : Cookie). not (bad_prefix p c)) (cookies_in few) }
{
    setting::permitted(few, false, p)
}

// The cookies of one host, one after the other.
pub fn put_cookies(m: &mut Memory, h: Host, few: SetCookies) -> bool
    ensures { Carries (apply cookies (store_all h (cookies_in few))) (cookies ∷ []) [] m.old m.new result }
{
    cookies::put_all(m, h, few)
}

// A storage value 0 has no row (000 A7:12; 01 "Numbers, names, sizes").
pub fn store_local(m: &mut Memory, o: Origin, v: Stored) -> bool
    ensures { Carries (apply local_storage (store_local o v)) (local_storage ∷ []) (local_storage ∷ []) m.old m.new result }
{
    if v.0 == 0 {
        LocalStorage::remove(m, o);
        true
    } else {
        let row = LocalValue {
            origin: o,
            value: v,
        };
        LocalStorage::put(m, row)
    }
}

// The same of session storage, by the top-level window (000 A7:13).
pub fn store_session(m: &mut Memory, o: Origin, top: WindowNumber, v: Stored) -> bool
    ensures { Carries (apply session_storage (store_session o top v)) (session_storage ∷ []) (session_storage ∷ []) m.old m.new result }
{
    if v.0 == 0 {
        SessionStorage::remove(m, (o, top));
        true
    } else {
        let row = SessionValue {
            origin: o,
            top,
            value: v,
        };
        SessionStorage::put(m, row)
    }
}

// What a script hears, an XHR's answer or a message, is filed as the next input of its document.
pub fn next_input(m: &Memory, n: DocumentNumber, news: News) -> Input
    ensures { result ≡ next_input n news (table inputs_in m.now) }
{
    let earlier = Inputs::tally(m, |i| i.document == n);
    Input {
        document: n,
        arrival: earlier as u32 + 1,
        news,
    }
}
