// Cookies: 000 Definition 14; "at most four cookies in one answer or from one script step" (01 "Numbers, names, sizes").
#![tactic(auto, using(csexp::proofs::Steps::readers), unfolding(csexp::specs::Decode::labelled_of))]

ghost use Rattle.csexp.specs.Answers.{Reads};
ghost use Rattle.csexp.specs.Decode.{labelled_of};
ghost use Rattle.csexp.specs.Text.{text};
ghost use Rattle.shapes.specs.Items.{flag_of, name_of, content_of, cookie_of, cookies_of};
ghost use Rattle.reading_parts.specs.Gathered.{Gathered};

use crate::numbers::short_number;
use csexp::{At, mark, number, word};
use types::cookies::{Cookie, CookieName, CookieValue, SetCookies};

// 1:T or 1:F
pub fn read_flag(s: &[u8], at: usize) -> Option<At<bool>>
    ensures { Reads flag_of s.now at result }
{
    if let Some(next) = word(s, at, b"T") {
        return Some(At { value: true, next });
    }
    let next = word(s, at, b"F")?;
    Some(At { value: false, next })
}

// a number, or (6:__Host number)
pub fn read_name(s: &[u8], at: usize) -> Option<At<CookieName>>
    ensures { Reads name_of s.now at result }
{
    if let Some(n) = short_number(s, at, 0, u16::MAX) {
        return Some(At {
            value: CookieName {
                prefixed: false,
                number: n.value,
            },
            next: n.next,
        });
    }
    let n = host_number(s, at)?;
    Some(At {
        value: CookieName {
            prefixed: true,
            number: n.value,
        },
        next: n.next,
    })
}

// (6:__Host number)
fn host_number(s: &[u8], at: usize) -> Option<At<u16>>
    ensures { Reads (labelled_of (text "__Host") 0 65535) s.now at result }
{
    let a = mark(s, at, b'(')?;
    let b = word(s, a, b"__Host")?;
    let n = short_number(s, b, 0, u16::MAX)?;
    let next = mark(s, n.next, b')')?;
    Some(At {
        value: n.value,
        next,
    })
}

// (value secure session httpOnly), of the cookie with this name
fn read_content(s: &[u8], at: usize, name: CookieName) -> Option<At<Cookie>>
    ensures { Reads (content_of name) s.now at result }
{
    let a = mark(s, at, b'(')?;
    let value = number(s, a, 0, u32::MAX)?;
    let secure = read_flag(s, value.next)?;
    let session = read_flag(s, secure.next)?;
    let httponly = read_flag(s, session.next)?;
    let next = mark(s, httponly.next, b')')?;
    Some(At {
        value: Cookie {
            name,
            value: CookieValue(value.value),
            secure: secure.value,
            session: session.value,
            httponly: httponly.value,
        },
        next,
    })
}

// (name content)
pub fn read_cookie(s: &[u8], at: usize) -> Option<At<Cookie>>
    ensures { Reads cookie_of s.now at result }
{
    let a = mark(s, at, b'(')?;
    let name = read_name(s, a)?;
    let cookie = read_content(s, name.next, name.value)?;
    let next = mark(s, cookie.next, b')')?;
    Some(At {
        value: cookie.value,
        next,
    })
}

// What stands in the rows past the last cookie.
const BLANK: Cookie = Cookie {
    name: CookieName {
        prefixed: false,
        number: 0,
    },
    value: CookieValue(0),
    secure: false,
    session: false,
    httponly: false,
};

// The cookies of a message that brings none.
pub const NO_COOKIES: SetCookies = SetCookies {
    rows: [BLANK; 4],
    count: 0,
};

// At most four cookies up to a ')', and blank ones behind them.
fn more_cookies(s: &[u8], at: usize) -> Option<At<SetCookies>>
    ensures { Gathered s.now at result }
{
    let mut value = NO_COOKIES;
    let mut next = at;
    loop {
        if let Some(end) = mark(s, next, b')') {
            return Some(At { value, next: end });
        }
        if value.count == 4 {
            return None;
        }
        let cookie = read_cookie(s, next)?;
        value.rows[value.count] = cookie.value;
        value.count += 1;
        next = cookie.next;
    }
}

// A list of at most four cookies.
pub fn read_cookies(s: &[u8], at: usize) -> Option<At<SetCookies>>
    ensures { Reads cookies_of s.now at result }
{
    let a = mark(s, at, b'(')?;
    more_cookies(s, a)
}
