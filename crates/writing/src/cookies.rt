// The Cookie header: 01 "Cookie is always there, even empty".
#![tactic(auto, using(csexp::proofs::write::Steps::writers))]

ghost use Rattle.csexp.specs.Encode.{each};
ghost use Rattle.csexp.specs.Puts.{Writes, Items};
ghost use Rattle.types.specs.Lists.{header_pairs};
ghost use Rattle.shapes.specs.Events.{name_term, pair_term, cookie_header};

use csexp::write::{close_list, labelled, number, open_list, open_word};
use types::cookies::{CookieName, Jar, Pair};

// A number, or (6:__Host number)
pub fn write_name(out: &mut [u8], at: usize, name: CookieName) -> usize
    ensures { Writes (name_term name) out.old at out.new result }
{
    if name.prefixed {
        labelled(out, at, b"__Host", name.number as u32)
    } else {
        number(out, at, name.number as u32)
    }
}

// (name value)
pub fn write_pair(out: &mut [u8], at: usize, pair: Pair) -> usize
    ensures { Writes (pair_term pair) out.old at out.new result }
{
    let a = open_list(out, at);
    let b = write_name(out, a, pair.name);
    let c = number(out, b, pair.value.0);
    close_list(out, c)
}

// The first `count` pairs, one behind the other; a count beyond 64 is read as 64.
pub fn pair_items(out: &mut [u8], at: usize, jar: Jar) -> usize
    ensures { Items (each pair_term (header_pairs jar)) out.old at out.new result }
{
    let mut p = at;
    for pair in &jar.rows[..jar.count.min(jar.rows.len())] {
        p = write_pair(out, p, *pair);
    }
    p
}

// (6:Cookie (pair ..))
pub fn write_cookies(out: &mut [u8], at: usize, jar: Jar) -> usize
    ensures { Writes (cookie_header jar) out.old at out.new result }
{
    let a = open_word(out, at, b"Cookie");
    let b = open_list(out, a);
    let c = pair_items(out, b, jar);
    let d = close_list(out, c);
    close_list(out, d)
}
