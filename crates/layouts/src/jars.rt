// A Cookie header among numbers: its count, then 64 pairs of three numbers. Only pairs that count are read and written.
ghost use Rattle.std.specs.Prelude.{◌≡◌, take, drop};
ghost use Rattle.layouts.specs.Jars.{pair_from, jar_at, Wrote};

use super::single::{at, flag, flag_of, half, low, number};
use types::cookies::{CookieName, CookieValue, Jar, Pair};

const PAIRS: usize = 64;

// How many numbers a header takes.
const WIDE: usize = 193;

fn pair_at(c: &[u32], p: usize) -> Pair
    ensures { result ≡ pair_from (take 3 (drop p c.now)) }
{
    let n = half(at(c, p, 1));
    Pair {
        name: CookieName {
            prefixed: flag_of(at(c, p, 0)),
            number: n,
        },
        value: CookieValue(at(c, p, 2)),
    }
}

fn pair_numbers(x: Pair) -> [u32; 3]
    ensures { pair_from result ≡ x }
{
    let f = flag(x.name.prefixed);
    let n = low(x.name.number);
    [f, n, x.value.0]
}

pub fn read(c: &[u32], p: usize) -> Jar
    ensures { result ≡ jar_at p c.now }
{
    let mut out = labels::empty_jar();
    if p < c.len() {
        let n = (number(c, p) as usize).min(PAIRS);
        for i in 0..n {
            out.rows[i] = pair_at(c, p + 1 + i * 3);
        }
        out.count = n;
    }
    out
}

pub fn write(c: &mut [u32], p: usize, j: Jar)
    ensures { Wrote p j c.old c.new }
{
    if p <= c.len() && WIDE <= c.len() - p {
        let n = j.count.min(PAIRS);
        for i in 0..n {
            memory::store(c, p + 1 + i * 3, &pair_numbers(j.rows[i]));
        }
        c[p] = n as u32;
    }
}
