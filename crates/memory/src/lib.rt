// A memory of numbers that is lent, and rows of numbers in it moved about. Nothing here knows what the numbers say.
#![tactic(auto)]

ghost use Rattle.std.specs.Prelude.{◌≡◌, min, get_or};
ghost use Rattle.memory.specs.Rows.{Stored, Carried, Lifted};

// Room for the nine tables, and behind them for what a browser has beside its tables.
pub const TOTAL: usize = 10240;

pub type Memory = [u32; TOTAL];

// One number; beyond the end there are zeros.
pub fn get(m: &Memory, i: usize) -> u32
    ensures { result ≡ get_or m.now i 0 }
{
    if i < TOTAL { m[i] } else { 0 }
}

// The count that stands at p; one beyond the capacity reads as the capacity.
pub fn used(m: &Memory, p: usize, capacity: usize) -> usize
    ensures { result ≡ min (get_or m.now p 0) capacity }
{
    (get(m, p) as usize).min(capacity)
}

// The numbers of c from p on, where there is room for all of them.
pub fn store(m: &mut [u32], p: usize, c: &[u32])
    ensures { Stored m.old p c.now m.new }
{
    if p <= m.len() && c.len() <= m.len() - p {
        m[p..p + c.len()].copy_from_slice(c);
    }
}

// The w numbers from p on, copied to a place that is not above.
pub fn carry(m: &mut Memory, p: usize, q: usize, w: usize)
    ensures { Carried m.old p q w m.new }
{
    if q <= p && p <= TOTAL && w <= TOTAL - p {
        m.copy_within(p..p + w, q);
    }
}

// The numbers from p to e, moved up by w.
pub fn shift(m: &mut Memory, p: usize, e: usize, w: usize)
    ensures { Lifted m.old p e w m.new }
{
    if p <= e && e <= TOTAL && w <= TOTAL - e {
        m.copy_within(p..e, p + w);
    }
}
