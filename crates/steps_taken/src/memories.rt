// How a memory is made that no step has made.
use memory::Memory;

fn below(n: u32, bound: u32) -> u32 {
    if bound == 0 { 0 } else { n % bound }
}

// One number. Beyond the end there is none.
pub fn put(m: &mut Memory, place: usize, n: u32) {
    if place < m.len() {
        m[place] = n;
    }
}

// Numbers that look like any: each is the sum of the two before it, modulo 2^32, and then taken modulo the bound.
pub fn fill(m: &mut Memory, bound: u32) {
    let mut a: u32 = 2654435769;
    let mut b: u32 = 3405691582;
    for number in m.iter_mut() {
        let c = a.wrapping_add(b);
        *number = below(c, bound);
        a = b;
        b = c;
    }
}
