// Bytes sought one by one: what the programs that read lines share.
#![tactic(auto)]

mod filling; // what the input has, in a buffer

ghost use Rattle.std.specs.Prelude.{ℕ, Bool, ◌≤◌, length};
ghost use Rattle.seeking.specs.Sought.{Decides, Sought, is, is_another};

pub use filling::read_full;

// The first place from `at` on where a byte passes the test, or the end.
fn first<F: Fn(u8) -> bool>(s: &[u8], at: usize, test: F) -> usize
    requires { F.IsAlwaysCallable test }
    ensures first { (p : ℕ → Bool) → Decides (F.post test) p → Sought p s.now at result }
    ensures from { at ≤ result }
    ensures within { at ≤ length s.now → result ≤ length s.now }
{
    for i in at..s.len() {
        if test(s[i]) {
            return i;
        }
    }
    at.max(s.len())
}

// The first place from `at` on where the byte b stands, or the end.
pub fn find(s: &[u8], at: usize, b: u8) -> usize
    ensures first { Sought (is b) s.now at result }
    ensures from { at ≤ result }
    ensures within { at ≤ length s.now → result ≤ length s.now }
{
    first(s, at, |x| x == b)
}

// The first place from `at` on where another byte than b stands, or the end.
pub fn pass(s: &[u8], at: usize, b: u8) -> usize
    ensures first { Sought (is_another b) s.now at result }
    ensures from { at ≤ result }
    ensures within { at ≤ length s.now → result ≤ length s.now }
{
    first(s, at, |x| x != b)
}

#[cfg(test)]
mod tests {
    use super::{find, pass};

    #[test]
    fn finds_from_a_place_on(rt: HostRuntime) {
        assert_eq!(rt; find(b"a.b..", 2, b'.'), 3);
        assert_eq!(rt; pass(b"a.b..", 3, b'.'), 5);
        assert_eq!(rt; find(b"a.b..", 7, b'.'), 7);
    }
}
