// References, and the keys of requests that wait.
ghost use Rattle.std.specs.Prelude.{◌≡◌};
ghost use Rattle.tables.specs.Rows.{same_matching, same_reference, has_key, has_no_key};

use types::{KeyNumber, Matching, Reference, Seal};

pub fn same_matching(m: Matching, n: Matching) -> bool
    ensures { result ≡ same_matching m n }
{
    m == n
}

pub fn same_reference(p: Reference, q: Reference) -> bool
    ensures { result ≡ same_reference p q }
{
    p == q
}

pub fn has_key(k: KeyNumber, s: Seal) -> bool
    ensures { result ≡ has_key k s }
{
    s == Some(k)
}

pub fn has_no_key(s: Seal) -> bool
    ensures { result ≡ has_no_key s }
{
    s.is_none()
}
