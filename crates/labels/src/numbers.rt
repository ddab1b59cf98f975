// A number among some numbers.
ghost use Rattle.std.specs.Prelude.{◌≡◌};
ghost use Rattle.types.specs.Lists.{window_numbers, document_numbers};
ghost use Rattle.tables.specs.Rows.{one_of, window_one_of};

use types::{DocumentNumber, DocumentNumbers, WindowNumber, WindowNumbers};

pub fn one_of(n: DocumentNumber, s: DocumentNumbers) -> bool
    ensures { result ≡ one_of n (document_numbers s) }
{
    s.rows[..s.count.min(s.rows.len())].contains(&n)
}

pub fn window_one_of(v: WindowNumber, s: WindowNumbers) -> bool
    ensures { result ≡ window_one_of v (window_numbers s) }
{
    s.rows[..s.count.min(s.rows.len())].contains(&v)
}
