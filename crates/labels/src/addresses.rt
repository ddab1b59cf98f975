// Protocols and origins.
ghost use Rattle.std.specs.Prelude.{◌≡◌};
ghost use Rattle.tables.specs.Tables.{is_secure};
ghost use Rattle.tables.specs.Rows.{same_protocol, same_origin};

use types::{Origin, Protocol};

pub fn is_secure(p: Protocol) -> bool
    ensures { result ≡ is_secure p }
{
    p == Protocol::Secure
}

pub fn same_protocol(p: Protocol, q: Protocol) -> bool
    ensures { result ≡ same_protocol p q }
{
    p == q
}

pub fn same_origin(o: Origin, p: Origin) -> bool
    ensures { result ≡ same_origin o p }
{
    o == p
}
