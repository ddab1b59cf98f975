// What redirects and scripts ask of a request: which methods a command takes, which carry their data in the body, and whose an address is.
ghost use Rattle.std.specs.Prelude.{◌≡◌};
ghost use Rattle.wim.specs.Script.{is_form_method, is_get, is_forbidden, is_get_or_head, url_origin};

use types::{Method, Origin, Url};

// A7:37
pub fn is_form_method(m: Method) -> bool
    ensures { result ≡ is_form_method m }
{
    matches!(m, Method::Get | Method::Post)
}

// A7:41
pub fn is_get(m: Method) -> bool
    ensures { result ≡ is_get m }
{
    matches!(m, Method::Get)
}

// A7:61
pub fn is_forbidden(m: Method) -> bool
    ensures { result ≡ is_forbidden m }
{
    matches!(m, Method::Connect | Method::Trace)
}

// A7:65, A8:21
pub fn is_get_or_head(m: Method) -> bool
    ensures { result ≡ is_get_or_head m }
{
    matches!(m, Method::Get | Method::Head)
}

pub fn url_origin(u: Url) -> Origin
    ensures { result ≡ url_origin u }
{
    Origin {
        host: u.host,
        protocol: u.protocol,
    }
}
