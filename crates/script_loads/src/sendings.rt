// What goes out by each command: the script's document is the referrer (A7:15), and its policy goes with it (A7:16).
ghost use Rattle.std.specs.Prelude.{◌≡◌};
ghost use Rattle.types.specs.declared.Method.TheVariants.{Get};
ghost use Rattle.types.specs.declared.OriginHeader.TheVariants.{Unsent, From};
ghost use Rattle.types.specs.declared.Reference.TheVariants.{Req};
ghost use Rattle.tables.specs.Rows.{origin_of};
ghost use Rattle.wim.specs.Script.{no_data, sending_from, href_policy, form_sending, xhr_sending};

use sending::request_tests::{is_get, is_get_or_head};
use types::rows::Document;
use types::{
    Data, Method, OriginHeader, Parameters, Policy, Reference, Sending, Url, WindowNumber,
};

// Neither data in a body nor an Origin.
fn bodiless(
    d: Document,
    reference: Reference,
    method: Method,
    url: Url,
    parameters: Parameters,
    policy: Policy,
) -> Sending
    ensures { result ≡ sending_from d reference method url parameters no_data Unsent policy }
{
    Sending {
        reference,
        method,
        url,
        parameters,
        body: Data(0),
        origin: OriginHeader::Unsent,
        referrer: Some(d.location),
        policy,
    }
}

// Data in the body, and the Origin with it.
fn with_body(d: Document, reference: Reference, method: Method, url: Url, data: Data) -> Sending
    ensures { result ≡ sending_from d reference method url url.parameters «data» (From (origin_of d)) d.policy }
{
    Sending {
        body: data,
        origin: OriginHeader::From(walks::origin_of(d)),
        ..bodiless(d, reference, method, url, url.parameters, d.policy)
    }
}

// A7:21 to 24, of a link, and A7:32, of a frame, which has no noreferrer.
pub fn page_sending(d: Document, url: Url, noreferrer: bool, v: WindowNumber) -> Sending
    ensures { result ≡ sending_from d (Req v) Get url url.parameters no_data Unsent (href_policy noreferrer d) }
{
    let policy = if noreferrer {
        Policy::NoReferrer
    } else {
        d.policy
    };
    bodiless(
        d,
        Reference::Req(v),
        Method::Get,
        url,
        url.parameters,
        policy,
    )
}

// A7:41 to 49: the data of a GET goes into the parameters, of a POST into the body.
pub fn form_sending(
    d: Document,
    url: Url,
    method: Method,
    data: Data,
    reference: Reference,
) -> Sending
    ensures { result ≡ form_sending d url method «data» reference }
{
    if is_get(method) {
        bodiless(d, reference, method, url, Parameters(data.0), d.policy)
    } else {
        with_body(d, reference, method, url, data)
    }
}

// A7:65 to 70: the data of a GET or a HEAD goes nowhere.
pub fn xhr_sending(
    d: Document,
    url: Url,
    method: Method,
    data: Data,
    reference: Reference,
) -> Sending
    ensures { result ≡ xhr_sending d url method «data» reference }
{
    if is_get_or_head(method) {
        bodiless(d, reference, method, url, url.parameters, d.policy)
    } else {
        with_body(d, reference, method, url, data)
    }
}
