// An address that a window is to show, as HTTP_SEND is given it: what urlbar and reload have in common (000 A9:27 to 29, 32 to 36).
ghost use Rattle.std.specs.Prelude.{◌≡◌};
ghost use Rattle.types.specs.declared.Reference.TheVariants.{Req};
ghost use Rattle.wim.specs.Main.{sending_to};

use types::{
    Data, Method, OriginHeader, Policy, Reference, Referrer, Sending, Url, Wants, WindowNumber,
};

// HTTP_SEND takes a request's number and a question's.
pub const SENDS: Wants = Wants {
    window: false,
    request: true,
    dns: true,
    key: false,
    document: false,
};

pub fn sending_to(w: WindowNumber, url: Url, referrer: Referrer) -> Sending
    ensures { result ≡ sending_to (Req w) url referrer }
{
    Sending {
        reference: Reference::Req(w),
        method: Method::Get,
        url,
        parameters: url.parameters,
        body: Data(0),
        origin: OriginHeader::Unsent,
        referrer,
        policy: Policy::Unset,
    }
}
