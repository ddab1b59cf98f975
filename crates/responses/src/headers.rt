// 000 A8:2 to 6, with A9:59 and 62: the request no longer waits, and the headers of its answer are acted upon.
ghost use Rattle.std.specs.Prelude.{[], ◌∷◌};
ghost use Rattle.types.specs.Lists.{cookies_in};
ghost use Rattle.tables.specs.Tables.{cookies, pending_requests, sts, apply};
ghost use Rattle.wim.specs.Response.{strict_host};
ghost use Rattle.stepping.specs.Holds.{Carries};
ghost use Rattle.responses.specs.Acted.{acted};

use memory::Memory;
use pending_requests::PendingRequests;
use rows::Table;
use sts::Sts;
use types::answers::Answer;
use types::cookies::SetCookies;
use types::rows::{StrictHost, Waiting};

// A8:5, 6: the header Strict-Transport-Security counts over S alone.
fn put_strict(m: &mut Memory, w: Waiting, a: Answer) -> bool
    ensures { Carries (apply sts (strict_host w a)) (sts ∷ []) [] m.old m.new result }
{
    if a.strict && labels::is_secure(w.url.protocol) {
        let host = w.request.host;
        Sts::put(m, StrictHost { host })
    } else {
        true
    }
}

// Cookies with a bad prefix are left out (A8:2 to 4).
pub fn act_on_headers(m: &mut Memory, w: Waiting, a: Answer, few: SetCookies) -> bool
    ensures { Carries (acted w a (cookies_in few)) (sts ∷ cookies ∷ []) (pending_requests ∷ []) m.old m.new result }
{
    PendingRequests::remove(m, w.request.number);
    let good = storing::taken(few, w.url.protocol);
    let stored = storing::put_cookies(m, w.request.host, good);
    let strict = put_strict(m, w, a);
    stored && strict
}
