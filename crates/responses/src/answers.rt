// 000 A9:55 to 63: an HTTP answer comes in, encrypted or plain.
ghost use Rattle.types.specs.Lists.{cookies_in};
ghost use Rattle.wim.specs.Program.{ask, keyless, keyed};
ghost use Rattle.wim.specs.Main.{encrypted_answer, plain_answer};
ghost use Rattle.stepping.specs.Performs.{Performs};

use crate::responses::process_response;
use memory::Memory;
use pending_requests::PendingRequests;
use rows::Table;
use stepping::Performed;
use types::answers::Answer;
use types::cookies::SetCookies;
use types::refusals::{Missing, Refusal};
use types::{Fresh, KeyNumber};

// A9:61 to 63: found by its number among the requests without a key.
pub fn plain_answer(m: &mut Memory, a: Answer, few: SetCookies, f: Fresh) -> Performed
    ensures { Performs (ask (keyless a.number) (plain_answer a (cookies_in few))) f m.old m.new result }
{
    let found = PendingRequests::first(m, |h| h.request == a.number && labels::has_no_key(h.seal));
    let w = found.ok_or(Missing::NoRequest)?;
    process_response(m, w, a, few, f)
}

// A9:55 to 60: found by its key; what was encrypted for a request must carry its number.
pub fn encrypted_answer(
    m: &mut Memory,
    k: KeyNumber,
    a: Answer,
    few: SetCookies,
    f: Fresh,
) -> Performed
    ensures { Performs (ask (keyed k) (encrypted_answer a (cookies_in few))) f m.old m.new result }
{
    let found = PendingRequests::first(m, |h| labels::has_key(k, h.seal));
    let w = found.ok_or(Missing::NoRequest)?;
    if a.number != w.request.number {
        return Err(Refusal::Lacking(Missing::Mismatch));
    }
    process_response(m, w, a, few, f)
}
