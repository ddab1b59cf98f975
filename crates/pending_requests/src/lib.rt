// The requests that wait for their answer, by number, in lent memory. Written by tools/tables.py.
#![tactic(auto)]

mod heads; // what tests look at

ghost use Rattle.std.specs.Prelude.{◌≡◌, ℕ};
ghost use Rattle.std.proofs.Common.{refl, rules};
ghost use Rattle.tables.specs.Tables.{pending_requests, cmp};
ghost use Rattle.tables.specs.Labels.{clean};
ghost use Rattle.rows.proofs.Clean.{clean_where_none};
ghost use Rattle.pending_requests.specs.Heads.{head_of, head_mentions};
ghost use Rattle.pending_requests.specs.Tidied.{tidied};
ghost use Rattle.layouts.specs.Rows.{waiting_of, waiting_of_with};

pub use heads::Head;
use rows::{Labelled, Table};
use std::cmp::Ordering;
use types::rows::Waiting;
use types::{Address, Data, Host, Label, Parameters, Path, Request, RequestNumber};

// How many rows there is room for.
pub const PENDING_REQUESTS: usize = 16;

pub struct PendingRequests;

impl Table for PendingRequests {
    type Row = Waiting;

    type Head = Head;

    type Key = RequestNumber;

    const COUNT: usize = 6151;

    const WIDTH: usize = 222;

    const CAPACITY: usize = PENDING_REQUESTS;

    ghost COUNT = { 6151 };

    ghost WIDTH = { 222 };

    ghost CAPACITY = { 16 };

    ghost decode = { waiting_of };

    ghost head_of = { head_of };

    ghost kept = { tidied };

    ghost Sort = { ℕ };

    ghost sort = { λ key. key.0 };

    ghost key_of = { λ h. h.request.0 };

    ghost cmp = { cmp pending_requests };

    fn read(c: &[u32]) -> Waiting {
        Waiting {
            reference: layouts::reference_at(c, 0),
            request: Request {
                number: RequestNumber(layouts::number(c, 4)),
                method: layouts::method_of(layouts::number(c, 5)),
                host: Host(layouts::half(layouts::number(c, 6))),
                path: Path(layouts::half(layouts::number(c, 7))),
                parameters: Parameters(layouts::number(c, 8)),
                cookies: layouts::jars::read(c, 29),
                origin: layouts::origin_at(c, 9),
                referrer: layouts::referrer_at(c, 12),
                body: Data(layouts::number(c, 19)),
            },
            url: layouts::url_at(c, 20),
            seal: layouts::seal_at(c, 26),
            address: Address(layouts::half(layouts::number(c, 28))),
        }
    }

    fn glance(c: &[u32]) -> Head {
        Head {
            reference: layouts::reference_at(c, 0),
            request: RequestNumber(layouts::number(c, 4)),
            seal: layouts::seal_at(c, 26),
        }
    }

    fn write(c: &mut [u32], row: Waiting) {
        memory::store(c, 0, &numbers_of(row));
        layouts::jars::write(c, 29, row.request.cookies);
    }

    fn head(row: Waiting) -> Head {
        Head {
            reference: row.reference,
            request: row.request.number,
            seal: row.seal,
        }
    }

    fn key(h: Head) -> RequestNumber {
        h.request
    }

    fn order(a: RequestNumber, b: RequestNumber) -> Ordering {
        a.0.cmp(&b.0)
    }

    ghost fits = { Prim.search rules };

    ghost few = { Prim.search rules };

    ghost same_key = { λ row. refl };
}

impl Labelled for PendingRequests {
    ghost mentions = { head_mentions };

    ghost clean = { clean pending_requests };

    fn mentions(h: Head, l: Label) -> bool {
        labels::same(l, Label::OfRequest(h.request))
            || labels::in_seal(l, h.seal)
            || labels::in_reference(l, h.reference)
    }

    ghost cleaned = { clean_where_none pending_requests };
}

// A row's numbers, all but its header's.
fn numbers_of(row: Waiting) -> [u32; 29]
    ensures { waiting_of_with result row.request.cookies ≡ row }
{
    let reference = layouts::reference_numbers(row.reference);
    let request_origin = layouts::origin_numbers(row.request.origin);
    let request_referrer = layouts::referrer_numbers(row.request.referrer);
    let url = layouts::url_numbers(row.url);
    let seal = layouts::seal_numbers(row.seal);
    [
        reference[0],
        reference[1],
        reference[2],
        reference[3],
        row.request.number.0,
        layouts::method_tag(row.request.method),
        layouts::low(row.request.host.0),
        layouts::low(row.request.path.0),
        row.request.parameters.0,
        request_origin[0],
        request_origin[1],
        request_origin[2],
        request_referrer[0],
        request_referrer[1],
        request_referrer[2],
        request_referrer[3],
        request_referrer[4],
        request_referrer[5],
        request_referrer[6],
        row.request.body.0,
        url[0],
        url[1],
        url[2],
        url[3],
        url[4],
        url[5],
        seal[0],
        seal[1],
        layouts::low(row.address.0),
    ]
}
