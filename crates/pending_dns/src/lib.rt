// The requests that wait for their host's address, by number, in lent memory. Written by tools/tables.py.
#![tactic(auto)]

mod heads; // what tests look at

ghost use Rattle.std.specs.Prelude.{◌≡◌, ℕ};
ghost use Rattle.std.proofs.Common.{refl, rules};
ghost use Rattle.tables.specs.Tables.{pending_dns, cmp};
ghost use Rattle.tables.specs.Labels.{clean};
ghost use Rattle.rows.proofs.Clean.{clean_where_none};
ghost use Rattle.pending_dns.specs.Heads.{head_of, head_mentions};
ghost use Rattle.pending_dns.specs.Tidied.{tidied};
ghost use Rattle.layouts.specs.Rows.{question_of, question_of_with};

pub use heads::Head;
use rows::{Labelled, Table};
use std::cmp::Ordering;
use types::rows::Question;
use types::{Data, DnsNumber, Host, Label, Parameters, Path, Request, RequestNumber};

// How many rows there is room for.
pub const PENDING_DNS: usize = 16;

pub struct PendingDns;

impl Table for PendingDns {
    type Row = Question;

    type Head = Head;

    type Key = DnsNumber;

    const COUNT: usize = 2630;

    const WIDTH: usize = 220;

    const CAPACITY: usize = PENDING_DNS;

    ghost COUNT = { 2630 };

    ghost WIDTH = { 220 };

    ghost CAPACITY = { 16 };

    ghost decode = { question_of };

    ghost head_of = { head_of };

    ghost kept = { tidied };

    ghost Sort = { ℕ };

    ghost sort = { λ key. key.0 };

    ghost key_of = { λ h. h.number.0 };

    ghost cmp = { cmp pending_dns };

    fn read(c: &[u32]) -> Question {
        Question {
            number: DnsNumber(layouts::number(c, 0)),
            reference: layouts::reference_at(c, 1),
            request: Request {
                number: RequestNumber(layouts::number(c, 5)),
                method: layouts::method_of(layouts::number(c, 6)),
                host: Host(layouts::half(layouts::number(c, 7))),
                path: Path(layouts::half(layouts::number(c, 8))),
                parameters: Parameters(layouts::number(c, 9)),
                cookies: layouts::jars::read(c, 27),
                origin: layouts::origin_at(c, 10),
                referrer: layouts::referrer_at(c, 13),
                body: Data(layouts::number(c, 20)),
            },
            url: layouts::url_at(c, 21),
        }
    }

    fn glance(c: &[u32]) -> Head {
        Head {
            number: DnsNumber(layouts::number(c, 0)),
            reference: layouts::reference_at(c, 1),
            request: RequestNumber(layouts::number(c, 5)),
        }
    }

    fn write(c: &mut [u32], row: Question) {
        memory::store(c, 0, &numbers_of(row));
        layouts::jars::write(c, 27, row.request.cookies);
    }

    fn head(row: Question) -> Head {
        Head {
            number: row.number,
            reference: row.reference,
            request: row.request.number,
        }
    }

    fn key(h: Head) -> DnsNumber {
        h.number
    }

    fn order(a: DnsNumber, b: DnsNumber) -> Ordering {
        a.0.cmp(&b.0)
    }

    ghost fits = { Prim.search rules };

    ghost few = { Prim.search rules };

    ghost same_key = { λ row. refl };
}

impl Labelled for PendingDns {
    ghost mentions = { head_mentions };

    ghost clean = { clean pending_dns };

    fn mentions(h: Head, l: Label) -> bool {
        labels::same(l, Label::OfDns(h.number))
            || labels::same(l, Label::OfRequest(h.request))
            || labels::in_reference(l, h.reference)
    }

    ghost cleaned = { clean_where_none pending_dns };
}

// A row's numbers, all but its header's.
fn numbers_of(row: Question) -> [u32; 27]
    ensures { question_of_with result row.request.cookies ≡ row }
{
    let reference = layouts::reference_numbers(row.reference);
    let request_origin = layouts::origin_numbers(row.request.origin);
    let request_referrer = layouts::referrer_numbers(row.request.referrer);
    let url = layouts::url_numbers(row.url);
    [
        row.number.0,
        reference[0],
        reference[1],
        reference[2],
        reference[3],
        row.request.number.0,
        layouts::method_tag(row.request.method),
        layouts::low(row.request.host.0),
        layouts::low(row.request.path.0),
        row.request.parameters.0,
        request_origin[0],
        request_origin[1],
        request_origin[2],
        request_referrer[0],
        request_referrer[1],
        request_referrer[2],
        request_referrer[3],
        request_referrer[4],
        request_referrer[5],
        request_referrer[6],
        row.request.body.0,
        url[0],
        url[1],
        url[2],
        url[3],
        url[4],
        url[5],
    ]
}
