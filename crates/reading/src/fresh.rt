// "Fresh numbers stand as window, request, dns, key, document" (01 "The text"), each at most once; 0 for one that is not given.
#![tactic(auto, using(csexp::proofs::Steps::readers))]

ghost use Rattle.csexp.specs.Answers.{Reads, Tries};
ghost use Rattle.csexp.specs.Decode.{labelled_of};
ghost use Rattle.shapes.specs.Items.{fresh_of};

use csexp::{At, labelled, mark};
use types::{DnsNumber, DocumentNumber, Fresh, KeyNumber, RequestNumber, WindowNumber};

// A number under this label, or 0 and the position itself.
fn fresh_number(s: &[u8], at: usize, label: &[u8]) -> At<u32>
    ensures { Tries 0 (λ n. n) (labelled_of label.now 1 4294967295) s.now at result }
{
    match labelled(s, at, label, 1, u32::MAX) {
        Some(n) => n,
        None => At { value: 0, next: at },
    }
}

// The list of the fresh numbers.
pub fn read_fresh(s: &[u8], at: usize) -> Option<At<Fresh>>
    ensures { Reads fresh_of s.now at result }
{
    let a = mark(s, at, b'(')?;
    let window = fresh_number(s, a, b"window");
    let request = fresh_number(s, window.next, b"request");
    let dns = fresh_number(s, request.next, b"dns");
    let key = fresh_number(s, dns.next, b"key");
    let document = fresh_number(s, key.next, b"document");
    let next = mark(s, document.next, b')')?;
    Some(At {
        value: Fresh {
            window: WindowNumber(window.value),
            request: RequestNumber(request.value),
            dns: DnsNumber(dns.value),
            key: KeyNumber(key.value),
            document: DocumentNumber(document.value),
        },
        next,
    })
}
