// Addresses: 000 Definitions 12 and 13.
#![tactic(auto, using(csexp::proofs::Steps::readers))]

ghost use Rattle.csexp.specs.Answers.{Reads};
ghost use Rattle.shapes.specs.Items.{protocol_of, fragment_of, url_of, origin_of};

use crate::numbers::short_number;
use csexp::{At, empty_list, mark, means, number, optional, word};
use types::{Fragment, Host, Origin, Parameters, Path, Protocol, Url};

// 1:P or 1:S
pub fn read_protocol(s: &[u8], at: usize) -> Option<At<Protocol>>
    ensures { Reads protocol_of s.now at result }
{
    means(s, at, b"P", Protocol::Plain).or_else(|| means(s, at, b"S", Protocol::Secure))
}

// () or a number from 1 on
pub fn read_fragment(s: &[u8], at: usize) -> Option<At<Fragment>>
    ensures { Reads fragment_of s.now at result }
{
    if let Some(next) = empty_list(s, at) {
        return Some(At { value: None, next });
    }
    Some(number(s, at, 1, u32::MAX)?.map(Some))
}

// (3:URL protocol host path parameters fragment)
pub fn read_url(s: &[u8], at: usize) -> Option<At<Url>>
    ensures { Reads url_of s.now at result }
{
    let a = mark(s, at, b'(')?;
    let b = word(s, a, b"URL")?;
    let protocol = read_protocol(s, b)?;
    let host = short_number(s, protocol.next, 1, u16::MAX)?;
    let path = short_number(s, host.next, 0, u16::MAX)?;
    let parameters = optional(s, path.next, u32::MAX)?;
    let fragment = read_fragment(s, parameters.next)?;
    let next = mark(s, fragment.next, b')')?;
    Some(At {
        value: Url {
            protocol: protocol.value,
            host: Host(host.value),
            path: Path(path.value),
            parameters: Parameters(parameters.value),
            fragment: fragment.value,
        },
        next,
    })
}

// (host protocol)
pub fn read_origin(s: &[u8], at: usize) -> Option<At<Origin>>
    ensures { Reads origin_of s.now at result }
{
    let a = mark(s, at, b'(')?;
    let host = short_number(s, a, 1, u16::MAX)?;
    let protocol = read_protocol(s, host.next)?;
    let next = mark(s, protocol.next, b')')?;
    Some(At {
        value: Origin {
            host: Host(host.value),
            protocol: protocol.value,
        },
        next,
    })
}
