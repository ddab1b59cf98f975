// What stands in rows, compared: labels, and what else the tests of the tables ask.
#![tactic(auto)]

pub mod addresses; // hosts, protocols, origins
pub mod blank; // what fills a place of which nothing is said
pub mod cookies; // names of cookies, and where a cookie goes
pub mod mentions; // whether a label stands in a part of a row
pub mod numbers; // numbers among some numbers
pub mod references; // references, and the keys of requests

pub use addresses::{is_secure, same_origin, same_protocol};
pub use blank::{empty_jar, no_request, no_url};
pub use cookies::{goes_over, pair_of, same_name};
pub use mentions::{in_news, in_opener, in_parent, in_reference, in_seal, number, same};
pub use numbers::{one_of, window_one_of};
pub use references::{has_key, has_no_key, same_matching, same_reference};
