// Parts of rows, read from numbers and written as numbers. Any numbers say something; a writer's contract says what is read again.
#![tactic(auto)]

pub mod single; // what one number says
pub mod kin; // parents, openers, the key of a request
pub mod addresses; // origins, addresses, referrers
pub mod waiting; // references of requests, a script's news
pub mod jars; // Cookie headers

pub use addresses::{
    origin_at, origin_numbers, referrer_at, referrer_numbers, site_at, site_numbers, url_at,
    url_numbers,
};
pub use kin::{opener_at, opener_numbers, parent_at, parent_numbers, seal_at, seal_numbers};
pub use single::{
    flag, flag_of, half, low, method_of, method_tag, number, policy_of, policy_tag, protocol_of,
    protocol_tag,
};
pub use waiting::{body_at, body_numbers, news_at, news_numbers, reference_at, reference_numbers};
