// A step in place (000 Algorithm 9), of a browser that is open.
#![tactic(auto)]

mod events; // each event by its own function
mod acting; // the step of an item: open or closed behind it

pub use acting::act;
pub use events::happen;
