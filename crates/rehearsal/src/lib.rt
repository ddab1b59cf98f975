// The product's face: a step on an item's text over a lent memory, and a memory made empty.
#![tactic(auto)]

mod beginning; // the empty open browser
mod numbers; // 01's number of a verdict
mod telling; // the event in the lent buffer: 7
mod steps; // the step on text: "Order: 1, 2, 8, 3, 4, 5, 6, 7"

pub use beginning::make_empty;
pub use numbers::number;
pub use steps::step;
pub use telling::Rehearsed;
