// Plays a run of items over a lent memory, portion by portion, with a line for each (01 "The player's run").
#![tactic(auto)]

mod looking; // what comes next in a portion: an item, or why there is none
mod lines; // the line of an item
mod items; // one item: the memory behind it, and its line
mod portions; // as many items as a portion has
mod window; // what was read of an input and is not yet played
mod feeding; // a run from an input that is open for reading

pub use feeding::play_all;
pub use looking::{Halt, LINE_BYTES};
pub use portions::{Played, play};
