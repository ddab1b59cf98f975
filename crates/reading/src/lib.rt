// An item, read from text: "An item is a list of three: event, choices, fresh numbers" (01 "The text").
#![tactic(auto)]

mod choices; // what a TRIGGER chooses: 000 A7 and A9
mod fresh; // the fresh numbers
mod items; // events and items
pub mod texts; // whole texts: the item, or refusal 1 or 2

pub use texts::read_item;
