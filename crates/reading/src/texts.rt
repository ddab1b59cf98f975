// Whole texts: refusal 1 where a text is no canonical term within the limits, refusal 2 where the term is no item (01 "Refusal numbers").
ghost use Rattle.std.specs.Prelude.{◌≡◌};
ghost use Rattle.shapes.specs.Texts.{item_in};

use crate::items::item_at;
use csexp::{ITEM_BYTES, ITEM_LEVELS, whole};
use types::items::Item;
use types::refusals::Refusal;

// The item that a text is, or 1 or 2.
pub fn read_item(text: &[u8]) -> Result<Item, Refusal>
    ensures { result ≡ item_in text.now }
{
    if !whole(text, ITEM_BYTES, ITEM_LEVELS) {
        return Err(Refusal::BadText);
    }
    match item_at(text, 0) {
        Some(item) => Ok(item.value),
        None => Err(Refusal::BadShape),
    }
}
