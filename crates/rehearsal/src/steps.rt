// A step on an item's text, with a buffer for the event: "Order: 1, 2, 8, 3, 4, 5, 6, 7" (01 "Refusal numbers").
ghost use Rattle.wim.specs.Step.{step};
ghost use Rattle.browser.specs.View.{browser};
ghost use Rattle.perform.specs.Acts.{happening};
ghost use Rattle.rehearsal.specs.Rehearses.{Returns, Rehearses};

use crate::telling::{Rehearsed, is_wide, tell};
use memory::Memory;
use reading::read_item;
use types::items::Item;
use types::refusals::Refusal;

// Where 6 or 7 may come the step is taken on a copy, which takes the memory's place only where it was accepted. The one copy, so that the stack holds no second.
fn on_a_copy(item: Item, m: &mut Memory, out: &mut [u8], place: usize) -> Rehearsed
    ensures { Returns (happening item m.old) m.old out.old place result m.new out.new }
{
    let mut copy = *m;
    let done = perform::act(&mut copy, item);
    let count = tell(done, out, place)?;
    *m = copy;
    Ok(count)
}

// 8, 3, 4, 5, 6, 7. In place where every table has four free rows and the buffer has room for the longest event: neither 6 nor 7 can come.
fn rehearse_item(item: Item, m: &mut Memory, out: &mut [u8], place: usize) -> Rehearsed
    ensures { Returns (step item (browser m.old)) m.old out.old place result m.new out.new }
{
    if browser::is_closed(m) {
        return Err(Refusal::Closed);
    }
    if browser::is_roomy(m) && is_wide(out, place) {
        tell(perform::act(m, item), out, place)
    } else {
        on_a_copy(item, m, out, place)
    }
}

// "A refusal returns its number, browser and buffer unchanged. An accepted step returns the browser and the count of bytes written."
pub fn step(text: &[u8], m: &mut Memory, out: &mut [u8], place: usize) -> Rehearsed
    ensures { Rehearses text.now m.old out.old place result m.new out.new }
{
    rehearse_item(read_item(text)?, m, out, place)
}
