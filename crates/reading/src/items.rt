// "An event is receiver, sender, message" (01 "The text"); "an event's receiver must be 1, its sender is not compared with anything".
#![tactic(auto, using(csexp::proofs::Steps::fields))]

ghost use Rattle.csexp.specs.Answers.{Reads, Passes};
ghost use Rattle.csexp.specs.Decode.{word, numeral};
ghost use Rattle.csexp.specs.Text.{text};
ghost use Rattle.shapes.specs.Items.{event_of, message_of, triggered_of, told_of, item_of};

use crate::choices::read_choices;
use crate::fresh::read_fresh;
use csexp::{At, empty_list, mark, number, word};
use reading_answers::read_message;
use types::items::{Happening, Item};

// 1:1, the browser's own address
fn read_receiver(s: &[u8], at: usize) -> Option<At<u32>>
    ensures { Reads (numeral 1 1) s.now at result }
{
    number(s, at, 1, 1)
}

// (1:1 sender 7:TRIGGER)
fn read_trigger(s: &[u8], at: usize) -> Option<usize>
    ensures { Passes (event_of (word (text "TRIGGER"))) s.now at result }
{
    let a = mark(s, at, b'(')?;
    let receiver = read_receiver(s, a)?;
    let sender = number(s, receiver.next, 1, 65535)?;
    let t = word(s, sender.next, b"TRIGGER")?;
    mark(s, t, b')')
}

// (1:1 sender message)
fn read_event(s: &[u8], at: usize) -> Option<At<Happening>>
    ensures { Reads (event_of message_of) s.now at result }
{
    let a = mark(s, at, b'(')?;
    let receiver = read_receiver(s, a)?;
    let sender = number(s, receiver.next, 1, 65535)?;
    let message = read_message(s, sender.next)?;
    let next = mark(s, message.next, b')')?;
    Some(At {
        value: message.value,
        next,
    })
}

// a TRIGGER with its choices
fn read_triggered(s: &[u8], at: usize) -> Option<At<Item>>
    ensures { Reads triggered_of s.now at result }
{
    let a = mark(s, at, b'(')?;
    let t = read_trigger(s, a)?;
    let choices = read_choices(s, t)?;
    let fresh = read_fresh(s, choices.next)?;
    let next = mark(s, fresh.next, b')')?;
    Some(At {
        value: Item {
            event: choices.value.event,
            cookies: choices.value.cookies,
            fresh: fresh.value,
        },
        next,
    })
}

// another message with the choices ()
fn read_told(s: &[u8], at: usize) -> Option<At<Item>>
    ensures { Reads told_of s.now at result }
{
    let a = mark(s, at, b'(')?;
    let told = read_event(s, a)?;
    let c = empty_list(s, told.next)?;
    let fresh = read_fresh(s, c)?;
    let next = mark(s, fresh.next, b')')?;
    Some(At {
        value: Item {
            event: told.value.event,
            cookies: told.value.cookies,
            fresh: fresh.value,
        },
        next,
    })
}

// The item at a position.
#[tactic(auto, using(csexp::proofs::Steps::readers))]
pub fn item_at(s: &[u8], at: usize) -> Option<At<Item>>
    ensures { Reads item_of s.now at result }
{
    read_triggered(s, at).or_else(|| read_told(s, at))
}
