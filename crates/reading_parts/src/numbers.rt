// Numbers of 16 bits, and the number of a window under its label.
#![tactic(auto, using(csexp::proofs::Steps::readers))]

ghost use Rattle.csexp.specs.Decode.{numeral};
ghost use Rattle.csexp.specs.Answers.{Reads};
ghost use Rattle.shapes.specs.Items.{window_of};

use csexp::{At, labelled, number};
use types::WindowNumber;

// The atom whose bytes are a decimal number from lo to hi.
pub fn short_number(s: &[u8], at: usize, lo: u16, hi: u16) -> Option<At<u16>>
    ensures { Reads (numeral lo hi) s.now at result }
{
    Some(number(s, at, u32::from(lo), u32::from(hi))?.map(|n| n as u16))
}

// (6:window number)
pub fn read_window(s: &[u8], at: usize) -> Option<At<WindowNumber>>
    ensures { Reads window_of s.now at result }
{
    Some(labelled(s, at, b"window", 1, u32::MAX)?.map(WindowNumber))
}
