// What C calls (include/ingleskip.h): the two functions of `ingleskip`, under their names. No other crate calls these.
#![tactic(auto)]

ghost use Rattle.std.specs.Prelude.{◌≡◌};
ghost use Rattle.wim.specs.Step.{empty_browser};
ghost use Rattle.browser.specs.View.{browser};
ghost use Rattle.ingleskip.specs.Steps.{Steps};

use memory::Memory;

// Whatever the memory held.
#[unsafe(no_mangle)]
pub extern "C" fn ingleskip_empty(m: &mut Memory)
    ensures { browser m.new ≡ empty_browser }
{
    ingleskip::ingleskip_empty(m);
}

// The verdict's number: 0, and how many bytes of the buffer were written; or that of the refusal, and 0.
#[unsafe(no_mangle)]
pub extern "C" fn ingleskip_step(
    text: &[u8],
    m: &mut Memory,
    out: &mut [u8],
    place: usize,
    count: &mut usize,
) -> u32
    ensures { Steps text.now m.old out.old place result count.new m.new out.new }
{
    ingleskip::ingleskip_step(text, m, out, place, count)
}
