// The product's face for C: the step on text, and a memory made empty, with numbers alone. `ingleskip_c` hands both to C under these names (include/ingleskip.h).
#![tactic(auto)]

ghost use Rattle.std.specs.Prelude.{◌≡◌};
ghost use Rattle.wim.specs.Step.{empty_browser};
ghost use Rattle.browser.specs.View.{browser};
ghost use Rattle.ingleskip.specs.Steps.{Steps};

use memory::Memory;

// Whatever the memory held.
pub fn ingleskip_empty(m: &mut Memory)
    ensures { browser m.new ≡ empty_browser }
{
    rehearsal::make_empty(m);
}

// The verdict's number: 0, and how many bytes of the buffer were written; or that of the refusal, and 0.
pub fn ingleskip_step(
    text: &[u8],
    m: &mut Memory,
    out: &mut [u8],
    place: usize,
    count: &mut usize,
) -> u32
    ensures { Steps text.now m.old out.old place result count.new m.new out.new }
{
    let told = rehearsal::step(text, m, out, place);
    *count = told.unwrap_or(0);
    rehearsal::number(told)
}
