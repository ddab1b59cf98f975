// The windows that the active document of a window may navigate (000 Definition 38), asked of one window and as a set.
// The rows of both tables may stand in any order, and their counts may say anything.
#![tactic(auto)]

ghost use Rattle.std.specs.Prelude.{◌≡◌, cond};
ghost use Rattle.tables.specs.Rows.{origin_of};
ghost use Rattle.memory.specs.Rows.{table};
ghost use Rattle.layouts.specs.Tables.{windows_in, documents_in};
ghost use Rattle.wim.specs.Walks.{active_document, has_origin};
ghost use Rattle.wim.specs.Navigable.{opener_of, ancestor_has, navigable_directly, follows, may_navigate, mask_of, navigable_mask, navigable_size};
ghost use Rattle.navigable.specs.First.{first_navigable};

use memory::Memory;
use rows::Table;
use types::rows::{Document, Opener};
use types::{Origin, WindowNumber};
use walks::STEPS;
use walks::told::Above;
use windows::Windows;

fn has_origin(m: &Memory, o: Origin, w: WindowNumber) -> bool
    ensures { result ≡ has_origin o (active_document (table documents_in m.now) w) }
{
    walks::active_document(m, w).is_some_and(|d| labels::same_origin(walks::origin_of(d), o))
}

// Whether the active document of some window above has the origin, n steps up at most.
#[tactic(auto, using(crate::proofs::Rules::ancestor_none, crate::proofs::Rules::ancestor_up))]
fn ancestor_within(n: u32, m: &Memory, o: Origin, v: WindowNumber) -> bool
    ensures { result ≡ ancestor_has n (table windows_in m.now) (table documents_in m.now) o v }
{
    if n == 0 {
        return false;
    }
    match walks::above(m, v) {
        Above::Missing | Above::Topmost => false,
        Above::HeldBy(d) => {
            d.active && (has_origin(m, o, d.window) || ancestor_within(n - 1, m, o, d.window))
        }
    }
}

// The first three rules of Definition 38: its origin, the top-level window above w, the origin of one above it.
#[tactic(auto, unfolding(wim::specs::Navigable::navigable_directly))]
fn navigable_directly(m: &Memory, o: Origin, w: WindowNumber, v: WindowNumber) -> bool
    ensures { result ≡ navigable_directly (table windows_in m.now) (table documents_in m.now) o w v }
{
    has_origin(m, o, v)
        || walks::reached(m, w).is_some_and(|t| t == v)
        || ancestor_within(STEPS, m, o, v)
}

fn opener_of(m: &Memory, v: WindowNumber) -> Opener
    ensures { result ≡ opener_of (table windows_in m.now) v }
{
    walks::window_numbered(m, v).and_then(|row| row.opener)
}

// All four rules: the fourth leads to the opener, n windows in all.
#[tactic(auto, using(crate::proofs::Rules::follows_none, crate::proofs::Rules::follows_more))]
fn follows_within(n: usize, m: &Memory, o: Origin, w: WindowNumber, v: WindowNumber) -> bool
    ensures { result ≡ follows n (table windows_in m.now) (table documents_in m.now) o w v }
{
    if n == 0 || !walks::is_reached(m, v) {
        return false;
    }
    if navigable_directly(m, o, w, v) {
        return true;
    }
    match opener_of(m, v) {
        Some(q) => follows_within(n - 1, m, o, w, q),
        None => false,
    }
}

// Whether a script of this origin in the window w may navigate v.
pub fn may_navigate(m: &Memory, o: Origin, w: WindowNumber, v: WindowNumber) -> bool
    ensures { result ≡ may_navigate (table windows_in m.now) (table documents_in m.now) o w v }
{
    follows_within(Windows::size(m) + 1, m, o, w, v)
}

// That window, if the document of this window may navigate it, otherwise this window.
pub fn navigated(m: &Memory, w: WindowNumber, d: Document, v: WindowNumber) -> WindowNumber
    ensures { result ≡ cond (may_navigate (table windows_in m.now) (table documents_in m.now) (origin_of d) w v) v w }
{
    if may_navigate(m, walks::origin_of(d), w, v) {
        v
    } else {
        w
    }
}

// A bit for each window row, the lowest for the first: from the last row down, each time one place up.
fn mask(m: &Memory, o: Origin, w: WindowNumber) -> u32
    ensures { result ≡ mask_of (may_navigate (table windows_in m.now) (table documents_in m.now) o w) (table windows_in m.now) }
{
    let mut bits: u32 = 0;
    for i in (0..Windows::size(m)).rev() {
        let row = Windows::row(m, i);
        bits = 2 * bits + u32::from(may_navigate(m, o, w, row.number));
    }
    bits
}

// 01: "It is given as one number with a bit for each window row, lowest number first". Of an unreached window, and of one with no document, it is 0.
#[tactic(auto, unfolding(wim::specs::Navigable::navigable_mask))]
pub fn navigable_set(m: &Memory, w: WindowNumber) -> u32
    ensures { result ≡ navigable_mask (table windows_in m.now) (table documents_in m.now) w }
{
    if !walks::is_reached(m, w) {
        return 0;
    }
    match walks::active_document(m, w) {
        Some(d) => mask(m, walks::origin_of(d), w),
        None => 0,
    }
}

// 01: "its size is the count of those bits".
#[tactic(auto, using(wim::proofs::NavigableMask::navigable_ones))]
pub fn navigable_size(m: &Memory, w: WindowNumber) -> u32
    ensures { result ≡ navigable_size (table windows_in m.now) (table documents_in m.now) w }
{
    navigable_set(m, w).count_ones()
}

// The first row of the set, counted from 0, if there is one: as many zeros stand at the end of the number as rows before it.
pub fn first_navigable(m: &Memory, w: WindowNumber) -> Option<usize>
    ensures { result ≡ first_navigable (table windows_in m.now) (table documents_in m.now) w }
{
    let bits = navigable_set(m, w);
    if bits == 0 {
        return None;
    }
    Some(bits.trailing_zeros() as usize)
}
