//! The walk after a checkpoint, which decodes the segments up to a bound.

ghost use Rattle.std.specs.Prelude.{◌≡◌, ℕ, ◌+◌, ◌<◌, ◌≤◌, Some, IfSome, false, take, drop, option_map};
ghost use Rattle.std.specs.List.{list_any};
ghost use Rattle.smap_mappings.specs.Range.{is_mapping_past_limit};
ghost use Rattle.smap_mappings.specs.State.{mapping_at, IsAfter, IsBetween};
ghost use Rattle.smap_index.specs.Checkpoint.{mapping_of, state_of};
ghost use Rattle.smap_index.specs.Parts.{placed, placed_mapping};
ghost use Rattle.smap_index.specs.Private.Search.{last_from, first_past, on_line};
ghost use Rattle.smap_index.specs.Private.Walk.{end_in, IsPlacedInRange};

use crate::bound::Bound;
use crate::checkpoint::Checkpoint;
use crate::part::Part;
use crate::placed::{added_column, placed_within};
use smap_mappings::{LineWalk, Mapping, Meter};

// The mappings next to a bound: the last that stands up to it, and the first after that one, where it was decoded.
#[derive(Clone, Copy)]
pub struct Decoded {
    pub last: Mapping,
    pub next: Option<Mapping>,
}

// Of a checkpoint's mapping, which stands on the bound's line, and at most this many after it in its part: the last of
// those at the front that stand up to the bound, and the checkpoint's where none does, and the first that does not, where
// it is on that line. Only what is handed back is made a mapping and gets its place. The call is inlined, since each
// caller asks for one of the two.
#[inline(always)]
pub fn decode_after(
    part: &Part,
    checkpoint: &Checkpoint,
    most: u32,
    bound: &Bound,
    meter: &mut Meter,
) -> Decoded
    requires state { IsBetween part.now.text (state_of part.now checkpoint.now) }
    requires on_line { part.now.line + (state_of part.now checkpoint.now).line ≡ bound.now.line }
    requires in_range { list_any is_mapping_past_limit (placed part.now) ≡ false }
    requires room { meter.old.segments + most ≤ u64.MAX }
    ensures last { (j : ℕ) → IsAfter part.now.text j (state_of part.now checkpoint.now) →
        Some result.last ≡ last_from bound.now (Some (mapping_of checkpoint.now))
        (take most (drop j (placed part.now))) }
    ensures next { (j : ℕ) → IsAfter part.now.text j (state_of part.now checkpoint.now) →
        result.next ≡ on_line bound.now.line
        (first_past bound.now (take most (drop j (placed part.now)))) }
    ensures few { meter.new.segments ≤ meter.old.segments + most }
    ensures onward { meter.old.segments ≤ meter.new.segments }
    ensures none_compared { meter.new.comparisons ≡ meter.old.comparisons }
{
    let state = checkpoint.state(part);
    let end = end_in(part, bound, state.cursor().line);
    let walk = part.text.walk_line(&state, end, most, meter);
    Decoded {
        last: last_walked(part, checkpoint, &walk),
        next: next_walked(part, &walk),
    }
}

// The last mapping that a walk after a checkpoint passed, at its place, and the checkpoint's where it passed none.
#[inline(always)]
fn last_walked(part: &Part, checkpoint: &Checkpoint, walk: &LineWalk) -> Mapping
    requires { 0 < walk.now.passed →
        IsPlacedInRange part.now (mapping_at walk.now.kind walk.now.state) }
    ensures none { walk.now.passed ≡ 0 → result ≡ mapping_of checkpoint.now }
    ensures some { 0 < walk.now.passed →
        result ≡ placed_mapping part.now (mapping_at walk.now.kind walk.now.state) }
{
    if walk.passed == 0 {
        checkpoint.mapping()
    } else {
        placed_within(part, &walk.state.cursor().mapping(walk.kind))
    }
}

// The mapping at which a walk stopped, at its place, if it did at one.
#[inline(always)]
fn next_walked(part: &Part, walk: &LineWalk) -> Option<Mapping>
    requires { IfSome walk.now.next (λ next.
        IsPlacedInRange part.now (mapping_at next.0 next.1)) }
    ensures { result ≡ option_map
        (λ next. placed_mapping part.now (mapping_at next.0 next.1)) walk.now.next }
{
    match &walk.next {
        Some((kind, after)) => Some(placed_within(part, &after.cursor().mapping(*kind))),
        None => None,
    }
}

// The column of the part's text on this line of it before which a mapping stands up to the bound, where that is the
// bound's line.
#[inline(always)]
fn end_in(part: &Part, bound: &Bound, line: u32) -> u64
    ensures { result ≡ end_in part.now bound.now line }
{
    bound.end().saturating_sub(added_column(part, line) as u64)
}
