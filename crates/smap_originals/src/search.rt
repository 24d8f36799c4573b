//! The search for the place next to an original.
ghost use Rattle.std.specs.Prelude.{◌≡◌, ℕ, ◌+◌, ◌-◌, ◌^◌, ◌<◌, ◌≤◌, Some, length, nat_lt, slice_get, MatchOption};
ghost use Rattle.smap_originals.specs.Private.Run.{IsInOrder, IsSplitAt, bound_of};

use crate::asked::OriginalDirection;
use crate::place::GeneratedPlace;
use crate::places::Places;
use smap_mappings::Meter;

// Where the places are split: how many stand in front, the last of these, and the first of the others.
#[derive(Clone, Copy)]
pub struct Split {
    pub index: usize,
    pub last: Option<GeneratedPlace>,
    pub next: Option<GeneratedPlace>,
}

// Splits the places by the numbers of their originals, in front of those with this number or behind them, as the direction
// has it. The search halves, so that it reads at most b of fewer than 2 ^ b places, and both that it gives are among those
// that it read.
pub fn split_at(
    places: &Places,
    order: u64,
    direction: OriginalDirection,
    meter: &mut Meter,
) -> Split
    requires ordered { IsInOrder places.now }
    requires room { meter.old.comparisons < 2 ^ 62 }
    ensures split { IsSplitAt (bound_of direction order) places.now result.index }
    ensures within { result.index ≤ length places.now }
    ensures last { MatchOption result.last (result.index ≡ 0)
        (λ place. (0 < result.index) × (slice_get places.now (result.index - 1) ≡ Some place)) }
    ensures next { result.next ≡ slice_get places.now result.index }
    ensures few { (b : ℕ) → length places.now < 2 ^ b →
        meter.new.comparisons ≤ meter.old.comparisons + b }
    ensures at_most { meter.new.comparisons ≤ meter.old.comparisons + 64 }
    ensures none_decoded { meter.new.segments ≡ meter.old.segments }
{
    let mut low = 0;
    let mut high = places.len();
    let mut last = None;
    let mut next = None;
    while low < high {
        let middle = low + (high - low) / 2;
        let place = *places.at(middle, meter);
        let here = place.original_order();
        if stands_before(here, order, direction) {
            last = Some(place);
            low = middle + 1;
        } else {
            next = Some(place);
            high = middle;
        }
    }
    Split {
        index: low,
        last,
        next,
    }
}

// Whether a number stands in front.
fn stands_before(here: u64, order: u64, direction: OriginalDirection) -> bool
    ensures { result ≡ nat_lt here (bound_of direction order) }
{
    match direction {
        OriginalDirection::AtOrBefore => here <= order,
        OriginalDirection::AtOrAfter => here < order,
    }
}
