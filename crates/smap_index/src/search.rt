//! The search for the checkpoints next to a bound.

ghost use Rattle.std.specs.Prelude.{◌≡◌, ℕ, ◌+◌, ◌-◌, ◌^◌, ◌<◌, ◌≤◌, length};
ghost use Rattle.std.specs.Option.{option_copied};
ghost use Rattle.smap_mappings.specs.Meter.{HasRoom};
ghost use Rattle.smap_mappings.specs.Order.{IsInOrder};
ghost use Rattle.smap_index.specs.Private.Search.{mappings_at, front_up_to, last_in, next_in};

use crate::bound::Bound;
use crate::checkpoint::Checkpoint;
use crate::checkpoints::Checkpoints;
use crate::stretch::Stretch;
use smap_mappings::Meter;

// The checkpoints next to a bound: the last whose mapping stands up to it, and the first after that one.
#[derive(Clone, Copy)]
pub struct NearestCheckpoints<'a> {
    pub last: Option<&'a Checkpoint>,
    pub next: Option<&'a Checkpoint>,
}

// Lends the checkpoints of a stretch of the table next to the bound, where the stretch has those up to which the table
// stands up to it and those from which it does not. The search halves, so that it reads at most b of fewer than 2 ^ b
// checkpoints, and both are among those that it read.
pub fn nearest_checkpoints<'a>(
    checkpoints: &'a Checkpoints,
    stretch: Stretch,
    bound: &Bound,
    meter: &mut Meter,
) -> NearestCheckpoints<'a>
    requires ordered { IsInOrder (mappings_at checkpoints.now) }
    requires low { stretch.low ≤ front_up_to bound.now (mappings_at checkpoints.now) }
    requires high { front_up_to bound.now (mappings_at checkpoints.now) ≤ stretch.high }
    requires within { stretch.high ≤ length checkpoints.now }
    requires room { HasRoom meter.old }
    ensures last { let front = front_up_to bound.now (mappings_at checkpoints.now) in
        option_copied result.last ≡ last_in stretch.low front checkpoints.now }
    ensures next { let front = front_up_to bound.now (mappings_at checkpoints.now) in
        option_copied result.next ≡ next_in front stretch.high checkpoints.now }
    ensures onward { meter.old.comparisons ≤ meter.new.comparisons }
    ensures few { (b : ℕ) → stretch.high - stretch.low < 2 ^ b →
        meter.new.comparisons ≤ meter.old.comparisons + b }
    ensures none_decoded { meter.new.segments ≡ meter.old.segments }
{
    let mut low = stretch.low;
    let mut high = stretch.high;
    let mut last = None;
    let mut next = None;
    while low < high {
        let middle = low + (high - low) / 2;
        let checkpoint = checkpoints.at(middle, meter);
        if bound.reaches(&checkpoint.mapping()) {
            last = Some(checkpoint);
            low = middle + 1;
        } else {
            next = Some(checkpoint);
            high = middle;
        }
    }
    NearestCheckpoints { last, next }
}
