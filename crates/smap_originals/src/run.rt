//! The run of places of one original column, or of one original line.
ghost use Rattle.std.specs.Prelude.{◌≡◌, ℕ, ◌+◌, ◌-◌, ◌^◌, ◌<◌, ◌≤◌, Some, length, slice_get};
ghost use Rattle.std.specs.List.{AllWithin};
ghost use Rattle.smap_originals.specs.Originals.{on_line, original_order};
ghost use Rattle.smap_originals.specs.Private.Run.{AreFound, IsInOrder};
ghost use Rattle.smap_originals.specs.declared.asked.OriginalDirection.TheVariants as directions;

use crate::asked::OriginalDirection;
use crate::place::{GeneratedPlace, order_of};
use crate::places::Places;
use crate::search::split_at;
use smap_mappings::Meter;

// The places of the greatest original column on a line that is not after the asked one. Of fewer than 2 ^ b places the call
// compares at most b, and one more for each that it lends.
pub fn run_up_to<'a>(
    places: &'a Places,
    line: u32,
    column: u32,
    meter: &mut Meter,
) -> &'a [GeneratedPlace]
    requires ordered { IsInOrder places.now }
    requires room { meter.old.comparisons < 2 ^ 62 }
    ensures found { AreFound directions.AtOrBefore line column places.now result.now }
    ensures few { (b : ℕ) → length places.now < 2 ^ b →
        meter.new.comparisons ≤ meter.old.comparisons + b + length result.now }
    ensures none_decoded { meter.new.segments ≡ meter.old.segments }
{
    let split = split_at(
        places,
        order_of(line, column),
        OriginalDirection::AtOrBefore,
        meter,
    );
    match split.last {
        Some(last) if last.original_line == line => {
            let first = first_of_run(places, split.index - 1, last.original_order(), meter);
            places.lend(first, split.index)
        }
        Some(_) => &[],
        None => &[],
    }
}

// The places of the least original column on a line that is not before the asked one, at the same price.
pub fn run_from<'a>(
    places: &'a Places,
    line: u32,
    column: u32,
    meter: &mut Meter,
) -> &'a [GeneratedPlace]
    requires ordered { IsInOrder places.now }
    requires room { meter.old.comparisons < 2 ^ 62 }
    ensures found { AreFound directions.AtOrAfter line column places.now result.now }
    ensures few { (b : ℕ) → length places.now < 2 ^ b →
        meter.new.comparisons ≤ meter.old.comparisons + b + length result.now }
    ensures none_decoded { meter.new.segments ≡ meter.old.segments }
{
    let split = split_at(
        places,
        order_of(line, column),
        OriginalDirection::AtOrAfter,
        meter,
    );
    match split.next {
        Some(next) if next.original_line == line => {
            let end = end_of_run(places, split.index, next.original_order(), meter);
            places.lend(split.index, end)
        }
        Some(_) => &[],
        None => &[],
    }
}

// The places of all originals on a line, at the price of two searches: of fewer than 2 ^ b places the call compares at most
// 2 b.
pub fn run_of_line<'a>(places: &'a Places, line: u32, meter: &mut Meter) -> &'a [GeneratedPlace]
    requires ordered { IsInOrder places.now }
    requires room { meter.old.comparisons < 2 ^ 61 }
    ensures found { result.now ≡ on_line line places.now }
    ensures few { (b : ℕ) → length places.now < 2 ^ b →
        meter.new.comparisons ≤ meter.old.comparisons + b + b }
    ensures none_decoded { meter.new.segments ≡ meter.old.segments }
{
    let start = order_of(line, 0);
    let last = order_of(line, u32::MAX);
    let first = split_at(places, start, OriginalDirection::AtOrAfter, meter);
    let end = split_at(places, last, OriginalDirection::AtOrBefore, meter);
    places.lend(first.index, end.index)
}

// The first place of the run in which place `at` stands, of which this is the number.
fn first_of_run(places: &Places, at: usize, order: u64, meter: &mut Meter) -> usize
    requires ordered { IsInOrder places.now }
    requires within { at < length places.now }
    requires order { AllWithin (λ place. original_order place ≡ order) places.now at (at + 1) }
    requires room { meter.old.comparisons < 2 ^ 63 }
    ensures front { result ≤ at }
    ensures run { AllWithin (λ place. original_order place ≡ order) places.now result (at + 1) }
    ensures before { AllWithin (λ place. original_order place < order) places.now 0 result }
    ensures few { meter.new.comparisons + result ≤ meter.old.comparisons + at + 1 }
    ensures none_decoded { meter.new.segments ≡ meter.old.segments }
{
    // Its contract says that the places are few, so that the meter has room.
    let _places = places.len();
    let mut first = at;
    while first > 0 {
        let before = places.at(first - 1, meter).original_order();
        if before != order {
            return first;
        }
        first -= 1;
    }
    first
}

// Where the run ends that begins with place `at`, of which this is the number.
fn end_of_run(places: &Places, at: usize, order: u64, meter: &mut Meter) -> usize
    requires ordered { IsInOrder places.now }
    requires within { at < length places.now }
    requires order { AllWithin (λ place. original_order place ≡ order) places.now at (at + 1) }
    requires room { meter.old.comparisons < 2 ^ 63 }
    ensures end { (at < result) × (result ≤ length places.now) }
    ensures run { AllWithin (λ place. original_order place ≡ order) places.now at result }
    ensures behind { AllWithin (λ place. order < original_order place) places.now result
        (length places.now) }
    ensures few { meter.new.comparisons + at ≤ meter.old.comparisons + result }
    ensures none_decoded { meter.new.segments ≡ meter.old.segments }
{
    let most = places.len();
    let mut end = at + 1;
    while end < most {
        let behind = places.at(end, meter).original_order();
        if behind != order {
            return end;
        }
        end += 1;
    }
    end
}
