//! Look-ups among some of the checkpoints: those of the line, where it is known where they begin.

ghost use Rattle.std.specs.Prelude.{◌≡◌, ℕ, ◌+◌, ◌-◌, ◌^◌, ◌<◌, ◌≤◌, length, option_map, IfOk};
ghost use Rattle.std.specs.Option.{option_copied};
ghost use Rattle.smap_mappings.specs.Meter.{HasRoom};
ghost use Rattle.smap_mappings.specs.Order.{IsInOrder};
ghost use Rattle.smap_index.specs.Answer.{answer_at_or_before, answer_at_or_after};
ghost use Rattle.smap_index.specs.Checkpoint.{mapping_of};
ghost use Rattle.smap_index.specs.LineStarts.{AreLineStarts, line_starts, marked_lines, marks_on_line};
ghost use Rattle.smap_index.specs.Marks.{marks};
ghost use Rattle.smap_index.specs.Parts.{joined};
ghost use Rattle.smap_index.specs.Private.Search.{HoldsLines, first_past, from_line, last_up_to, on_line};

use super::Index;
use crate::answer::{Answer, Neighbours, answer_on};
use crate::bound::{Bound, Side};
use crate::checkpoint::Checkpoint;
use crate::line_starts::LineStarts;
use crate::resume::decode_after;
use crate::search::nearest_checkpoints;
use crate::stretch::Stretch;
use smap_mappings::{Mapping, Meter};
use std::alloc::{AllocError, Global};

impl Index {
    /// Where the checkpoints of the first generated lines begin: of those up to the last that has a checkpoint, but of at
    /// most four lines for each checkpoint, and of none where there are more than 4,294,967,295.
    pub fn line_starts(&self, alloc: Global) -> Result<LineStarts, AllocError>
        ensures starts { IfOk result (λ starts.
            starts ≡ line_starts (marked_lines self.now.parts self.now.k)) }
        ensures usable { IfOk result (λ starts.
            AreLineStarts (marked_lines self.now.parts self.now.k) starts) }
    {
        LineStarts::of(alloc, &self.table)
    }

    /// Looks a generated position up as `look_up` does, among the checkpoints of its line alone where that line and the one
    /// after it have a start. The caller gives starts of this index. Of fewer than 2 ^ b checkpoints, and of fewer on the
    /// line, the call compares at most b, and it decodes fewer than `k` segments; the meter has room for both. It takes no
    /// memory.
    pub fn look_up_among(
        &self,
        starts: &LineStarts,
        line: u32,
        column: u32,
        meter: &mut Meter,
    ) -> Answer
        requires room { HasRoom meter.old }
        requires starts { AreLineStarts (marked_lines self.now.parts self.now.k) starts.now }
        ensures answer { result ≡ answer_at_or_before (joined self.now.parts) line column }
        ensures compared { (b : ℕ) → length (marks self.now.parts self.now.k) < 2 ^ b →
            meter.new.comparisons ≤ meter.old.comparisons + b }
        ensures on_line { (b : ℕ) → line + 1 < length starts.now →
            marks_on_line (marked_lines self.now.parts self.now.k) line < 2 ^ b →
            meter.new.comparisons ≤ meter.old.comparisons + b }
        ensures decoded { meter.new.segments ≤ meter.old.segments + (self.now.k - 1) }
        ensures onward { (meter.old.comparisons ≤ meter.new.comparisons)
            × (meter.old.segments ≤ meter.new.segments) }
    {
        let stretch = starts.stretch_of(line, self.table.len());
        self.answer_before(stretch, line, column, meter)
    }

    /// Looks a generated position up in the other direction as `look_up_from` does, among the checkpoints of its line alone
    /// where that line and the one after it have a start. The caller gives starts of this index. Of fewer than 2 ^ b
    /// checkpoints, and of fewer on the line, the call compares at most b, and it decodes fewer than `k` segments; the meter
    /// has room for both. It takes no memory.
    pub fn look_up_from_among(
        &self,
        starts: &LineStarts,
        line: u32,
        column: u32,
        meter: &mut Meter,
    ) -> Answer
        requires room { HasRoom meter.old }
        requires starts { AreLineStarts (marked_lines self.now.parts self.now.k) starts.now }
        ensures answer { result ≡ answer_at_or_after (joined self.now.parts) line column }
        ensures compared { (b : ℕ) → length (marks self.now.parts self.now.k) < 2 ^ b →
            meter.new.comparisons ≤ meter.old.comparisons + b }
        ensures on_line { (b : ℕ) → line + 1 < length starts.now →
            marks_on_line (marked_lines self.now.parts self.now.k) line < 2 ^ b →
            meter.new.comparisons ≤ meter.old.comparisons + b }
        ensures decoded { meter.new.segments ≤ meter.old.segments + (self.now.k - 1) }
        ensures onward { (meter.old.comparisons ≤ meter.new.comparisons)
            × (meter.old.segments ≤ meter.new.segments) }
    {
        let stretch = starts.stretch_of(line, self.table.len());
        self.answer_after(stretch, line, column, meter)
    }

    // All checkpoints, which are those of each line.
    #[inline(always)]
    pub(super) fn all_checkpoints(&self) -> Stretch
        ensures whole { result.high ≡ length self.now.checkpoints }
        ensures marks { result.high ≡ length (marks self.now.parts self.now.k) }
        ensures lines { (from to : ℕ) → HoldsLines self.now.checkpoints from to result }
    {
        Stretch {
            low: 0,
            high: self.table.len(),
        }
    }

    // What the last mapping on a line that is not after a column answers, looked for in a stretch that holds the line.
    #[inline(always)]
    pub(super) fn answer_before(
        &self,
        stretch: Stretch,
        line: u32,
        column: u32,
        meter: &mut Meter,
    ) -> Answer
        requires room { HasRoom meter.old }
        requires holds { HoldsLines self.now.checkpoints line line stretch }
        ensures answer { result ≡ answer_at_or_before (joined self.now.parts) line column }
        ensures compared { (b : ℕ) → stretch.high - stretch.low < 2 ^ b →
            meter.new.comparisons ≤ meter.old.comparisons + b }
        ensures decoded { meter.new.segments ≤ meter.old.segments + (self.now.k - 1) }
        ensures onward { (meter.old.comparisons ≤ meter.new.comparisons)
            × (meter.old.segments ≤ meter.new.segments) }
    {
        let bound = Bound::new(line, column, Side::Through);
        answer_on(line, self.next_to(stretch, &bound, line, meter).before)
    }

    // What the first mapping on a line that is not before a column answers, looked for in a stretch that holds the line.
    #[inline(always)]
    pub(super) fn answer_after(
        &self,
        stretch: Stretch,
        line: u32,
        column: u32,
        meter: &mut Meter,
    ) -> Answer
        requires room { HasRoom meter.old }
        requires holds { HoldsLines self.now.checkpoints line line stretch }
        ensures answer { result ≡ answer_at_or_after (joined self.now.parts) line column }
        ensures compared { (b : ℕ) → stretch.high - stretch.low < 2 ^ b →
            meter.new.comparisons ≤ meter.old.comparisons + b }
        ensures decoded { meter.new.segments ≤ meter.old.segments + (self.now.k - 1) }
        ensures onward { (meter.old.comparisons ≤ meter.new.comparisons)
            × (meter.old.segments ≤ meter.new.segments) }
    {
        let bound = Bound::new(line, column, Side::Before);
        answer_on(line, self.next_to(stretch, &bound, line, meter).after)
    }

    // The mappings next to a bound, looked for in a stretch that holds the lines from `from` up to the bound's: the last
    // that stands up to it, where that is on line `from` or on one after it, and the first that does not, where that is on
    // the bound's line or the stretch goes to the end of the table. Where the last checkpoint that stands up to it is on a
    // line before `from`, nothing is decoded: so a look-up, which asks for its line alone, decodes none of another. The call
    // is inlined, since a look-up asks for one of the two.
    #[inline(always)]
    pub(super) fn next_to(
        &self,
        stretch: Stretch,
        bound: &Bound,
        from: u32,
        meter: &mut Meter,
    ) -> Neighbours
        requires room { HasRoom meter.old }
        requires from { from ≤ bound.now.line }
        requires holds { HoldsLines self.now.checkpoints from bound.now.line stretch }
        ensures before { result.before
            ≡ from_line from (last_up_to bound.now (joined self.now.parts)) }
        ensures after { stretch.high ≡ length self.now.checkpoints →
            result.after ≡ first_past bound.now (joined self.now.parts) }
        ensures after_on_line { on_line bound.now.line result.after
            ≡ on_line bound.now.line (first_past bound.now (joined self.now.parts)) }
        ensures ordered { IsInOrder (joined self.now.parts) }
        ensures compared { (b : ℕ) → stretch.high - stretch.low < 2 ^ b →
            meter.new.comparisons ≤ meter.old.comparisons + b }
        ensures decoded { meter.new.segments ≤ meter.old.segments + (self.now.k - 1) }
        ensures onward { (meter.old.comparisons ≤ meter.new.comparisons)
            × (meter.old.segments ≤ meter.new.segments) }
    {
        let nearest = nearest_checkpoints(&self.table, stretch, bound, meter);
        let next = mapping_at(nearest.next);
        match nearest.last {
            Some(checkpoint) if checkpoint.line >= from => {
                let part = &self.parts[checkpoint.part as usize];
                let end = bound.on(checkpoint.line);
                let decoded = decode_after(part, checkpoint, self.k - 1, &end, meter);
                Neighbours {
                    before: Some(decoded.last),
                    after: decoded.next.or(next),
                }
            }
            Some(_) => Neighbours {
                before: None,
                after: next,
            },
            None => Neighbours {
                before: None,
                after: next,
            },
        }
    }
}

#[inline(always)]
fn mapping_at(checkpoint: Option<&Checkpoint>) -> Option<Mapping>
    ensures { result ≡ option_map mapping_of (option_copied checkpoint.entry) }
{
    match checkpoint {
        Some(checkpoint) => Some(checkpoint.mapping()),
        None => None,
    }
}
