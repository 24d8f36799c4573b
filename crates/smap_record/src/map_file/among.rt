//! Look-ups in a map among the checkpoints of their line.
ghost use Rattle.std.specs.Prelude.{◌≡◌, ◌<◌, ◌+◌, ◌-◌, ◌≤◌, ◌^◌, ℕ, length, IfOk};
ghost use Rattle.smap_mappings.specs.Meter.{HasRoom};
ghost use Rattle.smap_index.specs.LineStarts.{AreLineStarts, marked_lines};
ghost use Rattle.smap_index.specs.Marks.{marks};
ghost use Rattle.smap_record.specs.MapFile.{IsAnswerWithin};
ghost use Rattle.smap_record.specs.Record.{answer_of_map, answer_of_map_from};

use super::MapFile;
use smap_index::{Answer, LineStarts};
use smap_mappings::Meter;
use std::alloc::{AllocError, Global};

impl MapFile {
    // Where the checkpoints of the first generated lines begin.
    pub(crate) fn line_starts(&self, alloc: Global) -> Result<LineStarts, AllocError>
        ensures { IfOk result (λ starts.
            AreLineStarts (marked_lines self.now.stated.parts self.now.k) starts) }
    {
        self.index.line_starts(alloc)
    }

    // Looks a position up as `look_up` does, among the checkpoints of its line alone where these starts say where they are.
    pub(crate) fn look_up_among(
        &self,
        starts: &LineStarts,
        line: u32,
        column: u32,
        meter: &mut Meter,
    ) -> Answer
        requires room { HasRoom meter.old }
        requires starts { AreLineStarts (marked_lines self.now.stated.parts self.now.k) starts.now }
        ensures answer { result ≡ answer_of_map self.now.stated line column }
        ensures within { IsAnswerWithin
            (length self.now.stated.sources) (length self.now.stated.names) result }
        ensures compared { (b : ℕ) → length (marks self.now.stated.parts self.now.k) < 2 ^ b
            → meter.new.comparisons ≤ meter.old.comparisons + b }
        ensures decoded { meter.new.segments ≤ meter.old.segments + (self.now.k - 1) }
        ensures onward { (meter.old.comparisons ≤ meter.new.comparisons)
            × (meter.old.segments ≤ meter.new.segments) }
    {
        self.index.look_up_among(starts, line, column, meter)
    }

    // Looks a position up in the other direction as `look_up_from` does, likewise.
    pub(crate) fn look_up_from_among(
        &self,
        starts: &LineStarts,
        line: u32,
        column: u32,
        meter: &mut Meter,
    ) -> Answer
        requires room { HasRoom meter.old }
        requires starts { AreLineStarts (marked_lines self.now.stated.parts self.now.k) starts.now }
        ensures answer { result ≡ answer_of_map_from self.now.stated line column }
        ensures within { IsAnswerWithin
            (length self.now.stated.sources) (length self.now.stated.names) result }
        ensures compared { (b : ℕ) → length (marks self.now.stated.parts self.now.k) < 2 ^ b
            → meter.new.comparisons ≤ meter.old.comparisons + b }
        ensures decoded { meter.new.segments ≤ meter.old.segments + (self.now.k - 1) }
        ensures onward { (meter.old.comparisons ≤ meter.new.comparisons)
            × (meter.old.segments ≤ meter.new.segments) }
    {
        self.index.look_up_from_among(starts, line, column, meter)
    }
}
