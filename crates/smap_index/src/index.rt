//! An index: the parts of a map, and the table of checkpoints from which positions are looked up in them.

ghost use Rattle.std.specs.Prelude.{◌≡◌, ℕ, ◌+◌, ◌-◌, ◌*◌, ◌/◌, ◌^◌, ◌<◌, ◌≤◌, length, IfOk, OnOk, false, string_bytes};
ghost use Rattle.std.specs.List.{All, list_any};
ghost use Rattle.smap_mappings.specs.Mappings.{mappings_of};
ghost use Rattle.smap_mappings.specs.Accepted.{IsAccepted};
ghost use Rattle.smap_mappings.specs.Within.{IsWithin};
ghost use Rattle.smap_mappings.specs.Canonical.{canonical_text};
ghost use Rattle.smap_mappings.specs.Exact.{IsExactOr};
ghost use Rattle.smap_mappings.specs.Meter.{HasRoom};
ghost use Rattle.smap_mappings.specs.Order.{IsInOrder};
ghost use Rattle.smap_index.specs.Marked.{AreMarksOf};
ghost use Rattle.smap_index.specs.Parts.{most_parts, joined, bytes_in};
ghost use Rattle.smap_index.specs.Marks.{marks, used_lines_in, HasFewMarksOnEachLine};
ghost use Rattle.smap_index.specs.Faults.{build_fault, encode_all_fault};
ghost use Rattle.smap_mappings.specs.Range.{is_mapping_past_limit};
ghost use Rattle.smap_index.specs.Answer.{answer_at_or_before, answer_at_or_after, neighbours};

mod among;

use crate::answer::{Answer, Neighbours};
use crate::bound::{Bound, Side};
use crate::checkpoints::Checkpoints;
use crate::encode::{
    encode_only, length_of_parts, only_text, within_limit, write_at_once, write_parts,
};
use crate::interval::is_interval;
use crate::joined::{JoinedMappings, joined};
use crate::mark::mark_parts;
use crate::marked::TextMarks;
use crate::order::first_out_of_order;
use crate::part::Part;
use crate::refusal::{BuildRefusal, EncodeAllRefusal};
use crate::totals::{most_checkpoints, totals_of};
use smap_mappings::laws::{accepted_texts_have_no_fault, lists_in_order_have_no_fault};
use smap_mappings::{Mapping, Meter};
use std::alloc::{AllocError, Global};
use std::marker::Model;

/// The parts of a map with a table of checkpoints, from which positions are looked up.
#[derive(Drop)]
pub struct Index {
    parts: Vec<Part>,
    table: Checkpoints,
    k: u32,
    segments: u64,
    used_lines: u64,
}

impl Model for Index {
    ghost use Rattle.smap_index.specs.Index.{IndexContents, IsIndex};

    ghost Value = { IndexContents };

    ghost use Rattle.smap_index.specs.Fields.{contents_of};

    ghost view = { contents_of };

    ghost invariant = { λ fields. IsIndex (contents_of fields) };
}

impl Index {
    ghost use Rattle.smap_index.specs.Index.{IsIndexOf};

    /// Builds the index of these parts, with a checkpoint at the segments of number 0, `k`, 2`k` and so on of each
    /// line of a part. The caller gives at most 65,536 parts. Their first fault is refused; that memory ran out is
    /// reported only where they have none. Each text is read once. After a refusal the parts are dropped.
    pub fn build(alloc: Global, parts: Vec<Part>, k: u32) -> Result<Index, BuildRefusal>
        requires few { length parts.items ≤ most_parts }
        ensures { IsExactOr BuildRefusal.Memory result (build_fault parts.items k)
            (λ index. IsIndexOf index parts.items k) }
    {
        if !is_interval(k) {
            return Err(BuildRefusal::Interval);
        }
        if let Some(i) = first_out_of_order(&parts) {
            return Err(BuildRefusal::SectionOrder(i));
        }
        let totals = totals_of(&parts);
        let mut checkpoints = Checkpoints::new(alloc);
        let has_room = checkpoints.reserve(most_checkpoints(&totals, k)).is_ok();
        let walk = mark_parts(alloc, &parts, k, has_room, &mut checkpoints);
        if let Some(i) = walk.overlap {
            return Err(BuildRefusal::SectionOverlap(i));
        }
        if let Some(i) = walk.past_limit {
            return Err(BuildRefusal::PositionRange(i));
        }
        if !walk.has_room {
            return Err(BuildRefusal::Memory);
        }
        Ok(Index {
            parts,
            table: checkpoints,
            k,
            segments: totals.segments,
            used_lines: totals.used_lines,
        })
    }

    /// Builds the index of parts that are one text, as `build` does, with the checkpoints that were made when the text was
    /// checked. The call takes no memory: `Memory` says that there was no room for the checkpoints.
    pub fn of_marks(parts: Vec<Part>, marks: TextMarks) -> Result<Index, BuildRefusal>
        requires { AreMarksOf parts.items marks }
        ensures index { IsExactOr BuildRefusal.Memory result (build_fault parts.items marks.k)
            (λ index. IsIndexOf index parts.items marks.k) }
        ensures memory { result ≡ Err BuildRefusal.Memory → marks.checkpoints ≡ None }
    {
        let (k, table) = marks.into_fields();
        if !is_interval(k) {
            return Err(BuildRefusal::Interval);
        }
        // By this law no number of a text itself is past the limit.
        accepted_texts_have_no_fault();
        // The contract of `start` says that the text is accepted.
        let _start = match parts.first() {
            Some(part) => part.text.start(),
            None => unreachable!("the parts are one text"),
        };
        let Some(table) = table else {
            return Err(BuildRefusal::Memory);
        };
        let totals = totals_of(&parts);
        Ok(Index {
            parts,
            table,
            k,
            segments: totals.segments,
            used_lines: totals.used_lines,
        })
    }

    /// Looks a generated position up, from 0 and in UTF-16 code units: the last mapping on the line whose column is
    /// not after the asked one answers, and of equal columns the last. It may be of an earlier part than the last one
    /// that begins before the position. Of fewer than 2 ^ b checkpoints the call compares at most b, and it decodes
    /// fewer than `k` segments; the meter has room for both. It takes no memory.
    pub fn look_up(&self, line: u32, column: u32, meter: &mut Meter) -> Answer
        requires room { HasRoom meter.old }
        ensures answer { result ≡ answer_at_or_before (joined self.now.parts) line column }
        ensures compared { (b : ℕ) → length (marks self.now.parts self.now.k) < 2 ^ b →
            meter.new.comparisons ≤ meter.old.comparisons + b }
        ensures decoded { meter.new.segments ≤ meter.old.segments + (self.now.k - 1) }
        ensures onward { (meter.old.comparisons ≤ meter.new.comparisons)
            × (meter.old.segments ≤ meter.new.segments) }
    {
        self.answer_before(self.all_checkpoints(), line, column, meter)
    }

    /// Looks a generated position up in the other direction, from 0 and in UTF-16 code units: the first mapping on the
    /// line whose column is not before the asked one answers, and of equal columns the first. It may be of a later part
    /// than the last one that begins before the position. Of fewer than 2 ^ b checkpoints the call compares at most b,
    /// and it decodes fewer than `k` segments; the meter has room for both. It takes no memory.
    pub fn look_up_from(&self, line: u32, column: u32, meter: &mut Meter) -> Answer
        requires room { HasRoom meter.old }
        ensures answer { result ≡ answer_at_or_after (joined self.now.parts) line column }
        ensures compared { (b : ℕ) → length (marks self.now.parts self.now.k) < 2 ^ b →
            meter.new.comparisons ≤ meter.old.comparisons + b }
        ensures decoded { meter.new.segments ≤ meter.old.segments + (self.now.k - 1) }
        ensures onward { (meter.old.comparisons ≤ meter.new.comparisons)
            × (meter.old.segments ≤ meter.new.segments) }
    {
        self.answer_after(self.all_checkpoints(), line, column, meter)
    }

    /// The mappings next to a generated position, from 0 and in UTF-16 code units, on any line. Of fewer than 2 ^ b
    /// checkpoints the call compares at most b, and it decodes fewer than `k` segments; the meter has room for both. It
    /// takes no memory.
    pub fn neighbours(&self, line: u32, column: u32, meter: &mut Meter) -> Neighbours
        requires room { HasRoom meter.old }
        ensures both { result ≡ neighbours (joined self.now.parts) line column }
        ensures compared { (b : ℕ) → length (marks self.now.parts self.now.k) < 2 ^ b →
            meter.new.comparisons ≤ meter.old.comparisons + b }
        ensures decoded { meter.new.segments ≤ meter.old.segments + (self.now.k - 1) }
        ensures onward { (meter.old.comparisons ≤ meter.new.comparisons)
            × (meter.old.segments ≤ meter.new.segments) }
    {
        let bound = Bound::new(line, column, Side::Through);
        self.next_to(self.all_checkpoints(), &bound, 0, meter)
    }

    /// How many checkpoints the table holds.
    pub fn checkpoints(&self) -> u64
        ensures count { result ≡ length (marks self.now.parts self.now.k) }
        ensures bound { let segments = length (joined self.now.parts) in
            result ≤ segments / self.now.k + used_lines_in self.now.parts }
        ensures on_each_line { HasFewMarksOnEachLine self.now.parts self.now.k }
    {
        self.table.len() as u64
    }

    /// How many segments the texts hold.
    pub fn segments(&self) -> u64
        ensures count { result ≡ length (joined self.now.parts) }
        ensures bound { 2 * result ≤ bytes_in self.now.parts + length self.now.parts }
    {
        self.segments
    }

    /// How many lines hold a segment. Each part's lines are counted by themselves.
    pub fn used_lines(&self) -> u64
        ensures { result ≡ used_lines_in self.now.parts }
    {
        self.used_lines
    }

    /// A walk through all mappings, part after part, in order. It takes no memory. It is made with an allocator, so that
    /// a look-up, which is given none, walks through none.
    pub fn mappings<'a>(&'a self, alloc: Global) -> JoinedMappings<'a>
        ensures list { result ≡ joined self.now.parts }
        ensures ordered { IsInOrder (joined self.now.parts) }
        ensures in_range { list_any is_mapping_past_limit (joined self.now.parts) ≡ false }
    {
        joined(alloc, &self.parts)
    }

    /// All mappings, part after part, in order.
    pub fn decode_all(&self, alloc: Global) -> Result<Vec<Mapping>, AllocError>
        ensures list { IfOk result (λ list. list.items ≡ joined self.now.parts) }
        ensures ordered { IsInOrder (joined self.now.parts) }
        ensures in_range { list_any is_mapping_past_limit (joined self.now.parts) ≡ false }
    {
        let mut list = Vec::with_capacity(alloc, self.segments as usize)?;
        for mapping in self.mappings(alloc) {
            list.push(mapping)?;
        }
        Ok(list)
    }

    /// All mappings as one canonical text (ECMA-426, Mappings structure), which decodes to them: each difference in its
    /// shortest spelling, `,` between the segments of a line, one `;` for each line passed, nothing at the end. No list
    /// is made: the texts are gone through once, or twice where they have so many segments, or stand on such lines, that
    /// their text may be too long. The text of an only part that begins at the start is copied where it is canonical as it
    /// stands. A text past 67,108,864 bytes is refused.
    pub fn encode_all(&self, alloc: Global) -> Result<String, EncodeAllRefusal>
        ensures text { IsExactOr EncodeAllRefusal.Memory result
            (encode_all_fault (joined self.now.parts))
            (λ text. string_bytes text ≡ canonical_text (joined self.now.parts)) }
        ensures decodes { OnOk result
            (mappings_of (canonical_text (joined self.now.parts)) ≡ joined self.now.parts) }
        ensures accepted { OnOk result ((sources names : ℕ) →
            All (IsWithin sources names) (joined self.now.parts) →
            IsAccepted (canonical_text (joined self.now.parts)) sources names) }
    {
        lists_in_order_have_no_fault();
        if let Some(text) = only_text(&self.parts) {
            return encode_only(alloc, text);
        }
        if let Some(written) = write_at_once(alloc, &self.parts, self.segments) {
            return within_limit(written?.into_text());
        }
        let length = length_of_parts(alloc, &self.parts);
        let Some(bytes) = length.bytes() else {
            return Err(EncodeAllRefusal::TooLong);
        };
        match write_parts(alloc, &self.parts, bytes) {
            Ok(writer) => Ok(writer.into_text()),
            Err(_) => Err(EncodeAllRefusal::Memory),
        }
    }
}

// An index does not keep the decoded list: with a further field this would not compile.
fn has_these_fields_alone(index: &Index) {
    let Index {
        parts: _,
        table: _,
        k: _,
        segments: _,
        used_lines: _,
    } = index;
}
