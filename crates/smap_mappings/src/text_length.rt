//! The length of a canonical text, found before it is written.
ghost use Rattle.std.specs.Prelude.{◌≡◌, ◌+◌, ◌<◌, ◌≤◌, ◌++◌, [], ◌∷◌, List, Some, None, min, nat_lt, if◌then◌else◌, length, false};
ghost use Rattle.smap_mappings.specs.Limits.{most_text_bytes};
ghost use Rattle.smap_mappings.specs.Range.{is_mapping_past_limit};
ghost use Rattle.smap_mappings.specs.Canonical.{separators, canonical_text};
ghost use Rattle.smap_mappings.specs.Private.Reading.{fields_in};
ghost use Rattle.smap_mappings.specs.Private.OneMore.{CanBeSpelled, spelled};
ghost use Rattle.smap_mappings.specs.declared.mapping.Mapping.{Mapping};

use crate::last_values::LastValues;
use crate::limits::MOST_MAPPINGS_BYTES;
use crate::mapping::Mapping;
use crate::segment::Segment;
use crate::vlq::spelling_length;
use std::marker::Model;

/// How many bytes the canonical text of the mappings so far has (ECMA-426, Mappings structure). It is counted up to
/// 67,108,865, one more than a text may have, and stays there.
#[derive(Clone, Copy)]
pub struct TextLength {
    last: LastValues,
    bytes: u64,
}

impl Model for TextLength {
    ghost use Rattle.smap_mappings.specs.Writing.{MeasuredText};

    ghost Value = { MeasuredText };

    ghost view = { λ t. record { last = t.last; bytes = t.bytes } };

    ghost inverse = { λ t. record { last = t.last; bytes = t.bytes } };
}

impl TextLength {
    ghost use Rattle.smap_mappings.specs.Writing.{IsLengthOf};

    /// No mapping so far.
    pub fn new() -> Self
        ensures { IsLengthOf [] result }
    {
        TextLength {
            last: LastValues::none(),
            bytes: 0,
        }
    }

    /// Counts the next mapping. The caller gives one of which no number is past 2147483647.
    #[inline(always)]
    pub fn add(&mut self, mapping: &Mapping)
        requires state { (list : List Mapping) × IsLengthOf list self.old }
        requires in_range { is_mapping_past_limit mapping.now ≡ false }
        ensures { (list : List Mapping) → IsLengthOf list self.old
            → IsLengthOf (list ++ mapping.now ∷ []) self.new }
    {
        let segment = self.last.segment(mapping);
        let more = separators_length(&self.last.mapping, mapping) + segment_length(&segment);
        self.bytes = (self.bytes + more).min(MOST_MAPPINGS_BYTES as u64 + 1);
        self.last = self.last.after(mapping);
    }

    // The last mapping so far.
    #[inline(always)]
    pub(crate) fn last(&self) -> &Option<Mapping>
        ensures { result.now ≡ self.now.last.mapping }
    {
        &self.last.mapping
    }

    /// The length, if a text may have it.
    pub fn bytes(&self) -> Option<usize>
        ensures { (list : List Mapping) → IsLengthOf list self.now
            → result ≡ (if nat_lt most_text_bytes (length (canonical_text list)) then None
            else Some (length (canonical_text list))) }
    {
        if self.bytes > MOST_MAPPINGS_BYTES as u64 {
            None
        } else {
            Some(self.bytes as usize)
        }
    }
}

// How many bytes stand before the segment of a mapping after this one.
#[inline(always)]
fn separators_length(last: &Option<Mapping>, mapping: &Mapping) -> u64
    ensures { result ≡ length (separators last.now mapping.now) }
{
    match last {
        Some(earlier) if earlier.line == mapping.line => 1,
        Some(earlier) => u64::from(mapping.line.saturating_sub(earlier.line)),
        None => u64::from(mapping.line),
    }
}

// How many bytes a segment has.
#[inline(always)]
fn segment_length(segment: &Segment) -> u64
    requires { CanBeSpelled (fields_in segment.now) }
    ensures length { result ≡ length (spelled (fields_in segment.now)) }
    ensures few { result ≤ 35 }
{
    let column = spelling_length(segment.column);
    let Some(origin) = segment.origin else {
        return column;
    };
    let length = column
        + spelling_length(origin.source)
        + spelling_length(origin.line)
        + spelling_length(origin.column);
    match origin.name {
        Some(name) => length + spelling_length(name),
        None => length,
    }
}
