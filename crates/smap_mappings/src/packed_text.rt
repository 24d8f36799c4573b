//! A text that was checked: its segments are given one by one, or all at once.
ghost use Rattle.std.specs.Prelude.{◌≡◌, ◌+◌, ◌*◌, ◌<◌, ◌≤◌, ◌↔◌, ℕ, Some, IsOk, IfOk, IfErr, IfNone, IfSome, None, OnOk, is_some, if◌then◌else◌, length, string_bytes};
ghost use Rattle.std.specs.List.{All};
ghost use Rattle.smap_mappings.specs.Limits.{most_text_bytes};
ghost use Rattle.smap_mappings.specs.Mappings.{mappings_of};
ghost use Rattle.smap_mappings.specs.Accepted.{IsAccepted};
ghost use Rattle.smap_mappings.specs.Canonical.{canonical_text};
ghost use Rattle.smap_mappings.specs.Faults.{first_fault};
ghost use Rattle.smap_mappings.specs.Counts.{segment_count, used_lines_of};
ghost use Rattle.smap_mappings.specs.Order.{IsInOrder};
ghost use Rattle.smap_mappings.specs.Within.{IsWithin};
ghost use Rattle.smap_mappings.specs.State.{mapping_at, IsAfter, IsBetween, IsMappingAt, IsNext};
ghost use Rattle.smap_mappings.specs.LineWalk.{decoded_in, IsWalked};
ghost use Rattle.smap_mappings.specs.PackedText.{IsPacked};
ghost use Rattle.smap_mappings.specs.Private.Walk.{WalksUpTo};

use crate::check::check_after;
use crate::copied::canonical_copy;
use crate::cursor::Cursor;
use crate::fault::Fault;
use crate::limits::MOST_MAPPINGS_BYTES;
use crate::line_walk::{LineWalk, walk_line};
use crate::mapping::Mapping;
use crate::meter::Meter;
use crate::next::next_segment;
use crate::state::State;
use crate::walk::{Walk, walk_whole};
use std::alloc::{AllocError, Global};
use std::marker::Model;

/// Why a text is refused.
#[derive(Clone, Copy, Debug, PartialEq, Eq)]
pub enum TextRefusal {
    /// It has more than 67,108,864 bytes.
    TextTooLong,
    /// A segment of it is faulty: the first such.
    Fault(Fault),
}

/// A `mappings` text (ECMA-426, Mappings structure) that was checked, and stays packed. Contracts see it as the
/// bytes of its text.
#[derive(Drop)]
pub struct PackedText {
    text: String,
    segments: u64,
    used_lines: u64,
}

impl Model for PackedText {
    ghost use Rattle.std.specs.Prelude.{ℕ, List, string_bytes};
    ghost use Rattle.smap_mappings.specs.PackedText.{IsPackedWith};

    ghost Value = { List ℕ };

    ghost view = { λ p. string_bytes p.text };

    ghost invariant = { λ p. IsPackedWith (string_bytes p.text) p.segments p.used_lines };
}

impl PackedText {
    /// Takes a text in which each source index is below `sources` and each name index below `names`: these are how
    /// many sources and names the map lists. A text that is too long is refused as `TextTooLong`, whatever faults it
    /// has. Otherwise the refusal is the first fault. A refusal hands the text back as it was. The call takes no
    /// memory.
    pub fn check(
        text: String,
        sources: u32,
        names: u32,
    ) -> Result<PackedText, (TextRefusal, String)>
        ensures accepted { IsOk result ↔ ((length (string_bytes text) ≤ most_text_bytes)
            × IsAccepted (string_bytes text) sources names) }
        ensures inside { IfOk result (λ packed. packed ≡ string_bytes text) }
        ensures clean { OnOk result (first_fault (string_bytes text) sources names ≡ None) }
        ensures within { OnOk result (All (IsWithin sources names)
            (mappings_of (string_bytes text))) }
        ensures too_long { IfErr result (λ e.
            (e.0 ≡ TextRefusal.TextTooLong) ↔ (most_text_bytes < length (string_bytes text))) }
        ensures faulty { IfErr result (λ e. (fault : Fault) → e.0 ≡ TextRefusal.Fault fault
            → first_fault (string_bytes text) sources names ≡ Some fault) }
        ensures returned { IfErr result (λ e. e.1 ≡ text) }
    {
        if text.len() > MOST_MAPPINGS_BYTES {
            return Err((TextRefusal::TextTooLong, text));
        }
        let walk = walk_whole(text.as_bytes(), sources, names);
        match PackedText::after(text, sources, names, &walk) {
            Ok(packed) => Ok(packed),
            Err((fault, text)) => Err((TextRefusal::Fault(fault), text)),
        }
    }

    // The text through which a walk has come so far, or its first fault.
    pub(crate) fn after(
        text: String,
        sources: u32,
        names: u32,
        walk: &Walk,
    ) -> Result<PackedText, (Fault, String)>
        requires short { length (string_bytes text) ≤ most_text_bytes }
        requires walked { WalksUpTo (string_bytes text) sources names walk.now }
        ensures accepted { IsOk result ↔ IsAccepted (string_bytes text) sources names }
        ensures inside { IfOk result (λ packed. packed ≡ string_bytes text) }
        ensures clean { OnOk result (first_fault (string_bytes text) sources names ≡ None) }
        ensures within { OnOk result (All (IsWithin sources names)
            (mappings_of (string_bytes text))) }
        ensures faulty { IfErr result (λ e.
            first_fault (string_bytes text) sources names ≡ Some e.0) }
        ensures returned { IfErr result (λ e. e.1 ≡ text) }
    {
        match check_after(text.as_bytes(), sources, names, walk) {
            Ok(counts) => Ok(PackedText {
                text,
                segments: counts.segments,
                used_lines: counts.used_lines,
            }),
            Err(fault) => Err((fault, text)),
        }
    }

    /// How many segments the text has.
    pub fn segments(&self) -> u64
        ensures count { result ≡ segment_count self.now }
        ensures bound { 2 * result ≤ length self.now + 1 }
    {
        self.segments
    }

    /// How many lines of the text hold a segment.
    pub fn used_lines(&self) -> u64
        ensures { result ≡ used_lines_of self.now }
    {
        self.used_lines
    }

    /// The state before the first segment.
    pub fn start(&self) -> State
        ensures before_all { IsAfter self.now 0 result }
        ensures packed { IsPacked self.now }
        ensures ordered { IsInOrder (mappings_of self.now) }
    {
        let _text = &self.text;
        State::new(Cursor::START)
    }

    /// The state at a place between two segments of this text, with the running values there. The caller gives a place
    /// and values that stand between two segments: a cursor that a state of this text gave, or one worked out from it.
    #[inline(always)]
    pub fn state_at(&self, cursor: Cursor) -> State
        requires { IsBetween self.now cursor }
        ensures { result ≡ cursor }
    {
        let _text = &self.text;
        State::new(cursor)
    }

    /// The mapping of the next segment and the state after it, whose running values are the mapping's numbers, or
    /// `None` at the end of the text. The caller gives a state of this text, and a meter whose count of segments leaves
    /// room for one more. A segment that is given adds one to that count, and the end adds nothing. The call takes no
    /// memory.
    #[inline(always)]
    pub fn next(&self, state: &State, meter: &mut Meter) -> Option<(Mapping, State)>
        requires state { IsBetween self.now state.now }
        requires room { meter.old.segments < u64.MAX }
        ensures some { IfSome result (λ r. (j : ℕ) →
            IsAfter self.now j state.now → IsNext self.now j r.0 r.1) }
        ensures values { IfSome result (λ r. IsMappingAt r.1 r.0) }
        ensures none { IfNone result ((j : ℕ) →
            IsAfter self.now j state.now → j ≡ segment_count self.now) }
        ensures counted { meter.new ≡ (if is_some result
            then record meter.old { segments = meter.old.segments + 1 }
            else meter.old) }
    {
        match next_segment(self.text.as_bytes(), &state.cursor()) {
            Some((kind, after)) => {
                meter.count_segments(1);
                Some((after.mapping(kind), State::new(after)))
            }
            None => None,
        }
    }

    /// Walks along the line of a state, from the state on: over its segments before this column, but over no more than
    /// `most`. Where it stops at a segment on the line, it gives that one too. The caller gives a state of this text, and
    /// a meter whose count of segments leaves room for `most` more. Each segment that is passed adds one to that count,
    /// and so does the one at which the walk stops. The call takes no memory.
    #[inline(always)]
    pub fn walk_line(&self, state: &State, end: u64, most: u32, meter: &mut Meter) -> LineWalk
        requires state { IsBetween self.now state.now }
        requires room { meter.old.segments + most ≤ u64.MAX }
        ensures walked { (j : ℕ) →
            IsAfter self.now j state.now → IsWalked self.now j state.now end most result }
        ensures few { decoded_in result ≤ most }
        ensures counted { meter.new
            ≡ record meter.old { segments = meter.old.segments + decoded_in result } }
    {
        let walk = walk_line(self.text.as_bytes(), &state.cursor(), end, most);
        meter.count_segments(walk.decoded());
        walk
    }

    /// The mappings of the text, in order.
    pub fn decode(&self, alloc: Global) -> Result<Vec<Mapping>, AllocError>
        ensures { IfOk result (λ list. list.items ≡ mappings_of self.now) }
    {
        decode_segments(alloc, self.text.as_bytes(), self.segments as usize)
    }

    /// The canonical text of the text's mappings, which is what `encode` makes of them. A text that is canonical as it
    /// stands, save for `;` at its end, is copied; any other is decoded and encoded in one pass.
    pub fn canonical_text(&self, alloc: Global) -> Result<String, AllocError>
        ensures text { IfOk result
            (λ text. string_bytes text ≡ canonical_text (mappings_of self.now)) }
        ensures few { length (canonical_text (mappings_of self.now)) ≤ length self.now }
        ensures short { length self.now ≤ most_text_bytes }
        ensures decodes { mappings_of (canonical_text (mappings_of self.now))
            ≡ mappings_of self.now }
        ensures accepted { (sources names : ℕ) →
            All (IsWithin sources names) (mappings_of self.now) →
            IsAccepted (canonical_text (mappings_of self.now)) sources names }
    {
        canonical_copy(alloc, self.text.as_bytes())
    }
}

// The mappings of a checked text, which are expected to be this many.
fn decode_segments(alloc: Global, bytes: &[u8], expected: usize) -> Result<Vec<Mapping>, AllocError>
    requires { IsPacked bytes.now }
    ensures { IfOk result (λ list. list.items ≡ mappings_of bytes.now) }
{
    let mut list = Vec::with_capacity(alloc, expected)?;
    let mut at = Cursor::START;
    while let Some((kind, after)) = next_segment(bytes, &at) {
        list.push(after.mapping(kind))?;
        at = after;
    }
    Ok(list)
}

// A checked text holds no list: with a further field this would not compile.
fn has_these_fields_alone(packed: &PackedText) {
    let PackedText {
        text: _,
        segments: _,
        used_lines: _,
    } = packed;
}
