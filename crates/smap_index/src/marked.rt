//! A text that was checked, with the checkpoints of an index that has it as its one part: it was gone through once for
//! both.

ghost use Rattle.std.specs.Prelude.{◌≡◌, ◌<◌, ◌≤◌, ◌↔◌, ◌==◌, ◌++◌, ◌∷◌, [], IsOk, IfOk, IfErr, IsTrue, None, OnOk, Some, true, if◌then◌else◌, length, string_bytes};
ghost use Rattle.std.specs.List.{All, AllZip};
ghost use Rattle.smap_mappings.specs.Limits.{most_text_bytes};
ghost use Rattle.smap_mappings.specs.Mappings.{mappings_of};
ghost use Rattle.smap_mappings.specs.Accepted.{IsAccepted};
ghost use Rattle.smap_mappings.specs.Faults.{first_fault};
ghost use Rattle.smap_mappings.specs.Order.{IsInOrder};
ghost use Rattle.smap_mappings.specs.State.{mapping_at};
ghost use Rattle.smap_mappings.specs.Within.{IsWithin};
ghost use Rattle.smap_mappings.specs.declared.fault.Fault.{Fault};
ghost use Rattle.smap_mappings.specs.declared.packed_text.TextRefusal.{TextRefusal};
ghost use Rattle.smap_index.specs.Marked.{AreMarksOf};
ghost use Rattle.smap_index.specs.Marks.{marked_segments, IsCheckpointIn};
ghost use Rattle.smap_index.specs.Parts.{placed, whole_text};
ghost use Rattle.smap_index.specs.Private.Walk.{checkpoint_at};

use crate::checkpoint::Checkpoint;
use crate::checkpoints::Checkpoints;
use crate::interval::is_interval;
use crate::mark::number_after;
use smap_mappings::{Cursor, Kind, PackedText, TextCheck, TextRefusal};
use std::alloc::Global;
use std::marker::Model;

/// The checkpoints that an index at the interval `k` has of a text that is its one part and begins at the start, or that
/// there was no room for them.
#[derive(Drop)]
pub struct TextMarks {
    k: u32,
    table: Option<Checkpoints>,
}

impl Model for TextMarks {
    ghost use Rattle.smap_index.specs.Marked.{MarksContents};

    ghost Value = { MarksContents };

    ghost view = { λ m. record { k = m.k; checkpoints = m.table } };
}

impl TextMarks {
    // The interval, and the checkpoints where there was room for them.
    pub(crate) fn into_fields(self) -> (u32, Option<Checkpoints>)
        ensures interval { result.0 ≡ self.k }
        ensures table { result.1 ≡ self.checkpoints }
    {
        (self.k, self.table)
    }
}

/// A text that was checked, with its checkpoints.
#[derive(Drop)]
pub struct MarkedText {
    text: PackedText,
    marks: TextMarks,
}

impl Model for MarkedText {
    ghost use Rattle.std.specs.Prelude.{◌∷◌, []};
    ghost use Rattle.smap_index.specs.Marked.{AreMarksOf, MarkedContents};
    ghost use Rattle.smap_index.specs.Parts.{whole_text};

    ghost Value = { MarkedContents };

    ghost view = { λ m. record { text = m.text; marks = m.marks } };

    ghost invariant = { λ m. AreMarksOf (whole_text m.text ∷ []) m.marks };
}

impl MarkedText {
    /// Takes a text as `PackedText::check` does, and goes through it once for its faults and for the checkpoints of its
    /// index at the interval `k`. It refuses what that call refuses, and nothing else: `Index::of_marks` says where the
    /// interval is none, or where there was no room for the checkpoints.
    pub fn check(
        alloc: Global,
        text: String,
        sources: u32,
        names: u32,
        k: u32,
    ) -> Result<MarkedText, (TextRefusal, String)>
        ensures accepted { IsOk result ↔ ((length (string_bytes text) ≤ most_text_bytes)
            × IsAccepted (string_bytes text) sources names) }
        ensures inside { IfOk result (λ marked.
            (marked.text ≡ string_bytes text) × (marked.marks.k ≡ k)) }
        ensures clean { OnOk result (first_fault (string_bytes text) sources names ≡ None) }
        ensures within { OnOk result (All (IsWithin sources names)
            (mappings_of (string_bytes text))) }
        ensures too_long { IfErr result (λ e.
            (e.0 ≡ TextRefusal.TextTooLong) ↔ (most_text_bytes < length (string_bytes text))) }
        ensures faulty { IfErr result (λ e. (fault : Fault) → e.0 ≡ TextRefusal.Fault fault
            → first_fault (string_bytes text) sources names ≡ Some fault) }
        ensures returned { IfErr result (λ e. string_bytes e.1 ≡ string_bytes text) }
    {
        let mut check = match TextCheck::begin(text, sources, names) {
            Ok(check) => check,
            Err(text) => return Err((TextRefusal::TextTooLong, text)),
        };
        let mut table = Checkpoints::new(alloc);
        let has_room = mark_text(&mut check, k, &mut table);
        match check.finish() {
            Ok(text) => {
                // The contract of `start` says that the mappings are in order.
                let _start = text.start();
                Ok(MarkedText {
                    text,
                    marks: TextMarks {
                        k,
                        table: if has_room { Some(table) } else { None },
                    },
                })
            }
            Err((fault, text)) => Err((TextRefusal::Fault(fault), text)),
        }
    }

    /// The text and its checkpoints.
    pub fn into_fields(self) -> (PackedText, TextMarks)
        ensures text { result.0 ≡ self.text }
        ensures marks { result.1 ≡ self.marks }
        ensures marked { AreMarksOf (whole_text self.text ∷ []) self.marks }
    {
        (self.text, self.marks)
    }
}

// Goes through a text that is being checked up to its end or its first fault, and fills an empty table with a checkpoint
// for each mark. Gives whether checkpoints may stand at this interval and there was room.
fn mark_text(check: &mut TextCheck, interval: u32, table: &mut Checkpoints) -> bool
    requires begun { check.old.segments ≡ 0 }
    requires empty { table.old ≡ [] }
    ensures text { check.new.text ≡ check.old.text }
    ensures listed { (check.new.sources ≡ check.old.sources) × (check.new.names ≡ check.old.names) }
    ensures marked { IsTrue result →
        first_fault check.old.text check.old.sources check.old.names ≡ None →
        IsInOrder (mappings_of check.old.text) →
        AllZip (IsCheckpointIn (whole_text check.old.text) 0)
        (marked_segments interval [] (placed (whole_text check.old.text))) table.new }
{
    if !is_interval(interval) {
        return false;
    }
    let mut number = interval - 1;
    let mut line = 0;
    let mut has_room = true;
    while let Some((kind, after)) = check.next() {
        let after = after.cursor();
        number = number_after(interval, line, number, after.line);
        line = after.line;
        has_room = mark_segment(kind, after, number, has_room, table);
        number += check.pass(interval - 1 - number);
    }
    has_room
}

// Adds a checkpoint for a segment that has this much, with the state after it, if it has the number 0, while there is
// room. Gives whether there was.
#[inline(always)]
fn mark_segment(
    kind: Kind,
    after: Cursor,
    number: u32,
    has_room: bool,
    table: &mut Checkpoints,
) -> bool
    requires short { after.place ≤ most_text_bytes }
    ensures room { IsTrue result → IsTrue has_room }
    ensures marked { IsTrue result → table.new ≡ (if number == 0
        then table.old ++ checkpoint_at 0 (whole_text []) (mapping_at kind after) after ∷ []
        else table.old) }
{
    if number != 0 {
        return has_room;
    }
    has_room && table.push(Checkpoint::of_text(kind, after)).is_ok()
}
