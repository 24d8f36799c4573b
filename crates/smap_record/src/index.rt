//! The index of a map's mappings.
ghost use Rattle.std.specs.Prelude.{◌≡◌, ◌≤◌, Some, false, length, IfOk, IfSome, OnOk};
ghost use Rattle.std.specs.List.{list_any};
ghost use Rattle.smap_mappings.specs.Range.{is_mapping_past_limit};
ghost use Rattle.smap_mappings.specs.Exact.{IsExactOr};
ghost use Rattle.smap_index.specs.Faults.{build_fault};
ghost use Rattle.smap_index.specs.Index.{IsIndexOf};
ghost use Rattle.smap_index.specs.Parts.{joined, most_parts};
ghost use Rattle.smap_record.specs.Record.{indexed};
ghost use Rattle.smap_record.specs.Given.{GivesRead};
ghost use Rattle.smap_record.specs.Private.Marked.{AreMarksAt};

use crate::refusal::MapRefusal;
use smap_index::{BuildRefusal, Index, Part, TextMarks};
use std::alloc::Global;

/// The index of these parts, with the checkpoints that were made when their text was checked, where there are such.
pub fn build_index(
    alloc: Global,
    parts: Vec<Part>,
    marks: Option<TextMarks>,
    interval: u32,
) -> Result<Index, MapRefusal>
    requires few { length parts.items ≤ most_parts }
    requires marked { IfSome marks (AreMarksAt (Some interval) parts.items) }
    ensures parts { GivesRead (λ index. index.parts) result (indexed parts.items interval) }
    ensures interval { IfOk result (λ index. index.k ≡ interval) }
    ensures in_range { OnOk result (list_any is_mapping_past_limit (joined parts.items) ≡ false) }
{
    match built(alloc, parts, marks, interval) {
        Ok(index) => Ok(index),
        Err(BuildRefusal::Memory) => Err(MapRefusal::Memory),
        Err(refusal) => Err(MapRefusal::Build(refusal)),
    }
}

// The same, or why there is none.
fn built(
    alloc: Global,
    parts: Vec<Part>,
    marks: Option<TextMarks>,
    interval: u32,
) -> Result<Index, BuildRefusal>
    requires few { length parts.items ≤ most_parts }
    requires marked { IfSome marks (AreMarksAt (Some interval) parts.items) }
    ensures { IsExactOr BuildRefusal.Memory result (build_fault parts.items interval)
        (λ index. IsIndexOf index parts.items interval) }
{
    match marks {
        Some(marks) => Index::of_marks(parts, marks),
        None => Index::build(alloc, parts, interval),
    }
}
