//! All sections of a map, joined in order.
ghost use Rattle.std.specs.Prelude.{◌≡◌, ◌≤◌, ◌++◌, ◌∷◌, [], ℕ, List, None, length, IfOk, IfSome, IsTrue, OnOk};
ghost use Rattle.std.specs.List.{All, sum_by};
ghost use Rattle.smap_index.specs.Parts.{most_parts, whole_text};
ghost use Rattle.smap_record.specs.IndexMap.{no_sections, sections_after};
ghost use Rattle.smap_record.specs.Limits.{most_listed};
ghost use Rattle.smap_record.specs.Private.Marked.{AreMarksAt};
ghost use Rattle.smap_record.specs.Private.PartWithin.{IsPartWithin};
ghost use Rattle.smap_record.specs.Given.{GivesRead};
ghost use Rattle.smap_record.specs.Section.{part_at};
ghost use Rattle.smap_record.specs.Private.Seen.{entries_seen, sections_seen};

use crate::index_map::{Offset, SectionEntry};
use crate::refusal::MapRefusal;
use crate::section::{SectionMap, SectionPlace, SectionSources, read_section};
use smap_index::{Part, TextMarks};
use smap_mappings::PackedText;
use std::alloc::{AllocError, Global};

/// What the sections of a map state: their parts of the index, what each states of its sources, and the names of all.
#[derive(Drop)]
pub struct JoinedSections {
    pub parts: Vec<Part>,
    /// The checkpoints of the parts, where they are one text and were asked for.
    pub marks: Option<TextMarks>,
    pub sources: Vec<SectionSources>,
    pub names: Vec<String>,
}

/// Reads the sections, one after another. The bases of each are how many sources and names stand before it. Where an
/// interval is given, and there is one section alone, which begins at the start, its text is checked and its checkpoints are
/// made in one walk.
pub fn read_sections(
    alloc: Global,
    entries: Vec<SectionEntry>,
    interval: Option<u32>,
) -> Result<JoinedSections, MapRefusal>
    requires { length entries.items ≤ most_parts }
    ensures statement { GivesRead sections_seen result
        (sections_after no_sections (entries_seen entries.items)) }
    ensures count { IfOk result (λ joined. length joined.parts.items ≡ length entries.items) }
    ensures few_sources { IfOk result
        (λ joined.
        sum_by (λ sources. length sources.texts.items) joined.sources.items ≤ most_listed) }
    ensures few_names { IfOk result (λ joined. length joined.names.items ≤ most_listed) }
    ensures within { IfOk result (λ joined. All
        (IsPartWithin (sum_by (λ sources. length sources.texts.items) joined.sources.items)
        (length joined.names.items))
        joined.parts.items) }
    ensures marked { IfOk result (λ joined. IfSome joined.marks
        (AreMarksAt interval joined.parts.items)) }
{
    let count = entries.len();
    let mut joined = no_sections(alloc, count)?;
    let mut source_base: u32 = 0;
    for entry in entries {
        let offset = entry.offset.unwrap_or(Offset { line: 0, column: 0 });
        let place = SectionPlace {
            number: joined.parts.len() as u64,
            line: offset.line,
            column: offset.column,
            source_base,
            name_base: joined.names.len() as u32,
        };
        let marks_at = if place.is_only(count) { interval } else { None };
        let section = read_section(alloc, place, entry.members, marks_at)?;
        source_base += section.sources.texts.len() as u32;
        joined.push(place, section)?;
    }
    Ok(joined)
}

// No section, with room for so many.
fn no_sections(alloc: Global, room: usize) -> Result<JoinedSections, AllocError>
    ensures parts { IfOk result (λ joined. joined.parts.items ≡ []) }
    ensures marks { IfOk result (λ joined. joined.marks ≡ None) }
    ensures sources { IfOk result (λ joined. joined.sources.items ≡ []) }
    ensures names { IfOk result (λ joined. joined.names.items ≡ []) }
{
    Ok(JoinedSections {
        parts: Vec::with_capacity(alloc, room)?,
        marks: None,
        sources: Vec::with_capacity(alloc, room)?,
        names: Vec::new(alloc),
    })
}

impl JoinedSections {
    // Puts the section at this place after the others.
    fn push(&mut self, place: SectionPlace, section: SectionMap) -> Result<(), AllocError>
        ensures parts { OnOk result (self.new.parts.items
            ≡ self.old.parts.items ++ part_at place section.text ∷ []) }
        ensures marks { OnOk result (self.new.marks ≡ section.marks) }
        ensures sources { OnOk result (self.new.sources.items
            ≡ self.old.sources.items ++ section.sources ∷ []) }
        ensures names { OnOk result (self.new.names.items
            ≡ self.old.names.items ++ section.names.items) }
    {
        let mut names = section.names;
        self.parts.push(part(place, section.text))?;
        self.marks = section.marks;
        self.sources.push(section.sources)?;
        self.names.append(&mut names)
    }
}

impl SectionPlace {
    // Whether the section at this place is the only one of so many, and begins at the start.
    fn is_only(&self, count: usize) -> bool
        ensures first { IsTrue result → self.now.number ≡ 0 }
        ensures whole { IsTrue result → (text : List ℕ) → part_at self.now text ≡ whole_text text }
    {
        let is_at_start = self.line == 0 && self.column == 0;
        let is_unmoved = self.source_base == 0 && self.name_base == 0;
        count == 1 && self.number == 0 && is_at_start && is_unmoved
    }
}

/// The part of the index that a section at this place with this text is.
pub fn part(place: SectionPlace, text: PackedText) -> Part
    ensures { result ≡ part_at place text }
{
    Part {
        line: place.line,
        column: place.column,
        text,
        source_base: place.source_base,
        name_base: place.name_base,
    }
}
