//! A checkpoint: a mapping and the state after its segment, in which no number stands twice.

ghost use Rattle.std.specs.Prelude.{◌≡◌, ◌≤◌, [], false};
ghost use Rattle.smap_mappings.specs.Range.{is_mapping_past_limit};
ghost use Rattle.smap_mappings.specs.Limits.{most_text_bytes};
ghost use Rattle.smap_mappings.specs.State.{mapping_at, IsBetween, IsMappingAt};
ghost use Rattle.smap_index.specs.Parts.{placed_mapping, whole_text};
ghost use Rattle.smap_index.specs.Checkpoint.{origin_with, mapping_of, state_of};
ghost use Rattle.smap_index.specs.Private.Walk.{checkpoint_at, kind_of, IsFitting};

use crate::part::Part;
use smap_mappings::{Cursor, Kind, Mapping, Origin, State};

// A segment from which a look-up can begin: the number of its part, from 0, and what it has, which share a word; the byte
// place after it in the part's text; and the running values there, at their place in the joined list. Of these the
// mapping has some, and the state has all. The column stands before the line, so that a search loads both as one number.
#[derive(Clone, Copy)]
pub struct Checkpoint {
    pub part: u16,
    pub kind: Kind,
    pub place: u32,
    pub column: u32,
    pub line: u32,
    pub source: u32,
    pub original_line: u32,
    pub original_column: u32,
    pub name: u32,
}

// There may be one for each line of a map, so their size decides what an index takes.
const _: () = prove!(size_of::<Checkpoint>() == 32);

impl Checkpoint {
    // The checkpoint of a mapping of the part that has this number, with the state after its segment.
    pub fn new(number: u16, part: &Part, mapping: &Mapping, after: &State) -> Self
        requires values { IsMappingAt after.now mapping.now }
        requires in_range { is_mapping_past_limit (placed_mapping part.now mapping.now) ≡ false }
        requires fitting { IsFitting part.now after.now }
        ensures { result ≡ checkpoint_at number part.now mapping.now after.now }
    {
        let after = after.cursor();
        Checkpoint {
            part: number,
            kind: kind_of(mapping),
            place: after.place as u32,
            line: part.line + after.line,
            column: if after.line == 0 {
                part.column + after.column
            } else {
                after.column
            },
            source: part.source_base + after.source,
            original_line: after.original_line,
            original_column: after.original_column,
            name: part.name_base + after.name,
        }
    }

    // The checkpoint of a segment of a text that is the one part, and begins at the start: what the segment has, and the
    // state after it.
    #[inline(always)]
    pub fn of_text(kind: Kind, after: Cursor) -> Self
        requires short { after.place ≤ most_text_bytes }
        ensures { result ≡ checkpoint_at 0 (whole_text []) (mapping_at kind after) after }
    {
        Checkpoint {
            part: 0,
            kind,
            place: after.place as u32,
            line: after.line,
            column: after.column,
            source: after.source,
            original_line: after.original_line,
            original_column: after.original_column,
            name: after.name,
        }
    }

    // The mapping, at its place in the joined list.
    #[inline(always)]
    pub fn mapping(&self) -> Mapping
        ensures { result ≡ mapping_of self.now }
    {
        Mapping {
            line: self.line,
            column: self.column,
            origin: match self.kind {
                Kind::Unmapped => None,
                Kind::Mapped => Some(self.origin(None)),
                Kind::Named => Some(self.origin(Some(self.name))),
            },
        }
    }

    #[inline(always)]
    fn origin(&self, name: Option<u32>) -> Origin
        ensures { result ≡ origin_with self.now name }
    {
        Origin {
            source: self.source,
            line: self.original_line,
            column: self.original_column,
            name,
        }
    }

    // The state after the segment in the text of its part.
    pub fn state(&self, part: &Part) -> State
        requires { IsBetween part.now.text (state_of part.now self.now) }
        ensures { result ≡ state_of part.now self.now }
    {
        let line = self.line.saturating_sub(part.line);
        part.text.state_at(Cursor {
            place: self.place as usize,
            line,
            column: if line == 0 {
                self.column.saturating_sub(part.column)
            } else {
                self.column
            },
            source: self.source.saturating_sub(part.source_base),
            original_line: self.original_line,
            original_column: self.original_column,
            name: self.name.saturating_sub(part.name_base),
        })
    }
}

// What a mapping's segment has.
#[inline(always)]
pub fn kind_of(mapping: &Mapping) -> Kind
    ensures { result ≡ kind_of mapping.now.origin }
{
    match &mapping.origin {
        None => Kind::Unmapped,
        Some(origin) => match origin.name {
            None => Kind::Mapped,
            Some(_) => Kind::Named,
        },
    }
}

// A checkpoint is these numbers: with a further field this would not compile.
fn has_these_fields_alone(checkpoint: &Checkpoint) {
    let Checkpoint {
        part: _,
        kind: _,
        place: _,
        line: _,
        column: _,
        source: _,
        original_line: _,
        original_column: _,
        name: _,
    } = checkpoint;
}
