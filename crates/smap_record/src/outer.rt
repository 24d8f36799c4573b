//! The outer object of a map file: its version, the name of the generated file, and its sections.
ghost use Rattle.std.specs.Prelude.{◌≡◌, ◌≤◌, length, option_map, IfOk};
ghost use Rattle.serde_json.specs.Data.{object};
ghost use Rattle.serde_json.specs.View.{members_view, view};
ghost use Rattle.smap_index.specs.Parts.{most_parts};
ghost use Rattle.smap_record.specs.Outer.{is_three, outer_in};
ghost use Rattle.smap_record.specs.Given.{GivesRead};
ghost use Rattle.smap_record.specs.Private.Seen.{outer_seen};

use crate::fields::{read_text, take};
use crate::index_map::{SectionEntry, read_entries};
use crate::refusal::MapRefusal;
use serde_json::{Map, Value};
use std::alloc::Global;

/// What the outer object states: the sections of the map, and the generated file's name.
#[derive(Drop)]
pub struct Outer {
    pub entries: Vec<SectionEntry>,
    pub file: Option<String>,
}

/// Reads the outer object. Of an index map's, only `version`, `sections` and `file` are read.
#[tactic(auto, unfolding(crate::specs::Outer::outer_in))]
pub fn read_outer(alloc: Global, mut members: Map<String, Value>) -> Result<Outer, MapRefusal>
    ensures statement { GivesRead outer_seen result
        (outer_in (object (members_view members.entries))) }
    ensures few { IfOk result (λ outer. length outer.entries.items ≤ most_parts) }
{
    if !is_three(take(&mut members, "version")) {
        return Err(MapRefusal::Version);
    }
    let sections = take(&mut members, "sections");
    let file = take(&mut members, "file");
    let entries = read_entries(alloc, sections, members)?;
    let file = read_text(file)?;
    Ok(Outer { entries, file })
}

// Whether a field is the number 3.
fn is_three(field: Option<Value>) -> bool
    ensures { result ≡ is_three (option_map view field) }
{
    match field {
        Some(version) => version.as_u64() == Some(3),
        None => false,
    }
}
