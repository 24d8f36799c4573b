//! The sections of an index map, as its outer object lists them.
ghost use Rattle.std.specs.Prelude.{◌≡◌, ◌≤◌, length, option_and_then, position, option_map, IfOk, IfSome};
ghost use Rattle.serde_json.specs.Find.{as_object};
ghost use Rattle.serde_json.specs.View.{view};
ghost use Rattle.smap_mappings.specs.Limits.{most_indices};
ghost use Rattle.smap_index.specs.Parts.{most_parts};
ghost use Rattle.smap_record.specs.IndexMap.{entries_in, entries_of, entry_in, has_no_offset, index_entries, is_index_map, offset_in, regular_entry};
ghost use Rattle.smap_record.specs.Json.{list_of, number_below};
ghost use Rattle.smap_record.specs.Given.{GivesRead};
ghost use Rattle.smap_record.specs.Private.Seen.{entries_seen, entry_seen, fields_seen};

use crate::fields::take;
use crate::json::{index_below, object};
use crate::refusal::MapRefusal;
use serde_json::{Map, Value};
use smap_mappings::LIMIT;
use std::alloc::{AllocError, Global};

// How many sections an index map has at most, which is as many as an index has parts.
const MOST_SECTIONS: usize = 65536;

/// Where a section begins.
#[derive(Clone, Copy)]
pub struct Offset {
    pub line: u32,
    pub column: u32,
}

/// A section, as the outer object lists it.
#[derive(Drop)]
pub struct SectionEntry {
    /// Where it begins, where that is stated right.
    pub offset: Option<Offset>,
    /// Whether its map is an index map.
    pub is_nested: bool,
    pub members: Map<String, Value>,
}

/// Reads the entries of an index map with these `sections`, or the one entry of a regular map, with these members.
#[tactic(auto, unfolding(crate::specs::IndexMap::entries_in))]
pub fn read_entries(
    alloc: Global,
    sections: Option<Value>,
    members: Map<String, Value>,
) -> Result<Vec<SectionEntry>, MapRefusal>
    ensures statement { GivesRead (λ entries. entries_seen entries.items) result
        (entries_in (option_map view sections) (fields_seen members.entries)) }
    ensures few { IfOk result (λ entries. length entries.items ≤ most_parts) }
{
    let Some(entries) = entries(alloc, sections, members)? else {
        return Err(MapRefusal::Sections);
    };
    if let Some(i) = first_without_offset(&entries) {
        return Err(MapRefusal::SectionOffset(i as u64));
    }
    if let Some(i) = first_nested(&entries) {
        return Err(MapRefusal::Nested(i as u64));
    }
    Ok(entries)
}

// The number of the first section whose offset is not stated right.
fn first_without_offset(entries: &[SectionEntry]) -> Option<usize>
    ensures { result ≡ position has_no_offset (entries_seen entries.now) }
{
    entries.iter().position(|entry| entry.offset.is_none())
}

// The number of the first section whose map is an index map.
fn first_nested(entries: &[SectionEntry]) -> Option<usize>
    ensures { result ≡ position is_index_map (entries_seen entries.now) }
{
    entries.iter().position(|entry| entry.is_nested)
}

// The entries, where they are a list of no more than there may be.
fn entries(
    alloc: Global,
    sections: Option<Value>,
    members: Map<String, Value>,
) -> Result<Option<Vec<SectionEntry>>, AllocError>
    ensures list { IfOk result (λ list. option_map (λ entries. entries_seen entries.items) list
        ≡ entries_of (option_map view sections) (fields_seen members.entries)) }
    ensures few { IfOk result (λ list. IfSome list (λ entries. length entries.items ≤ most_parts)) }
{
    match sections {
        Some(sections) => index_entries(alloc, sections),
        None => Ok(Some(vec![in alloc; regular_entry(members)]?)),
    }
}

fn regular_entry(members: Map<String, Value>) -> SectionEntry
    ensures { entry_seen result ≡ regular_entry (fields_seen members.entries) }
{
    SectionEntry {
        offset: Some(Offset { line: 0, column: 0 }),
        is_nested: false,
        members,
    }
}

fn index_entries(alloc: Global, sections: Value) -> Result<Option<Vec<SectionEntry>>, AllocError>
    ensures list { IfOk result (λ list. option_map (λ entries. entries_seen entries.items) list
        ≡ index_entries (view sections)) }
    ensures few { IfOk result (λ list. IfSome list (λ entries. length entries.items ≤ most_parts)) }
{
    match entry_list(alloc, sections)? {
        Some(entries) if entries.len() <= MOST_SECTIONS => Ok(Some(entries)),
        _ => Ok(None),
    }
}

fn entry_list(alloc: Global, value: Value) -> Result<Option<Vec<SectionEntry>>, AllocError>
    ensures { IfOk result (λ list. option_map (λ entries. entries_seen entries.items) list
        ≡ list_of entry_in (view value)) }
{
    let Value::Array(items) = value else {
        return Ok(None);
    };
    let mut entries = Vec::with_capacity(alloc, items.len())?;
    for item in items {
        let Some(entry) = entry(item) else {
            return Ok(None);
        };
        entries.push(entry)?;
    }
    Ok(Some(entries))
}

fn entry(value: Value) -> Option<SectionEntry>
    ensures { option_map entry_seen result ≡ entry_in (view value) }
{
    let Some(mut members) = object(value) else {
        return None;
    };
    let offset = read_offset(take(&mut members, "offset"));
    let Some(map) = take(&mut members, "map") else {
        return None;
    };
    let Some(mut map) = object(map) else {
        return None;
    };
    let is_nested = take(&mut map, "sections").is_some();
    Some(SectionEntry {
        offset,
        is_nested,
        members: map,
    })
}

// The offset that a field states.
fn read_offset(field: Option<Value>) -> Option<Offset>
    ensures { result
        ≡ option_and_then offset_in (option_and_then as_object (option_map view field)) }
{
    let Some(value) = field else {
        return None;
    };
    let Some(mut members) = object(value) else {
        return None;
    };
    let line = coordinate(take(&mut members, "line"))?;
    let column = coordinate(take(&mut members, "column"))?;
    Some(Offset { line, column })
}

// The line or column that a field states.
fn coordinate(field: Option<Value>) -> Option<u32>
    ensures { result ≡ option_and_then (number_below most_indices) (option_map view field) }
{
    match index_below(LIMIT as usize + 1, &field?) {
        Some(number) => Some(number as u32),
        None => None,
    }
}
