//! What stands at `sections`, in one of its entries, or at an offset.
ghost use Rattle.std.specs.Prelude.{◌≡◌, map, option_map, position, IfOk};
ghost use Rattle.serde_json.specs.View.{members_view, view};
ghost use Rattle.smap_explain.specs.KeyFacts.{coordinate_facts, entry_facts, first_without_map, has_line, has_no_map, key_seen, facts_in_list, nested_facts, offset_facts, section_entry, section_offset_facts, sections_facts};

use crate::explanation::{Key, KeyFacts};
use crate::key_place::{at_item, at_key, in_offset, in_section, key_reported};
use crate::sections::{entry, field, list, map_of, member, object_at, section_map};
use serde_json::{Map, Value};
use smap_mappings::LIMIT;
use std::alloc::{AllocError, Global};

/// The first entry of `sections` that has no map, or what stands at `sections`.
pub fn sections_facts(
    alloc: Global,
    members: &Map<String, Value>,
) -> Result<Option<KeyFacts>, AllocError>
    ensures { IfOk result (λ facts. option_map key_seen facts
        ≡ sections_facts (members_view members.now.entries)) }
{
    match field(members, "sections") {
        Some(sections) => facts_in_list(alloc, sections),
        None => Ok(None),
    }
}

fn facts_in_list(alloc: Global, sections: &Value) -> Result<Option<KeyFacts>, AllocError>
    ensures { IfOk result (λ facts. option_map key_seen facts ≡ facts_in_list (view sections.now)) }
{
    match first_without_map(sections) {
        Some(number) => match entry(sections, number) {
            Some(section) => Ok(Some(entry_facts(alloc, section, number)?)),
            None => Ok(None),
        },
        None => Ok(Some(key_reported(alloc, at_key(Key::Sections), Some(sections))?)),
    }
}

// The number of the first entry that has no map.
fn first_without_map(sections: &Value) -> Option<u64>
    ensures { result ≡ first_without_map (view sections.now) }
{
    let number = first_entry_without_map(list(sections)?)?;
    Some(number as u64)
}

fn first_entry_without_map(entries: &[Value]) -> Option<usize>
    ensures { result ≡ position has_no_map (map view entries.now) }
{
    entries.iter().position(|section| has_no_map(section))
}

fn has_no_map(section: &Value) -> bool
    ensures { result ≡ has_no_map (view section.now) }
{
    map_of(section).is_none()
}

fn entry_facts(alloc: Global, section: &Value, number: u64) -> Result<KeyFacts, AllocError>
    ensures { IfOk result (λ facts. key_seen facts ≡ entry_facts number (view section.now)) }
{
    match section.as_object() {
        Some(members) => key_reported(alloc, in_section(Key::Map, number), member(members, "map")),
        None => key_reported(alloc, at_item(Key::Sections, number), Some(section)),
    }
}

/// What stands at the offset of a section, or in it.
pub fn offset_facts(
    alloc: Global,
    members: &Map<String, Value>,
    number: u64,
) -> Result<Option<KeyFacts>, AllocError>
    ensures { IfOk result (λ facts. option_map key_seen facts
        ≡ offset_facts (members_view members.now.entries) number) }
{
    match section_entry(members, number) {
        Some(section) => Ok(Some(section_offset_facts(alloc, section, number)?)),
        None => Ok(None),
    }
}

// The members of the section with this number.
fn section_entry(members: &Map<String, Value>, number: u64) -> Option<&Map<String, Value>>
    ensures { option_map (λ section. members_view section.now.entries) result
        ≡ section_entry (members_view members.now.entries) number }
{
    entry(field(members, "sections")?, number)?.as_object()
}

fn section_offset_facts(
    alloc: Global,
    section: &Map<String, Value>,
    number: u64,
) -> Result<KeyFacts, AllocError>
    ensures { IfOk result (λ facts. key_seen facts
        ≡ section_offset_facts number (members_view section.now.entries)) }
{
    match object_at(section, "offset") {
        Some(offset) => coordinate_facts(alloc, offset, number),
        None => key_reported(
            alloc,
            in_section(Key::Offset, number),
            member(section, "offset"),
        ),
    }
}

fn coordinate_facts(
    alloc: Global,
    offset: &Map<String, Value>,
    number: u64,
) -> Result<KeyFacts, AllocError>
    ensures { IfOk result (λ facts. key_seen facts
        ≡ coordinate_facts number (members_view offset.now.entries)) }
{
    if has_line(offset) {
        let column = member(offset, "column");
        key_reported(alloc, in_offset(Key::OffsetColumn, number), column)
    } else {
        let line = member(offset, "line");
        key_reported(alloc, in_offset(Key::OffsetLine, number), line)
    }
}

// Whether the line of an offset is one that an offset may have.
fn has_line(offset: &Map<String, Value>) -> bool
    ensures { result ≡ has_line (members_view offset.now.entries) }
{
    match field(offset, "line") {
        Some(line) => match line.as_u64() {
            Some(line) => line <= u64::from(LIMIT),
            None => false,
        },
        None => false,
    }
}

/// What stands at `sections` of a section's map.
pub fn nested_facts(
    alloc: Global,
    members: &Map<String, Value>,
    number: u64,
) -> Result<Option<KeyFacts>, AllocError>
    ensures { IfOk result (λ facts. option_map key_seen facts
        ≡ nested_facts (members_view members.now.entries) number) }
{
    match section_map(members, number) {
        Some(map) => {
            let place = in_section(Key::NestedSections, number);
            Ok(Some(key_reported(alloc, place, member(map, "sections"))?))
        }
        None => Ok(None),
    }
}
