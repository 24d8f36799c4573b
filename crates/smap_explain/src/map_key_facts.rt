//! What is wrong at a key of a map, which may be that of a section.
ghost use Rattle.std.specs.Prelude.{◌≡◌, map, option_map, position, IfOk};
ghost use Rattle.serde_json.specs.View.{members_view, view};
ghost use Rattle.smap_explain.specs.KeyFacts.{asked_facts, first_wrong, has_wrong, index_of, is_wrong, item_at, key_seen, map_at, map_key_facts, wrong_at, wrong_in_section, wrong_in_sections, wrong_place};

use crate::explanation::KeyFacts;
use crate::key_place::{KeyPlace, key_reported};
use crate::rule::{MapKey, Wrong, asked_key, key_of, key_text, most_in, rule_of, wrong_in};
use crate::sections::{entry, field, list, map_of, member};
use serde_json::{Map, Value};
use std::alloc::{AllocError, Global};

/// What is wrong at a key of the map, or of the first of its sections' maps in which something is wrong there.
pub fn map_key_facts(
    alloc: Global,
    members: &Map<String, Value>,
    key: MapKey,
) -> Result<Option<KeyFacts>, AllocError>
    ensures { IfOk result (λ facts. option_map key_seen facts
        ≡ map_key_facts key (members_view members.now.entries)) }
{
    match field(members, "sections") {
        Some(sections) => wrong_in_sections(alloc, sections, key),
        None => asked_facts(alloc, None, members, key),
    }
}

fn wrong_in_sections(
    alloc: Global,
    sections: &Value,
    key: MapKey,
) -> Result<Option<KeyFacts>, AllocError>
    ensures { IfOk result (λ facts. option_map key_seen facts
        ≡ wrong_in_sections key (view sections.now)) }
{
    match first_wrong(key, sections) {
        Some(number) => wrong_in_section(alloc, sections, key, number),
        None => Ok(None),
    }
}

fn wrong_in_section(
    alloc: Global,
    sections: &Value,
    key: MapKey,
    number: u64,
) -> Result<Option<KeyFacts>, AllocError>
    ensures { IfOk result (λ facts. option_map key_seen facts
        ≡ wrong_in_section key (view sections.now) number) }
{
    match map_at(sections, number) {
        Some(map) => asked_facts(alloc, Some(number), map, key),
        None => Ok(None),
    }
}

// The map of an entry.
fn map_at(sections: &Value, number: u64) -> Option<&Map<String, Value>>
    ensures { option_map (λ map. members_view map.now.entries) result
        ≡ map_at number (view sections.now) }
{
    map_of(entry(sections, number)?)
}

// The number of the first section in whose map something is wrong at a key.
fn first_wrong(key: MapKey, sections: &Value) -> Option<u64>
    ensures { result ≡ first_wrong key (view sections.now) }
{
    let number = first_wrong_entry(key, list(sections)?)?;
    Some(number as u64)
}

fn first_wrong_entry(key: MapKey, entries: &[Value]) -> Option<usize>
    ensures { result ≡ position (has_wrong key) (map view entries.now) }
{
    entries.iter().position(|section| has_wrong(key, section))
}

fn has_wrong(key: MapKey, section: &Value) -> bool
    ensures { result ≡ has_wrong key (view section.now) }
{
    match map_of(section) {
        Some(map) => is_wrong(key, map),
        None => false,
    }
}

fn is_wrong(key: MapKey, map: &Map<String, Value>) -> bool
    ensures { result ≡ is_wrong key (members_view map.now.entries) }
{
    wrong_in(asked_key(key, map), map).is_some()
}

// What is wrong at the key of a map that is asked.
fn asked_facts(
    alloc: Global,
    section: Option<u64>,
    map: &Map<String, Value>,
    key: MapKey,
) -> Result<Option<KeyFacts>, AllocError>
    ensures { IfOk result (λ facts. option_map key_seen facts
        ≡ asked_facts section key (members_view map.now.entries)) }
{
    let key = asked_key(key, map);
    let Some(wrong) = wrong_in(key, map) else {
        return Ok(None);
    };
    let place = wrong_place(section, key, map, wrong);
    Ok(Some(key_reported(alloc, place, wrong_at(key, map, wrong))?))
}

fn wrong_place(
    section: Option<u64>,
    key: MapKey,
    map: &Map<String, Value>,
    wrong: Wrong,
) -> KeyPlace
    ensures { result ≡ wrong_place section key (members_view map.now.entries) wrong }
{
    KeyPlace {
        key: key_of(key),
        section,
        index: index_of(wrong),
        most: most_in(wrong, rule_of(key, map)),
    }
}

fn index_of(wrong: Wrong) -> Option<u64>
    ensures { result ≡ index_of wrong }
{
    match wrong {
        Wrong::Value => None,
        Wrong::Item(index) => Some(index),
    }
}

// The value that is wrong, or the item of it.
fn wrong_at(key: MapKey, map: &Map<String, Value>, wrong: Wrong) -> Option<&Value>
    ensures { option_map (λ value. view value.now) result
        ≡ wrong_at key (members_view map.now.entries) wrong }
{
    match wrong {
        Wrong::Value => member(map, key_text(key)),
        Wrong::Item(index) => item_at(key, map, index),
    }
}

fn item_at(key: MapKey, map: &Map<String, Value>, index: u64) -> Option<&Value>
    ensures { option_map (λ value. view value.now) result
        ≡ item_at key (members_view map.now.entries) index }
{
    list(field(map, key_text(key))?)?.get(index as usize)
}
