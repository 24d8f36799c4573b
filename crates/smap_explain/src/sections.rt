//! The sections of a map file, and what stands in them, where they stand in its JSON value.
ghost use Rattle.std.specs.Prelude.{◌≡◌, length, map, option_map};
ghost use Rattle.std.specs.Option.{option_map_or};
ghost use Rattle.serde_json.specs.Find.{get_member};
ghost use Rattle.serde_json.specs.View.{members_view, view};
ghost use Rattle.smap_record.specs.IndexMap.{object_at};
ghost use Rattle.smap_record.specs.Json.{not_null};
ghost use Rattle.smap_explain.specs.Sections.{count_at, entry_at, field_of, list_in, map_of, mappings_text, section_count, section_map};

use serde_json::{Map, Value};

/// The map of the section with this number, from 0; a regular map is the one section of itself.
pub fn section_map(members: &Map<String, Value>, number: u64) -> Option<&Map<String, Value>>
    ensures { option_map (λ map. members_view map.now.entries) result
        ≡ section_map (members_view members.now.entries) number }
{
    match field(members, "sections") {
        Some(sections) => map_of(entry(sections, number)?),
        None => { if number == 0 { Some(members) } else { None } }
    }
}

/// How many sections there are.
pub fn section_count(members: &Map<String, Value>) -> u64
    ensures { result ≡ section_count (members_view members.now.entries) }
{
    match field(members, "sections") {
        Some(sections) => count_in(sections),
        None => 1,
    }
}

/// How many items the list at a key has, and 0 where there is none.
pub fn listed(members: &Map<String, Value>, key: &str) -> u64
    ensures { result ≡ count_at key.now (members_view members.now.entries) }
{
    match field(members, key) {
        Some(value) => count_in(value),
        None => 0,
    }
}

/// The mappings text of a map.
pub fn mappings_text(members: &Map<String, Value>) -> Option<&str>
    ensures { option_map (λ text. text.now) result
        ≡ mappings_text (members_view members.now.entries) }
{
    match field(members, "mappings") {
        Some(value) => value.as_str(),
        None => None,
    }
}

/// What stands at a key, null too.
pub fn member<'a>(members: &'a Map<String, Value>, key: &str) -> Option<&'a Value>
    ensures { option_map (λ value. view value.now) result
        ≡ get_member key.now (members_view members.now.entries) }
{
    members.get(key)
}

/// What stands at a key, where it is not null.
pub fn field<'a>(members: &'a Map<String, Value>, key: &str) -> Option<&'a Value>
    ensures { option_map (λ value. view value.now) result
        ≡ field_of key.now (members_view members.now.entries) }
{
    match member(members, key) {
        Some(value) => not_null(value),
        None => None,
    }
}

fn not_null(value: &Value) -> Option<&Value>
    ensures { option_map (λ value. view value.now) result ≡ not_null (view value.now) }
{
    match value {
        Value::Null => None,
        other => Some(other),
    }
}

/// The items of a value that is a list.
#[tactic(auto, using(crate::proofs::SectionLaws::list_seen))]
pub fn list(value: &Value) -> Option<&[Value]>
    ensures { option_map (λ items. map view items.now) result ≡ list_in (view value.now) }
{
    match value {
        Value::Array(items) => Some(items.as_slice()),
        _ => None,
    }
}

// How many items a value that is a list has, and 0 where it is none.
fn count_in(value: &Value) -> u64
    ensures { result ≡ option_map_or length (list_in (view value.now)) 0 }
{
    match list(value) {
        Some(items) => items.len() as u64,
        None => 0,
    }
}

/// The entry of `sections` with this number, from 0.
pub fn entry(sections: &Value, number: u64) -> Option<&Value>
    ensures { option_map (λ value. view value.now) result ≡ entry_at number (view sections.now) }
{
    match list(sections) {
        Some(entries) => entries.get(number as usize),
        None => None,
    }
}

/// The map of an entry of `sections`.
pub fn map_of(entry: &Value) -> Option<&Map<String, Value>>
    ensures { option_map (λ map. members_view map.now.entries) result ≡ map_of (view entry.now) }
{
    match entry.as_object() {
        Some(members) => object_at(members, "map"),
        None => None,
    }
}

/// The object at a key.
pub fn object_at<'a>(members: &'a Map<String, Value>, key: &str) -> Option<&'a Map<String, Value>>
    ensures { option_map (λ map. members_view map.now.entries) result
        ≡ object_at key.now (members_view members.now.entries) }
{
    match field(members, key) {
        Some(value) => value.as_object(),
        None => None,
    }
}
