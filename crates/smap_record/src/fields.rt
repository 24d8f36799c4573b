//! The fields of an object, moved out of it one by one. What is left stays together, and is dropped in one piece.
ghost use Rattle.std.specs.Prelude.{◌≡◌, ℕ, List, false, bytes_eq, codes, option_map, string_bytes};
ghost use Rattle.serde_json.specs.Data.{object};
ghost use Rattle.serde_json.specs.Find.{get_member};
ghost use Rattle.serde_json.specs.View.{members_view, view};
ghost use Rattle.smap_record.specs.Fields.{ignored_field};
ghost use Rattle.smap_record.specs.Json.{field, not_null};
ghost use Rattle.smap_record.specs.Given.{GivesRead};
ghost use Rattle.smap_record.specs.Section.{text_in};
ghost use Rattle.smap_record.specs.Private.Seen.{fields_seen, taken_seen};

use crate::json::text;
use crate::refusal::MapRefusal;
use serde_json::{Map, Value};

/// What stands at the keys of a section's map that are read, where it is not null.
#[derive(Drop)]
pub struct SectionFields {
    pub sources: Option<Value>,
    pub names: Option<Value>,
    pub contents: Option<Value>,
    pub ignored: Option<Value>,
    pub root: Option<Value>,
    pub mappings: Option<Value>,
}

/// Moves the fields of a section's map out of its members.
pub fn take_fields(mut members: Map<String, Value>) -> SectionFields
    ensures { taken_seen result ≡ fields_seen members.entries }
{
    SectionFields {
        sources: take(&mut members, "sources"),
        names: take(&mut members, "names"),
        contents: take(&mut members, "sourcesContent"),
        ignored: take_ignored(&mut members),
        root: take(&mut members, "sourceRoot"),
        mappings: take(&mut members, "mappings"),
    }
}

/// The text in the field `file` or `sourceRoot`, either of which may be absent.
pub fn read_text(field: Option<Value>) -> Result<Option<String>, MapRefusal>
    ensures { GivesRead (option_map string_bytes) result (text_in (option_map view field)) }
{
    let Some(value) = field else {
        return Ok(None);
    };
    match text(value) {
        Some(text) => Ok(Some(text)),
        None => Err(MapRefusal::FileOrRoot),
    }
}

/// Moves out what stands at a key, where it is not null. The other keys keep theirs.
pub fn take(members: &mut Map<String, Value>, key: &str) -> Option<Value>
    ensures value { option_map view result
        ≡ field key.now (object (members_view members.old.entries)) }
    ensures others { (other : List ℕ) → bytes_eq other key.now ≡ false
        → get_member other (members_view members.new.entries)
        ≡ get_member other (members_view members.old.entries) }
{
    match members.remove(key) {
        Some(value) => not_null(value),
        None => None,
    }
}

// Moves out the list of ignored sources, where it is not null. The keys but its two keep theirs.
fn take_ignored(members: &mut Map<String, Value>) -> Option<Value>
    ensures value { option_map view result
        ≡ ignored_field (object (members_view members.old.entries)) }
    ensures others { (other : List ℕ) → bytes_eq other (codes "ignoreList") ≡ false →
        bytes_eq other (codes "x_google_ignoreList") ≡ false
        → get_member other (members_view members.new.entries)
        ≡ get_member other (members_view members.old.entries) }
{
    let newer = take(members, "ignoreList");
    let older = take(members, "x_google_ignoreList");
    newer.or(older)
}

fn not_null(value: Value) -> Option<Value>
    ensures { option_map view result ≡ not_null (view value) }
{
    match value {
        Value::Null => None,
        other => Some(other),
    }
}
