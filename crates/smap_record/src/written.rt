//! The members of a written map, in JSON values: each text is moved into its value.
ghost use Rattle.std.specs.Prelude.{◌≡◌, None, Some, codes, if◌then◌else◌, map, option_map, string_bytes, IfOk, OnOk};
ghost use Rattle.std.specs.List.{list_any};
ghost use Rattle.serde_json.specs.Data.{string};
ghost use Rattle.serde_json.specs.View.{members_view, view};
ghost use Rattle.serde_json.specs.declared.value.Value.{Array};
ghost use Rattle.smap_resolve.specs.SourceName.{name_of, name_text};
ghost use Rattle.smap_record.specs.Private.Seen.{put_where};
ghost use Rattle.smap_record.specs.Sources.{source_of};
ghost use Rattle.smap_record.specs.Written.{content_of_source, contents_value, has_content, ignored_value, list_value, text_of_source, value_of_text, written_members};

use crate::entry::SourceEntry;
use serde_json::{Map, Value};
use smap_resolve::SourceName;
use std::alloc::{AllocError, Global};

/// The members of the object of a map with these sources, these names, this generated file and this mappings text.
pub fn members(
    alloc: Global,
    sources: Vec<SourceEntry>,
    names: Vec<String>,
    file: Option<String>,
    mappings: String,
) -> Result<Map<String, Value>, AllocError>
    ensures { IfOk result (λ members. members_view members.entries
        ≡ written_members (map source_of sources.items) (map string_bytes names.items)
        (option_map string_bytes file) (string_bytes mappings)) }
{
    let mut members = Map::new(alloc);
    put(alloc, &mut members, "version", Some(Value::from(3u32)))?;
    let ignored = ignored(alloc, &sources)?;
    put_sources(alloc, &mut members, sources)?;
    put_mappings(alloc, &mut members, names, mappings)?;
    put(alloc, &mut members, "ignoreList", ignored)?;
    put(alloc, &mut members, "file", text_where(file))?;
    Ok(members)
}

// Puts the contents and the names of the sources.
fn put_sources(
    alloc: Global,
    members: &mut Map<String, Value>,
    sources: Vec<SourceEntry>,
) -> Result<(), AllocError>
    ensures { OnOk result (members_view members.new.entries
        ≡ put_where (codes "sources")
        (Some (list_value (λ source. value_of_text (text_of_source source))
        (map source_of sources.items)))
        (put_where (codes "sourcesContent") (contents_value (map source_of sources.items))
        (members_view members.old.entries))) }
{
    let some = has_content(&sources);
    let values = source_values(alloc, sources)?;
    let contents = list_where(values.contents, some);
    put(alloc, members, "sourcesContent", contents)?;
    put(alloc, members, "sources", Some(Value::Array(values.names)))
}

// Puts the names and the mappings text.
fn put_mappings(
    alloc: Global,
    members: &mut Map<String, Value>,
    names: Vec<String>,
    mappings: String,
) -> Result<(), AllocError>
    ensures { OnOk result (members_view members.new.entries
        ≡ put_where (codes "mappings") (Some (string (string_bytes mappings)))
        (put_where (codes "names") (Some (list_value string (map string_bytes names.items)))
        (members_view members.old.entries))) }
{
    let names = texts(alloc, names)?;
    put(alloc, members, "names", Some(names))?;
    put(alloc, members, "mappings", Some(Value::String(mappings)))
}

// Puts a value at a key, where there is one.
fn put(
    alloc: Global,
    members: &mut Map<String, Value>,
    key: &str,
    value: Option<Value>,
) -> Result<(), AllocError>
    ensures { OnOk result (members_view members.new.entries
        ≡ put_where key.now (option_map view value) (members_view members.old.entries)) }
{
    match value {
        Some(value) => serde_json::put(members, alloc, key, value),
        None => Ok(()),
    }
}

fn text_value(text: String) -> Value
    ensures { view result ≡ string (string_bytes text) }
{
    Value::String(text)
}

fn text_where(text: Option<String>) -> Option<Value>
    ensures { option_map view result ≡ option_map string (option_map string_bytes text) }
{
    text.map(Value::String)
}

// The text, or null.
fn text_or_null(text: Option<String>) -> Value
    ensures { view result ≡ value_of_text (option_map string_bytes text) }
{
    match text {
        Some(text) => Value::String(text),
        None => Value::Null,
    }
}

fn list_where(values: Vec<Value>, some: bool) -> Option<Value>
    ensures { result ≡ if some then Some (Array values) else None }
{
    if some {
        Some(Value::Array(values))
    } else {
        None
    }
}

fn texts(alloc: Global, texts: Vec<String>) -> Result<Value, AllocError>
    ensures { IfOk result (λ value. view value ≡ list_value string (map string_bytes texts.items)) }
{
    let mut values = Vec::with_capacity(alloc, texts.len())?;
    for text in texts {
        values.push(text_value(text))?;
    }
    Ok(Value::Array(values))
}

// Whether some source has its content.
fn has_content(sources: &[SourceEntry]) -> bool
    ensures { result ≡ list_any has_content (map source_of sources.now) }
{
    sources.iter().any(|source| source.content.is_some())
}

// The texts of the names of sources and their contents, null where one has none.
#[derive(Drop)]
struct SourceValues {
    names: Vec<Value>,
    contents: Vec<Value>,
}

fn source_values(alloc: Global, sources: Vec<SourceEntry>) -> Result<SourceValues, AllocError>
    ensures names { IfOk result (λ values. map view values.names.items
        ≡ map (λ source. value_of_text (text_of_source source)) (map source_of sources.items)) }
    ensures contents { IfOk result (λ values. map view values.contents.items
        ≡ map (λ source. value_of_text (content_of_source source)) (map source_of sources.items)) }
{
    let mut names = Vec::with_capacity(alloc, sources.len())?;
    let mut contents = Vec::with_capacity(alloc, sources.len())?;
    for source in sources {
        names.push(name_or_null(source.name))?;
        contents.push(text_or_null(source.content))?;
    }
    Ok(SourceValues { names, contents })
}

// The text of the name, or null.
fn name_or_null(name: Option<SourceName>) -> Value
    ensures { view result ≡ value_of_text (option_map name_text (option_map name_of name)) }
{
    text_or_null(name.map(SourceName::into_text))
}

// The indices of the ignored sources, where at least one is ignored.
fn ignored(alloc: Global, sources: &[SourceEntry]) -> Result<Option<Value>, AllocError>
    ensures { IfOk result (λ value. option_map view value
        ≡ ignored_value (map source_of sources.now)) }
{
    let mut values = Vec::new(alloc);
    for (i, source) in sources.iter().enumerate() {
        if source.ignored {
            values.push(Value::from(i))?;
        }
    }
    if values.is_empty() {
        return Ok(None);
    }
    Ok(Some(Value::Array(values)))
}
