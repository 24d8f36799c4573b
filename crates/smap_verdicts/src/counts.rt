//! How much a map file holds.
ghost use Rattle.std.specs.Prelude.{◌≡◌, option_copied, string_bytes, IfOk, OnOk};
ghost use Rattle.serde_json.specs.Data.{put};
ghost use Rattle.serde_json.specs.View.{members_view};
ghost use Rattle.serde_json.specs.Written.{compact_text};
ghost use Rattle.smap_verdicts.specs.Counts.{counts_members, counts_text, counts_value, lists_text};
ghost use Rattle.smap_verdicts.specs.Counts.{map_counts, mappings_text};
ghost use Rattle.smap_verdicts.specs.Texts.{count};

use crate::as_json::put_text;
use serde_json::{Map, Value, put};
use smap_record::MapFile;
use std::alloc::{AllocError, Global};

/// How much a map holds.
#[derive(Clone, Copy)]
pub struct MapCounts {
    pub sections: u64,
    pub sources: u64,
    pub names: u64,
    pub segments: u64,
    /// Those that hold a segment.
    pub lines: u64,
    pub checkpoints: u64,
}

/// How much this map holds, with its checkpoints at the interval that it was read with.
pub fn map_counts(map: &MapFile) -> MapCounts
    ensures { result ≡ map_counts map.now.stated map.now.k }
{
    MapCounts {
        sections: map.sections(),
        sources: map.sources(),
        names: map.names(),
        segments: map.segments(),
        lines: map.used_lines(),
        checkpoints: map.checkpoints(),
    }
}

/// The counts as text, with no LF.
pub fn counts_text(alloc: Global, counts: MapCounts) -> Result<String, AllocError>
    ensures { IfOk result (λ text. string_bytes text ≡ counts_text counts) }
{
    let lists = lists_text(alloc, counts)?;
    let mappings = mappings_text(alloc, counts)?;
    format!(in alloc; "ok{lists}{mappings}")
}

// How many sections, sources and names a map has.
fn lists_text(alloc: Global, counts: MapCounts) -> Result<String, AllocError>
    ensures { IfOk result (λ text. string_bytes text ≡ lists_text counts) }
{
    let MapCounts {
        sections,
        sources,
        names,
        ..
    } = counts;
    format!(in alloc; " sections {sections} sources {sources} names {names}")
}

// How many segments it has, lines that hold one, and checkpoints.
fn mappings_text(alloc: Global, counts: MapCounts) -> Result<String, AllocError>
    ensures { IfOk result (λ text. string_bytes text ≡ mappings_text counts) }
{
    let MapCounts {
        segments,
        lines,
        checkpoints,
        ..
    } = counts;
    format!(in alloc; " segments {segments} lines {lines} checkpoints {checkpoints}")
}

/// The counts of the map at a path as JSON, with its debug id, where it has one, on one line, with no LF.
pub fn counts_json(
    alloc: Global,
    path: &str,
    id: Option<&str>,
    counts: MapCounts,
) -> Result<String, AllocError>
    ensures { IfOk result (λ text. string_bytes text
        ≡ compact_text (counts_value path.now (option_copied id.entry) counts)) }
{
    let members = counts_members(alloc, path, id, counts)?;
    Value::Object(members).to_string(alloc)
}

// The same as members.
fn counts_members(
    alloc: Global,
    path: &str,
    id: Option<&str>,
    counts: MapCounts,
) -> Result<Map<String, Value>, AllocError>
    ensures { IfOk result (λ members. members_view members.entries
        ≡ counts_members path.now (option_copied id.entry) counts) }
{
    let mut members = Map::new(alloc);
    put_count(&mut members, alloc, "checkpoints", counts.checkpoints)?;
    if let Some(id) = id {
        put_text(&mut members, alloc, "debugId", id)?;
    }
    put_count(&mut members, alloc, "lines", counts.lines)?;
    put_count(&mut members, alloc, "names", counts.names)?;
    put(&mut members, alloc, "ok", Value::Bool(true))?;
    put_text(&mut members, alloc, "path", path)?;
    put_count(&mut members, alloc, "sections", counts.sections)?;
    put_count(&mut members, alloc, "segments", counts.segments)?;
    put_count(&mut members, alloc, "sources", counts.sources)?;
    Ok(members)
}

// Adds a count at a key.
fn put_count(
    members: &mut Map<String, Value>,
    alloc: Global,
    key: &str,
    number: u64,
) -> Result<(), AllocError>
    ensures { OnOk result (members_view members.new.entries
        ≡ put key.now (count number) (members_view members.old.entries)) }
{
    put(members, alloc, key, Value::from(number))
}
