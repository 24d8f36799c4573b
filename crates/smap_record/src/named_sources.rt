//! The sources of a map, named by where it stands.
ghost use Rattle.std.specs.Prelude.{◌≡◌, ◌<◌, ◌^◌, length, map, option_map, string_bytes, IfOk, OnErr, OnOk};
ghost use Rattle.smap_record.specs.NamedSources.{map_by_path};
ghost use Rattle.smap_record.specs.Private.Renamed.{name_at, text_of_source, with_text_at, with_texts};
ghost use Rattle.smap_record.specs.Sources.{source_of};

use crate::entry::SourceEntry;
use crate::map_file::MapFile;
use smap_resolve::{SourceName, name_beside, name_by_path};
use std::alloc::{AllocError, Global};

// What the place is at which a map stands: the URL of its generated file, or the path of its own.
#[derive(Clone, Copy)]
pub enum StandsAt {
    Url,
    Path,
}

/// Names the sources of a map by the URL at which it stands, where that is a path from a root and UTF-8: each whose name is
/// relative, and kept as it stands in the map, by the path that goes on from the folder of the URL, from whose root no `..`
/// leads further. Where `\` stands behind the drive's `:`, the pieces of that path stand between `\`. All else stays as it
/// was, and where memory runs out nothing is changed.
pub fn name_sources_by_path(
    alloc: Global,
    map_file: &mut MapFile,
    url: &[u8],
) -> Result<(), AllocError>
    ensures named { OnOk result (map_file.new ≡ map_by_path url.now map_file.old) }
    ensures memory { OnErr result (map_file.new ≡ map_file.old) }
{
    let names = new_names(alloc, map_file, StandsAt::Url, url)?;
    rename(map_file, names);
    Ok(())
}

// The new name of each source that gets one, where the map stands at this place.
pub fn new_names(
    alloc: Global,
    map_file: &MapFile,
    how: StandsAt,
    place: &[u8],
) -> Result<Vec<Option<String>>, AllocError>
    ensures names { IfOk result (λ names. map (option_map string_bytes) names.items
        ≡ map (text_of_source (name_at how place.now)) map_file.now.stated.sources) }
    ensures few { IfOk result (λ names. length names.items < 2 ^ 32) }
{
    let Ok(count) = u32::try_from(map_file.sources()) else {
        return Err(AllocError);
    };
    let mut names = Vec::with_capacity(alloc, count as usize)?;
    for i in 0..count {
        if let Some(source) = map_file.source(i) {
            names.push(new_name(alloc, source, how, place)?)?;
        }
    }
    Ok(names)
}

// The new name of a source, where it gets one.
fn new_name(
    alloc: Global,
    source: &SourceEntry,
    how: StandsAt,
    place: &[u8],
) -> Result<Option<String>, AllocError>
    ensures { IfOk result (λ name. option_map string_bytes name
        ≡ text_of_source (name_at how place.now) (source_of source.now)) }
{
    match &source.name {
        Some(SourceName::Kept(text)) => name_at(alloc, how, place, text),
        _ => Ok(None),
    }
}

// What a text is called instead.
fn name_at(
    alloc: Global,
    how: StandsAt,
    place: &[u8],
    text: &str,
) -> Result<Option<String>, AllocError>
    ensures { IfOk result (λ name. option_map string_bytes name ≡ name_at how place.now text.now) }
{
    match how {
        StandsAt::Url => name_by_path(alloc, place, text),
        StandsAt::Path => name_beside(alloc, place, text),
    }
}

// Gives each source the name of its number, where there is one.
pub fn rename(map_file: &mut MapFile, names: Vec<Option<String>>)
    requires { length names.items < 2 ^ 32 }
    ensures named { map_file.new.stated.sources
        ≡ with_texts (map (option_map string_bytes) names.items) map_file.old.stated.sources }
    ensures parts { map_file.new.stated.parts ≡ map_file.old.stated.parts }
    ensures names { map_file.new.stated.names ≡ map_file.old.stated.names }
    ensures file { map_file.new.stated.file ≡ map_file.old.stated.file }
    ensures interval { map_file.new.k ≡ map_file.old.k }
{
    let mut i = 0;
    for name in names {
        rename_one(map_file, i, name);
        i += 1;
    }
}

// Gives source `i` this name, where there is one.
fn rename_one(map_file: &mut MapFile, i: u32, name: Option<String>)
    ensures named { map_file.new.stated.sources
        ≡ with_text_at map_file.old.stated.sources i (option_map string_bytes name) }
    ensures parts { map_file.new.stated.parts ≡ map_file.old.stated.parts }
    ensures names { map_file.new.stated.names ≡ map_file.old.stated.names }
    ensures file { map_file.new.stated.file ≡ map_file.old.stated.file }
    ensures interval { map_file.new.k ≡ map_file.old.k }
{
    if let Some(text) = name {
        map_file.rename_source(i, SourceName::Kept(text));
    }
}
