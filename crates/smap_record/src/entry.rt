//! A source of a map, and copies of what a map lists.
ghost use Rattle.std.specs.Prelude.{◌≡◌, map, option_and_then, option_copied, option_map, string_bytes, IfOk};
ghost use Rattle.smap_record.specs.Sources.{source_of};
ghost use Rattle.smap_record.specs.Written.{is_ignored_where, text_of_source};

use smap_resolve::SourceName;
use std::alloc::{AllocError, Global};

/// A source of a map (ECMA-426, Source map format).
#[derive(Drop)]
pub struct SourceEntry {
    /// What it is called, where the map says so.
    pub name: Option<SourceName>,
    /// Its text, where the map holds it.
    pub content: Option<String>,
    /// Whether the map says that a debugger should ignore it.
    pub ignored: bool,
}

/// What a source is called, where there is one and it has a name.
pub fn source_name(source: Option<&SourceEntry>) -> Option<&str>
    ensures { option_map (λ name. name.now) result
        ≡ option_and_then text_of_source (option_map (λ entry. source_of entry.now) source.entry) }
{
    Some(source?.name.as_ref()?.text())
}

/// Whether a map says to ignore a source, where there is one.
pub fn is_ignored(source: Option<&SourceEntry>) -> bool
    ensures { result ≡ is_ignored_where (option_map (λ entry. source_of entry.now) source.entry) }
{
    match source {
        Some(entry) => entry.ignored,
        None => false,
    }
}

/// The same sources, with texts of their own.
pub fn copied_sources(
    alloc: Global,
    sources: &[SourceEntry],
) -> Result<Vec<SourceEntry>, AllocError>
    ensures { IfOk result (λ copies. map source_of copies.items ≡ map source_of sources.now) }
{
    let mut copies = Vec::with_capacity(alloc, sources.len())?;
    for source in sources {
        copies.push(copied_source(source)?)?;
    }
    Ok(copies)
}

fn copied_source(source: &SourceEntry) -> Result<SourceEntry, AllocError>
    ensures { IfOk result (λ copy. source_of copy ≡ source_of source.now) }
{
    let name = match &source.name {
        Some(name) => Some(name.copied()?),
        None => None,
    };
    let content = match &source.content {
        Some(content) => Some(content.clone()?),
        None => None,
    };
    Ok(SourceEntry {
        name,
        content,
        ignored: source.ignored,
    })
}

/// The same names.
pub fn copied_names(alloc: Global, names: &[String]) -> Result<Vec<String>, AllocError>
    ensures { IfOk result (λ copies. map string_bytes copies.items ≡ map string_bytes names.now) }
{
    let mut copies = Vec::with_capacity(alloc, names.len())?;
    for name in names {
        copies.push(name.clone()?)?;
    }
    Ok(copies)
}

/// The same text, where there is one.
pub fn copied_text(alloc: Global, text: Option<&str>) -> Result<Option<String>, AllocError>
    ensures { IfOk result (λ copy. option_map string_bytes copy ≡ option_copied text.entry) }
{
    match text {
        Some(text) => Ok(Some(String::from_str(alloc, text)?)),
        None => Ok(None),
    }
}
