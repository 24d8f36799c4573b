//! What a composed map lists beside its mappings: its texts are lent by the maps, until it is known what is left out.
ghost use Rattle.std.specs.Prelude.{◌≡◌, map, string_bytes, IfOk};
ghost use Rattle.smap_record.specs.Sources.{source_of};
ghost use Rattle.smap_compose.specs.LeftOut.{content_where};
ghost use Rattle.smap_compose.specs.Private.Listing.{lent_source, lent_text};

use smap_record::{SourceEntry, SourceName, copied_text};
use std::alloc::{AllocError, Global};

/// A source whose content is lent.
#[derive(Drop)]
pub struct LentSource<'a> {
    pub name: Option<SourceName>,
    pub content: Option<&'a str>,
    pub ignored: bool,
}

/// The sources, the names and the generated file's name.
#[derive(Drop)]
pub struct Listing<'a> {
    pub sources: Vec<LentSource<'a>>,
    pub names: Vec<&'a str>,
    pub file: Option<&'a str>,
}

/// The sources with contents of their own, or without them.
pub fn owned_sources(
    alloc: Global,
    sources: Vec<LentSource<'_>>,
    without_contents: bool,
) -> Result<Vec<SourceEntry>, AllocError>
    ensures { IfOk result (λ owned. map source_of owned.items
        ≡ map (content_where without_contents) (map lent_source sources.entry.items)) }
{
    let mut owned = Vec::with_capacity(alloc, sources.len())?;
    for source in sources {
        owned.push(owned_source(alloc, source, without_contents)?)?;
    }
    Ok(owned)
}

fn owned_source(
    alloc: Global,
    source: LentSource<'_>,
    without_content: bool,
) -> Result<SourceEntry, AllocError>
    ensures { IfOk result (λ owned. source_of owned
        ≡ content_where without_content (lent_source source.entry)) }
{
    let content = if without_content {
        None
    } else {
        copied_text(alloc, source.content)?
    };
    Ok(SourceEntry {
        name: source.name,
        content,
        ignored: source.ignored,
    })
}

/// The names, as texts of their own.
pub fn owned_names(alloc: Global, names: &[&str]) -> Result<Vec<String>, AllocError>
    ensures { IfOk result (λ owned. map string_bytes owned.items ≡ map lent_text names.now) }
{
    let mut owned = Vec::with_capacity(alloc, names.len())?;
    for name in names {
        owned.push(String::from_str(alloc, name)?)?;
    }
    Ok(owned)
}
