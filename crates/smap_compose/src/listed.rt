//! The sources and names of several maps, one map after another.
ghost use Rattle.std.specs.Prelude.{◌≡◌, ◌≤◌, ◌++◌, flat_map, length, map, option_copied, option_map, IfOk, OnOk};
ghost use Rattle.smap_resolve.specs.SourceName.{name_of};
ghost use Rattle.smap_record.specs.Limits.{most_listed};
ghost use Rattle.smap_record.specs.Sources.{source_of};
ghost use Rattle.smap_compose.specs.Composition.{all_followed, names_together, names_within, source_from, sources_below, sources_together, sources_within};
ghost use Rattle.smap_compose.specs.FollowAll.{inner_sources};
ghost use Rattle.smap_compose.specs.Inners.{stated_inners};
ghost use Rattle.smap_compose.specs.Private.Listing.{lent_source, lent_text};
ghost use Rattle.smap_compose.specs.Private.Placed.{inner_list};

use crate::listing::LentSource;
use smap_record::{MapFile, SourceEntry, SourceName};
use smap_resolve::name_from_outer;
use std::alloc::{AllocError, Global};

/// The sources of both maps, those of the outer one first. All keep their names.
pub fn joined_sources<'a>(
    alloc: Global,
    outer: &'a MapFile,
    inner: &'a MapFile,
) -> Result<Vec<LentSource<'a>>, AllocError>
    requires few { sources_together outer.now.stated inner.now.stated ≤ most_listed }
    ensures sources { IfOk result (λ sources. map lent_source sources.items
        ≡ outer.now.stated.sources ++ inner.now.stated.sources) }
    ensures counted { IfOk result (λ sources. length sources.items
        ≡ sources_together outer.now.stated inner.now.stated) }
{
    let mut sources = Vec::new(alloc);
    add_sources(alloc, None, outer, &mut sources)?;
    add_sources(alloc, None, inner, &mut sources)?;
    Ok(sources)
}

/// The names of both maps, those of the outer one first.
pub fn joined_names<'a>(
    alloc: Global,
    outer: &'a MapFile,
    inner: &'a MapFile,
) -> Result<Vec<&'a str>, AllocError>
    requires few { names_together outer.now.stated inner.now.stated ≤ most_listed }
    ensures names { IfOk result (λ names. map lent_text names.items
        ≡ outer.now.stated.names ++ inner.now.stated.names) }
    ensures counted { IfOk result (λ names. length names.items
        ≡ names_together outer.now.stated inner.now.stated) }
{
    let mut names = Vec::new(alloc);
    add_names(outer, &mut names)?;
    add_names(inner, &mut names)?;
    Ok(names)
}

/// The sources of all maps, those of the outer one first; those of an inner map by the name of the outer source.
pub fn all_sources<'a>(
    alloc: Global,
    outer: &'a MapFile,
    inners: &[Option<&'a MapFile>],
) -> Result<Vec<LentSource<'a>>, AllocError>
    requires inners { length inners.now ≤ length outer.now.stated.sources }
    requires few { (all_followed outer.now.stated (stated_inners inners.now)).sources
        ≤ most_listed }
    ensures sources { IfOk result (λ sources. map lent_source sources.items
        ≡ outer.now.stated.sources
        ++ sources_within outer.now.stated.sources (stated_inners inners.now)) }
    ensures counted { IfOk result (λ sources. length sources.items
        ≡ (all_followed outer.now.stated (stated_inners inners.now)).sources) }
{
    let mut sources = Vec::new(alloc);
    add_sources(alloc, None, outer, &mut sources)?;
    for (i, inner) in inners.iter().enumerate() {
        if let Some(source) = outer.source(i as u32) {
            add_sources_below(alloc, source, *inner, &mut sources)?;
        }
    }
    Ok(sources)
}

/// The names of all maps, those of the outer one first.
pub fn all_names<'a>(
    alloc: Global,
    outer: &'a MapFile,
    inners: &[Option<&'a MapFile>],
) -> Result<Vec<&'a str>, AllocError>
    requires few { (all_followed outer.now.stated (stated_inners inners.now)).names ≤ most_listed }
    ensures names { IfOk result (λ names. map lent_text names.items
        ≡ outer.now.stated.names ++ flat_map names_within (stated_inners inners.now)) }
    ensures counted { IfOk result (λ names. length names.items
        ≡ (all_followed outer.now.stated (stated_inners inners.now)).names) }
{
    let mut names = Vec::new(alloc);
    add_names(outer, &mut names)?;
    for inner in inners {
        if let Some(inner) = inner {
            add_names(inner, &mut names)?;
        }
    }
    Ok(names)
}

// Adds the sources of the inner map of a source, where it has one.
fn add_sources_below<'a>(
    alloc: Global,
    source: &SourceEntry,
    inner: Option<&'a MapFile>,
    sources: &mut Vec<LentSource<'a>>,
) -> Result<(), AllocError>
    requires { inner_sources (inner_list inner) ≤ most_listed }
    ensures { OnOk result (map lent_source sources.new.items ≡ map lent_source sources.old.items
        ++ sources_below (source_of source.now)
        (option_map (λ inner. inner.now.stated) inner.entry)) }
{
    match inner {
        Some(inner) => add_sources(alloc, source.name.as_ref(), inner, sources),
        None => Ok(()),
    }
}

// Adds the sources of a map to those before them, by the name of the outer source that it is a map of.
fn add_sources<'a>(
    alloc: Global,
    outer: Option<&SourceName>,
    map_file: &'a MapFile,
    sources: &mut Vec<LentSource<'a>>,
) -> Result<(), AllocError>
    requires { length map_file.now.stated.sources ≤ most_listed }
    ensures { OnOk result (map lent_source sources.new.items
        ≡ map lent_source sources.old.items
        ++ map (source_from (option_map name_of (option_copied outer.entry)))
        map_file.now.stated.sources) }
{
    for i in 0..map_file.sources() as u32 {
        if let Some(source) = map_file.source(i) {
            sources.push(lent_source(alloc, outer, source)?)?;
        }
    }
    Ok(())
}

// Adds the names of a map to those before them.
fn add_names<'a>(map_file: &'a MapFile, names: &mut Vec<&'a str>) -> Result<(), AllocError>
    requires { length map_file.now.stated.names ≤ most_listed }
    ensures { OnOk result (map lent_text names.new.items
        ≡ map lent_text names.old.items ++ map_file.now.stated.names) }
{
    for i in 0..map_file.names() as u32 {
        if let Some(name) = map_file.name(i) {
            names.push(name)?;
        }
    }
    Ok(())
}

// The source by the name of the outer source, its content lent.
fn lent_source<'a>(
    alloc: Global,
    outer: Option<&SourceName>,
    source: &'a SourceEntry,
) -> Result<LentSource<'a>, AllocError>
    ensures { IfOk result (λ lent. lent_source lent
        ≡ source_from (option_map name_of (option_copied outer.entry)) (source_of source.now)) }
{
    let name = match &source.name {
        Some(name) => Some(name_from_outer(alloc, outer, name)?),
        None => None,
    };
    Ok(LentSource {
        name,
        content: source.content.as_deref(),
        ignored: source.ignored,
    })
}
