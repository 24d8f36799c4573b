//! What is left of a map without what its mappings do not have.
ghost use Rattle.std.specs.Prelude.{◌≡◌, ◌≤◌, length, map, IfOk};
ghost use Rattle.std.specs.List.{All};
ghost use Rattle.std.specs.Str.{bytes_eq};
ghost use Rattle.smap_mappings.specs.Within.{IsOriginWithin, IsWithin};
ghost use Rattle.smap_record.specs.Limits.{most_listed};
ghost use Rattle.smap_compose.specs.LeftOut.{pruned_where};
ghost use Rattle.smap_compose.specs.Pruned.{is_name_used, is_same_source, is_source_used, named_source, pruned};
ghost use Rattle.smap_compose.specs.Private.Keys.{key_seen, mapping_moved_to, moved_to};
ghost use Rattle.smap_compose.specs.Private.Left.{AreLeft, is_marked};
ghost use Rattle.smap_compose.specs.Private.Listing.{lent_source, lent_text};
ghost use Rattle.smap_compose.specs.Private.Parts.{AreFit, parts_seen};

use crate::left::{Places, kept_entries, places_left};
use crate::listing::{LentSource, Listing};
use crate::parts::Parts;
use crate::used::used_entries;
use smap_mappings::laws::lists_in_order_have_no_fault;
use smap_record::{Mapping, Origin};
use std::alloc::{AllocError, Global};

/// The parts, or what is left of them where what no mapping has is left out.
pub fn left_parts(alloc: Global, whole: Parts<'_>, prune: bool) -> Result<Parts<'_>, AllocError>
    requires { AreFit whole }
    ensures left { IfOk result (λ left. parts_seen left
        ≡ pruned_where prune (parts_seen whole.entry)) }
    ensures fit { IfOk result AreFit }
{
    if prune {
        pruned_parts(alloc, whole)
    } else {
        Ok(whole)
    }
}

// What is left of the parts.
fn pruned_parts(alloc: Global, whole: Parts<'_>) -> Result<Parts<'_>, AllocError>
    requires { AreFit whole }
    ensures pruned { IfOk result (λ left. parts_seen left ≡ pruned (parts_seen whole.entry)) }
    ensures fit { IfOk result AreFit }
{
    let Parts {
        mut mappings,
        listing,
    } = whole;
    let Listing {
        sources,
        names,
        file,
    } = listing;
    let left = listing_left(alloc, &mappings, &sources, &names)?;
    move_origins(&mut mappings, &left.sources.places, &left.names.places);
    lists_in_order_have_no_fault();
    let listing = Listing {
        sources: kept_entries(alloc, sources, &left.sources.stays)?,
        names: kept_entries(alloc, names, &left.names.stays)?,
        file,
    };
    Ok(Parts { mappings, listing })
}

// What becomes of the sources and of the names of a map.
#[derive(Drop)]
struct ListingLeft {
    sources: Places,
    names: Places,
}

// What becomes of these sources and names, where these mappings have them.
fn listing_left(
    alloc: Global,
    mappings: &[Mapping],
    sources: &[LentSource<'_>],
    names: &[&str],
) -> Result<ListingLeft, AllocError>
    requires within { All (IsWithin (length sources.now) (length names.now)) mappings.now }
    requires few_sources { length sources.now ≤ most_listed }
    requires few_names { length names.now ≤ most_listed }
    ensures sources { IfOk result (λ left. AreLeft is_same_source (is_source_used mappings.now)
        (map lent_source sources.now) left.sources.places.items left.sources.stays.items) }
    ensures names { IfOk result (λ left. AreLeft bytes_eq (is_name_used mappings.now)
        (map lent_text names.now) left.names.places.items left.names.stays.items) }
{
    let used = used_entries(alloc, mappings, sources.len(), names.len())?;
    Ok(ListingLeft {
        sources: sources_left(alloc, sources, &used.sources)?,
        names: names_left(alloc, names, &used.names)?,
    })
}

// By what a source is compared: the text of its name, its content and its mark.
type SourceKey<'a> = (Option<&'a str>, Option<&'a str>, bool);

fn source_key<'a>(source: &'a LentSource<'_>) -> SourceKey<'a>
    ensures { key_seen result ≡ named_source (lent_source source.now) }
{
    let text = match &source.name {
        Some(name) => Some(name.text()),
        None => None,
    };
    (text, source.content, source.ignored)
}

// What becomes of each source, where these are used.
fn sources_left(
    alloc: Global,
    sources: &[LentSource<'_>],
    used: &[bool],
) -> Result<Places, AllocError>
    requires few { length sources.now ≤ most_listed }
    requires marked { length used.now ≡ length sources.now }
    ensures { IfOk result (λ left. AreLeft is_same_source (is_marked used.now)
        (map lent_source sources.now) left.places.items left.stays.items) }
{
    let mut keys = Vec::with_capacity(alloc, sources.len())?;
    for source in sources {
        keys.push(source_key(source))?;
    }
    places_left(alloc, &keys, used)
}

// What becomes of each name, where these are used.
fn names_left(alloc: Global, names: &[&str], used: &[bool]) -> Result<Places, AllocError>
    requires few { length names.now ≤ most_listed }
    requires marked { length used.now ≡ length names.now }
    ensures { IfOk result (λ left. AreLeft bytes_eq (is_marked used.now)
        (map lent_text names.now) left.places.items left.stays.items) }
{
    places_left(alloc, names, used)
}

// Gives each mapping the new places of its source and its name.
fn move_origins(mappings: &mut [Mapping], sources: &[u32], names: &[u32])
    requires { All (IsWithin (length sources.now) (length names.now)) mappings.old }
    ensures { mappings.new ≡ map (mapping_moved_to sources.now names.now) mappings.old }
{
    for mapping in mappings {
        *mapping = moved_mapping(*mapping, sources, names);
    }
}

fn moved_mapping(mapping: Mapping, sources: &[u32], names: &[u32]) -> Mapping
    requires { IsWithin (length sources.now) (length names.now) mapping }
    ensures { result ≡ mapping_moved_to sources.now names.now mapping }
{
    match mapping.origin {
        Some(origin) => Mapping {
            origin: Some(moved_origin(origin, sources, names)),
            ..mapping
        },
        None => mapping,
    }
}

fn moved_origin(origin: Origin, sources: &[u32], names: &[u32]) -> Origin
    requires { IsOriginWithin (length sources.now) (length names.now) origin }
    ensures { result ≡ moved_to sources.now names.now origin }
{
    Origin {
        source: sources[origin.source as usize],
        name: match origin.name {
            Some(name) => Some(names[name as usize]),
            None => None,
        },
        ..origin
    }
}
