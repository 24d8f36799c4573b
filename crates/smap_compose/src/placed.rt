//! The inner maps of an outer map, each with what stands before its sources and names.
ghost use Rattle.std.specs.Prelude.{◌≡◌, ◌≤◌, ◌<◌, ◌+◌, ◌^◌, ◌∷◌, ◌++◌, [], None, Some, nat_lt, replicate, IfOk, OnOk};
ghost use Rattle.smap_record.specs.Limits.{most_listed};
ghost use Rattle.smap_compose.specs.Composition.{all_followed, all_list_too_many, inner_lists, mappings_of_map, names_together, sources_together};
ghost use Rattle.smap_compose.specs.FollowAll.{inner_names, inner_sources, placed_after};
ghost use Rattle.smap_compose.specs.Inners.{stated_inners};
ghost use Rattle.smap_compose.specs.Private.Placed.{ArePlaced, IsPlacedNext, inner_list, inners_seen, placed_behind};

use smap_record::{MOST_LISTED, MapFile};
use std::alloc::{AllocError, Global};

/// An inner map, and how many sources and names stand before its own.
#[derive(Clone, Copy)]
pub struct PlacedMap<'a> {
    pub map: &'a MapFile,
    pub sources: u32,
    pub names: u32,
}

/// The inner maps by the sources of the outer one, and how many sources and names all maps have.
#[derive(Drop)]
pub struct InnerMaps<'a> {
    pub maps: Vec<Option<PlacedMap<'a>>>,
    pub sources: u32,
    pub names: u32,
}

/// The inner map of this one source.
pub fn one_placed<'a>(
    alloc: Global,
    outer: &MapFile,
    source: u32,
    inner: &'a MapFile,
) -> Result<InnerMaps<'a>, AllocError>
    requires few_sources { sources_together outer.now.stated inner.now.stated ≤ most_listed }
    requires few_names { names_together outer.now.stated inner.now.stated ≤ most_listed }
    ensures placed { IfOk result (λ inners. ArePlaced outer.now.stated inners) }
    ensures list { IfOk result (λ inners. inners_seen inners
        ≡ replicate source None ++ Some (placed_behind outer.now.stated inner.now.stated) ∷ []) }
    ensures sources { IfOk result (λ inners. inners.sources
        ≡ sources_together outer.now.stated inner.now.stated) }
    ensures names { IfOk result (λ inners. inners.names
        ≡ names_together outer.now.stated inner.now.stated) }
{
    let (sources, names) = (outer.sources() as u32, outer.names() as u32);
    let mut maps = vec![in alloc; None; source as usize]?;
    maps.push(Some(PlacedMap {
        map: inner,
        sources,
        names,
    }))?;
    Ok(InnerMaps {
        maps,
        sources: sources + inner.sources() as u32,
        names: names + inner.names() as u32,
    })
}

/// Whether the outer map and the inner maps of its sources have more sources together than a map lists, or more names.
pub fn list_too_many(outer: &MapFile, inners: &[Option<&MapFile>]) -> bool
    ensures { result ≡ all_list_too_many outer.now.stated (stated_inners inners.now) }
{
    let (mut sources, mut names) = (outer.sources(), outer.names());
    if are_too_many(sources, 0) || are_too_many(names, 0) {
        return true;
    }
    for inner in inners {
        let Some(inner) = inner else {
            continue;
        };
        if are_too_many(sources, inner.sources()) || are_too_many(names, inner.names()) {
            return true;
        }
        sources += inner.sources();
        names += inner.names();
    }
    false
}

/// Whether a map may not list as many sources or names as these together.
pub fn are_too_many(before: u64, further: u64) -> bool
    ensures { result ≡ nat_lt most_listed (before + further) }
{
    let most = MOST_LISTED as u64;
    before > most || further > most - before
}

/// The inner maps of the sources.
pub fn all_placed<'a>(
    alloc: Global,
    outer: &MapFile,
    inners: &[Option<&'a MapFile>],
) -> Result<InnerMaps<'a>, AllocError>
    requires few_sources { (all_followed outer.now.stated (stated_inners inners.now)).sources
        ≤ most_listed }
    requires few_names { (all_followed outer.now.stated (stated_inners inners.now)).names
        ≤ most_listed }
    ensures placed { IfOk result (λ placed. ArePlaced outer.now.stated placed) }
    ensures list { IfOk result (λ placed. inners_seen placed
        ≡ placed_after (mappings_of_map outer.now.stated)
        (inner_lists (stated_inners inners.now))) }
    ensures sources { IfOk result (λ placed. placed.sources
        ≡ (all_followed outer.now.stated (stated_inners inners.now)).sources) }
    ensures names { IfOk result (λ placed. placed.names
        ≡ (all_followed outer.now.stated (stated_inners inners.now)).names) }
{
    let mut placed = InnerMaps {
        maps: Vec::with_capacity(alloc, inners.len())?,
        sources: outer.sources() as u32,
        names: outer.names() as u32,
    };
    for inner in inners {
        placed.place(*inner)?;
    }
    Ok(placed)
}

impl<'a> InnerMaps<'a> {
    // Places the inner map of the next source, where it has one, behind the others.
    fn place(&mut self, inner: Option<&'a MapFile>) -> Result<(), AllocError>
        requires sources { self.old.sources + inner_sources (inner_list inner) < 2 ^ 32 }
        requires names { self.old.names + inner_names (inner_list inner) < 2 ^ 32 }
        ensures placed { OnOk result (IsPlacedNext self.old (inner_list inner.entry) self.new) }
    {
        let Some(map) = inner else {
            self.maps.push(None)?;
            return Ok(());
        };
        let (sources, names) = (self.sources, self.names);
        self.maps.push(Some(PlacedMap {
            map,
            sources,
            names,
        }))?;
        self.sources = sources + map.sources() as u32;
        self.names = names + map.names() as u32;
        Ok(())
    }
}
