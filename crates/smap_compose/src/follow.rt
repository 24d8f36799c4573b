//! The mappings of a map, followed through the maps of its sources.
ghost use Rattle.std.specs.Prelude.{◌≡◌, None, Some, length, map, option_map, IfOk, IfSome};
ghost use Rattle.std.specs.List.{All};
ghost use Rattle.smap_index.specs.Parts.{joined};
ghost use Rattle.smap_mappings.specs.Encode.{list_fault};
ghost use Rattle.smap_mappings.specs.Within.{IsOriginWithin, IsWithin};
ghost use Rattle.smap_compose.specs.Follow.{moved_origin, with_origin};
ghost use Rattle.smap_compose.specs.FollowAll.{origin_through, origin_through_all};
ghost use Rattle.smap_record.specs.Record.{answer_of_map};
ghost use Rattle.smap_compose.specs.Private.Placed.{AreFew, ArePlaced, FitsIn, inners_seen, placed_seen};
ghost use Rattle.smap_compose.specs.Private.Walk.{IsWalkIn, IsWalkOf, IsWalkThrough, origin_in};

use crate::placed::{InnerMaps, PlacedMap};
use crate::walk::{SourceWalk, Walk};
use smap_mappings::laws::lists_in_order_have_no_fault;
use smap_record::{MapFile, Mapping, Origin};
use std::alloc::{AllocError, Global};

/// The mappings of the outer map, followed through the inner maps. Each costs at most one look-up in the inner map of its
/// source, and none where a few steps through that map lead to its place. The inner maps' mappings are not listed.
pub fn followed_mappings(
    alloc: Global,
    outer: &MapFile,
    inners: &InnerMaps<'_>,
) -> Result<Vec<Mapping>, AllocError>
    requires placed { ArePlaced outer.now.stated inners.now }
    ensures list { IfOk result (λ made. made.items
        ≡ map (with_origin (origin_through_all (inners_seen inners.now)))
        (joined outer.now.stated.parts)) }
    ensures within { IfOk result (λ made. All
        (IsWithin inners.now.sources inners.now.names) made.items) }
    ensures no_fault { IfOk result (λ made. list_fault made.items ≡ None) }
{
    let mut list = Vec::with_capacity(alloc, outer.segments() as usize)?;
    let mut walk = None;
    for mapping in outer.mappings(alloc) {
        let followed = follow(alloc, outer, inners, mapping, &mut walk);
        list.push(followed)?;
    }
    lists_in_order_have_no_fault();
    Ok(list)
}

// The mapping, followed where it has an origin. The walk goes on, in its place: it is large, and so is handed on by none.
fn follow<'m>(
    alloc: Global,
    outer: &MapFile,
    inners: &InnerMaps<'m>,
    mapping: Mapping,
    walk: &mut Option<SourceWalk<'m>>,
) -> Mapping
    requires placed { ArePlaced outer.now.stated inners.now }
    requires within { IsWithin
        (length outer.now.stated.sources) (length outer.now.stated.names) mapping }
    requires walk { IfSome walk.old (IsWalkIn inners.now) }
    ensures followed { result
        ≡ with_origin (origin_through_all (inners_seen inners.now)) mapping }
    ensures within { IsWithin inners.now.sources inners.now.names result }
    ensures walk { IfSome walk.new (IsWalkIn inners.now) }
{
    match mapping.origin {
        Some(origin) => {
            let origin = followed_origin(alloc, outer, inners, origin, walk);
            Mapping { origin, ..mapping }
        }
        None => mapping,
    }
}

// What becomes of an origin: that to which the inner map of its source leads or, where the source has none, itself.
fn followed_origin<'m>(
    alloc: Global,
    outer: &MapFile,
    inners: &InnerMaps<'m>,
    origin: Origin,
    walk: &mut Option<SourceWalk<'m>>,
) -> Option<Origin>
    requires placed { ArePlaced outer.now.stated inners.now }
    requires within { IsOriginWithin
        (length outer.now.stated.sources) (length outer.now.stated.names) origin }
    requires walk { IfSome walk.old (IsWalkIn inners.now) }
    ensures followed { result ≡ origin_through_all (inners_seen inners.now) origin }
    ensures within { IfSome result (IsOriginWithin inners.now.sources inners.now.names) }
    ensures walk { IfSome walk.new (IsWalkIn inners.now) }
{
    match inners.maps.get(origin.source as usize) {
        Some(Some(inner)) => inner_origin(alloc, inners, inner, origin, walk),
        _ => Some(origin),
    }
}

// The origin to which the inner map leads from this one, if there is one.
fn inner_origin<'m>(
    alloc: Global,
    inners: &InnerMaps<'m>,
    inner: &PlacedMap<'m>,
    origin: Origin,
    walk: &mut Option<SourceWalk<'m>>,
) -> Option<Origin>
    requires few { AreFew inners.now }
    requires fits { FitsIn inners.now.sources inners.now.names inner.now }
    requires within { IsOriginWithin inners.now.sources inners.now.names origin }
    requires walk { IfSome walk.old (IsWalkOf inner.now.map.now.stated origin.source) }
    ensures answer { result ≡ origin_through (Some (placed_seen inner.now)) origin }
    ensures within { IfSome result (IsOriginWithin inners.now.sources inners.now.names) }
    ensures walk { IfSome walk.new (λ walk. (walk.source ≡ origin.source)
        × IsWalkThrough inner.now.map.now.stated walk.walk) }
{
    let found = found_origin(alloc, inner.map, origin, walk);
    moved_where(inners, inner, origin, found)
}

// The origin that a map of its source answers for this one, if it answers with one. The walk goes on, or is a new one where
// it is not of that source.
fn found_origin<'m>(
    alloc: Global,
    map: &'m MapFile,
    origin: Origin,
    walk: &mut Option<SourceWalk<'m>>,
) -> Option<Origin>
    requires { IfSome walk.old (IsWalkOf map.now.stated origin.source) }
    ensures answer { result
        ≡ origin_in (answer_of_map map.now.stated origin.line origin.column) }
    ensures within { IfSome result (IsOriginWithin
        (length map.now.stated.sources) (length map.now.stated.names)) }
    ensures walk { IfSome walk.new (λ walk. (walk.source ≡ origin.source)
        × IsWalkThrough map.now.stated walk.walk) }
{
    if let Some(kept) = walk {
        if kept.source == origin.source {
            return kept.walk.origin_at(alloc, map, origin.line, origin.column);
        }
    }
    let mut fresh = Walk::new(alloc, map);
    let found = fresh.origin_at(alloc, map, origin.line, origin.column);
    *walk = Some(SourceWalk {
        source: origin.source,
        walk: fresh,
    });
    found
}

// An origin of the inner map, where there is one, moved.
fn moved_where(
    inners: &InnerMaps<'_>,
    inner: &PlacedMap<'_>,
    origin: Origin,
    found: Option<Origin>,
) -> Option<Origin>
    requires few { AreFew inners.now }
    requires fits { FitsIn inners.now.sources inners.now.names inner.now }
    requires within { IsOriginWithin inners.now.sources inners.now.names origin }
    requires found { IfSome found (IsOriginWithin
        (length inner.now.map.now.stated.sources) (length inner.now.map.now.stated.names)) }
    ensures moved { result
        ≡ option_map (moved_origin inner.now.sources inner.now.names origin.name) found }
    ensures within { IfSome result (IsOriginWithin inners.now.sources inners.now.names) }
{
    match found {
        Some(found) => Some(moved_origin(inners, inner, origin, found)),
        None => None,
    }
}

// An origin of the inner map, after the sources and names that stand before that map's; with the name of the one that led to
// it where it has none itself.
fn moved_origin(
    inners: &InnerMaps<'_>,
    inner: &PlacedMap<'_>,
    origin: Origin,
    found: Origin,
) -> Origin
    requires few { AreFew inners.now }
    requires fits { FitsIn inners.now.sources inners.now.names inner.now }
    requires within { IsOriginWithin inners.now.sources inners.now.names origin }
    requires found { IsOriginWithin
        (length inner.now.map.now.stated.sources) (length inner.now.map.now.stated.names) found }
    ensures moved { result ≡ moved_origin inner.now.sources inner.now.names origin.name found }
    ensures within { IsOriginWithin inners.now.sources inners.now.names result }
{
    Origin {
        source: inner.sources + found.source,
        name: match found.name {
            Some(name) => Some(inner.names + name),
            None => origin.name,
        },
        ..found
    }
}
