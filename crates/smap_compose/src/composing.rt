//! Composing a map with the maps of its sources.
ghost use Rattle.std.specs.Prelude.{◌≡◌, ◌≤◌, ◌&&◌, ℕ, None, Some, Err, false, length, IfOk};
ghost use Rattle.std.specs.List.{All};
ghost use Rattle.smap_mappings.specs.Encode.{is_text_too_long, list_fault};
ghost use Rattle.smap_mappings.specs.Within.{IsWithin};
ghost use Rattle.smap_mappings.specs.Exact.{GivesOr};
ghost use Rattle.smap_index.specs.Answer.{answer_at_or_before};
ghost use Rattle.smap_record.specs.Limits.{most_listed};
ghost use Rattle.smap_record.specs.Record.{answer_of_map};
ghost use Rattle.smap_compose.specs.Composition.{all_composed, composed_of, composition, composition_of_all, count_refusal, count_refusal_of_all, followed_mappings, inner_lists, mappings_of_map, names_together, sources_together, unless_too_long};
ghost use Rattle.smap_compose.specs.Follow.{followed_answer};
ghost use Rattle.smap_compose.specs.FollowAll.{followed_answer_all, followed_in_turn};
ghost use Rattle.smap_compose.specs.Inners.{stated_inners};
ghost use Rattle.smap_compose.specs.LeftOut.{left_of};
ghost use Rattle.smap_compose.specs.Pruned.{AnswersAlike};
ghost use Rattle.smap_compose.specs.Private.Parts.{AreFit, parts_seen};
ghost use Rattle.smap_compose.specs.declared.refusal.ComposeRefusal.TheVariants.{Memory};

use crate::composed::{Composed, composed_map};
use crate::follow::followed_mappings;
use crate::laws::{
    answers_keep_their_mappings, composing_all_is_composing_in_turn, pruned_maps_answer_alike,
};
use crate::left_out::LeftOut;
use crate::length::is_text_too_long;
use crate::listed::{all_names, all_sources, joined_names, joined_sources};
use crate::listing::Listing;
use crate::parts::Parts;
use crate::placed::{all_placed, are_too_many, list_too_many, one_placed};
use crate::pruned::left_parts;
use crate::refusal::ComposeRefusal;
use smap_record::{MapFile, Mapping};
use std::alloc::{AllocError, Global};

/// Composes two maps, the inner one being of source `source`, from 0, of the outer one. A mapping of the outer map to
/// that source gets the origin that the inner map answers at its original line and column, and none where that answers
/// without one; its name is the inner map's, or the outer's where that has none. Every other mapping stays. Each costs
/// at most one look-up in the inner map. The sources of both keep their names.
pub fn compose(
    alloc: Global,
    outer: &MapFile,
    source: u32,
    inner: &MapFile,
) -> Result<Composed, ComposeRefusal>
    ensures composed { GivesOr Memory (λ composed. composed) result
        (composed_of outer.now.stated source inner.now.stated) }
    ensures answers { IfOk result (λ composed. (line column : ℕ) →
        answer_at_or_before composed.mappings line column
        ≡ followed_answer (mappings_of_map outer.now.stated) source
        (mappings_of_map inner.now.stated) (answer_of_map outer.now.stated line column)) }
    ensures counted { (refusal : ComposeRefusal) →
        count_refusal outer.now.stated source inner.now.stated ≡ Some refusal →
        result ≡ Err refusal }
{
    answers_keep_their_mappings();
    compose_with(alloc, outer, source, inner, LeftOut::NOTHING)
}

/// The same, without what is left out of the map that they come to.
pub fn compose_with(
    alloc: Global,
    outer: &MapFile,
    source: u32,
    inner: &MapFile,
    left_out: LeftOut,
) -> Result<Composed, ComposeRefusal>
    ensures composed { GivesOr Memory (λ composed. composed) result
        (left_of left_out (composed_of outer.now.stated source inner.now.stated)) }
    ensures named { left_out.contents ≡ false → IfOk result (AnswersAlike
        (composition outer.now.stated source inner.now.stated)) }
    ensures counted { (refusal : ComposeRefusal) →
        count_refusal outer.now.stated source inner.now.stated ≡ Some refusal →
        result ≡ Err refusal }
{
    if source as u64 >= outer.sources() {
        return Err(ComposeRefusal::SourceIndex);
    }
    if are_too_many(outer.sources(), inner.sources())
        || are_too_many(outer.names(), inner.names())
    {
        return Err(ComposeRefusal::TooLarge);
    }
    let mappings = one_followed(alloc, outer, source, inner)?;
    let listing = Listing {
        sources: joined_sources(alloc, outer, inner)?,
        names: joined_names(alloc, outer, inner)?,
        file: outer.file(),
    };
    let whole = Parts { mappings, listing };
    left_of(alloc, whole, left_out)
}

// The mappings of the outer map, those of this source followed.
fn one_followed(
    alloc: Global,
    outer: &MapFile,
    source: u32,
    inner: &MapFile,
) -> Result<Vec<Mapping>, AllocError>
    requires few_sources { sources_together outer.now.stated inner.now.stated ≤ most_listed }
    requires few_names { names_together outer.now.stated inner.now.stated ≤ most_listed }
    ensures list { IfOk result (λ made. made.items
        ≡ followed_mappings outer.now.stated source inner.now.stated) }
    ensures within { let outer = outer.now.stated in let inner = inner.now.stated in
        IfOk result (λ made. All
        (IsWithin (sources_together outer inner) (names_together outer inner)) made.items) }
    ensures no_fault { IfOk result (λ made. list_fault made.items ≡ None) }
{
    let inners = one_placed(alloc, outer, source, inner)?;
    followed_mappings(alloc, outer, &inners)
}

/// Composes a map with the maps of its sources, all at once, without what is left out: at place `s` that of source `s`,
/// where it has one. A mapping of the outer map whose source has an inner map gets the origin that this answers, as
/// `compose` says; every other stays. So it is composing with one after another, from the least source on. Each mapping
/// costs at most one look-up. The sources of an inner map stand after those of the outer map and of the inner maps before
/// it, and so do its names. Where the outer source's name is no URL, a source of its map that is called by a relative path
/// is called by that path as it goes on from the folder of the outer source.
pub fn compose_all(
    alloc: Global,
    outer: &MapFile,
    inners: &[Option<&MapFile>],
    left_out: LeftOut,
) -> Result<Composed, ComposeRefusal>
    requires { length inners.now ≤ length outer.now.stated.sources }
    ensures composed { GivesOr Memory (λ composed. composed) result
        (left_of left_out (all_composed outer.now.stated (stated_inners inners.now))) }
    ensures in_turn { left_out.unused ≡ false → IfOk result (λ composed. composed.mappings
        ≡ (followed_in_turn (mappings_of_map outer.now.stated) 0
        (inner_lists (stated_inners inners.now))).mappings) }
    ensures answers { left_out.unused ≡ false → IfOk result (λ composed. (line column : ℕ) →
        answer_at_or_before composed.mappings line column
        ≡ followed_answer_all (mappings_of_map outer.now.stated)
        (inner_lists (stated_inners inners.now)) (answer_of_map outer.now.stated line column)) }
    ensures named { left_out.contents ≡ false → IfOk result (AnswersAlike
        (composition_of_all outer.now.stated (stated_inners inners.now))) }
    ensures counted { (refusal : ComposeRefusal) →
        count_refusal_of_all outer.now.stated (stated_inners inners.now) ≡ Some refusal →
        result ≡ Err refusal }
{
    if list_too_many(outer, inners) {
        return Err(ComposeRefusal::TooLarge);
    }
    let placed = all_placed(alloc, outer, inners)?;
    let mappings = followed_mappings(alloc, outer, &placed)?;
    let listing = Listing {
        sources: all_sources(alloc, outer, inners)?,
        names: all_names(alloc, outer, inners)?,
        file: outer.file(),
    };
    let whole = Parts { mappings, listing };
    answers_keep_their_mappings();
    composing_all_is_composing_in_turn();
    left_of(alloc, whole, left_out)
}

// The map of these parts, without what is left out.
fn left_of(alloc: Global, whole: Parts<'_>, left_out: LeftOut) -> Result<Composed, ComposeRefusal>
    requires { AreFit whole }
    ensures composed { GivesOr Memory (λ composed. composed) result
        (left_of left_out (unless_too_long (parts_seen whole.entry))) }
    ensures mappings { left_out.unused ≡ false → IfOk result (λ composed.
        composed.mappings ≡ whole.entry.mappings.items) }
    ensures named { left_out.contents ≡ false → IfOk result (AnswersAlike
        (parts_seen whole.entry)) }
{
    if is_refused_whole(&whole.mappings, left_out.unused) {
        return Err(ComposeRefusal::TooLarge);
    }
    pruned_maps_answer_alike();
    let left = left_parts(alloc, whole, left_out.unused)?;
    composed_map(alloc, left, left_out.contents)
}

// Whether what is left of a map is refused since the whole one is too long. Where all is left, that is asked of what is
// left.
fn is_refused_whole(mappings: &[Mapping], unused: bool) -> bool
    requires { list_fault mappings.now ≡ None }
    ensures { result ≡ (unused && is_text_too_long mappings.now) }
{
    unused && is_text_too_long(mappings)
}
