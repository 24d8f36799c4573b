//! The order in which declarations are kept.
ghost use Rattle.std.specs.Prelude.{◌≡◌};
ghost use Rattle.std.specs.Cmp.Lexicographic.{slice_cmp};
ghost use Rattle.std.specs.List.Sorted.{IsPermutation};
ghost use Rattle.std.specs.Ordering.{nat_cmp};
ghost use Rattle.smap_declarations.specs.Private.Found.{all_named, named};
ghost use Rattle.smap_declarations.specs.Private.Keys.{IsKey};
ghost use Rattle.smap_declarations.specs.Private.Order.{IsInOrder, is_up_to, named_cmp, place_cmp};

use crate::bytes::split_byte;
use crate::key::KEY_BYTES;
use crate::naming::Found;
use crate::walk::DeclarationPlace;
use std::cmp::Ordering;

// Sorts by the bytes of the names, and those of one name by their places.
pub fn sort(found: &mut Vec<Found<'_>>)
    ensures permutation { IsPermutation found.old.items found.new.items }
    ensures ordered { IsInOrder (all_named found.new.items) }
{
    found.sort_unstable_by(|first, second| order(first, second));
}

fn order(first: &Found<'_>, second: &Found<'_>) -> Ordering
    ensures { result ≡ named_cmp (named first.now) (named second.now) }
{
    name_order(first.name, second.name).then(place_order(first.place, second.place))
}

// By the first bytes, which mostly differ, and else by all.
#[inline(always)]
fn name_order(first: &[u8], second: &[u8]) -> Ordering
    ensures { result ≡ slice_cmp nat_cmp first.now second.now }
{
    let Some((a, _)) = split_byte(first) else {
        return first.cmp(&second);
    };
    let Some((b, _)) = split_byte(second) else {
        return first.cmp(&second);
    };
    if a < b {
        Ordering::Less
    } else if b < a {
        Ordering::Greater
    } else {
        first.cmp(&second)
    }
}

// The same of names that have these keys. Where a key holds all of two names of one length, it tells whether they differ.
#[inline(always)]
fn keyed_order(first: &[u8], key: u64, second: &[u8], other: u64) -> Ordering
    requires first { IsKey first.now key }
    requires second { IsKey second.now other }
    ensures { result ≡ slice_cmp nat_cmp first.now second.now }
{
    if key < other {
        Ordering::Less
    } else if other < key {
        Ordering::Greater
    } else if first.len() == second.len() && first.len() <= KEY_BYTES {
        Ordering::Equal
    } else {
        first.cmp(&second)
    }
}

fn place_order(first: DeclarationPlace, second: DeclarationPlace) -> Ordering
    ensures { result ≡ place_cmp first second }
{
    first
        .line
        .cmp(&second.line)
        .then(first.column.cmp(&second.column))
}

// Whether one that has this key stands before this name at this place, whose key is `wanted`, or is of it and not behind the
// place.
#[inline(always)]
pub fn is_up_to(
    found: &Found<'_>,
    key: u64,
    name: &[u8],
    wanted: u64,
    place: DeclarationPlace,
) -> bool
    requires key { IsKey found.now.name.now key }
    requires wanted { IsKey name.now wanted }
    ensures { result ≡ is_up_to name.now place (named found.now) }
{
    match keyed_order(found.name, key, name, wanted) {
        Ordering::Less => true,
        Ordering::Equal => found.place.is_at_or_before(place),
        Ordering::Greater => false,
    }
}
