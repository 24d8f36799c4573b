//! From original to generated: an index that is made once, and asked as often as one likes.
ghost use Rattle.std.specs.Prelude.{◌≡◌, ◌≢◌, ◌⊎◌, List, None, IfSome, IsSome, IsSomeAnd, MatchOption, map};
ghost use Rattle.smap_index.specs.Parts.{joined};
ghost use Rattle.smap_mappings.specs.declared.mapping.Mapping.{Mapping};
ghost use Rattle.smap_originals.specs.Generated.{generated_next};
ghost use Rattle.smap_originals.specs.Originals.{AreOriginalsOf, of_source, on_line, place_of};
ghost use Rattle.smap_c.specs.Originals.{direction_of};

use crate::handles::{Holder, MapHandle, OriginalsHandle};
use crate::status::{DONE, NO_MEMORY, REFUSED};
use smap_originals::{Asked, GeneratedPlace, OriginalDirection, Originals};
use smap_record::Meter;
use std::alloc::Global;

/// Generated places, each with its original place.
#[repr(C)]
#[derive(Clone, Copy)]
pub struct GeneratedPlaces<'a> {
    pub places: &'a [GeneratedPlace],
}

/// Makes the index from original to generated of a map, which is not needed for it any more.
#[unsafe(no_mangle)]
pub extern "C" fn smap_originals_new(
    alloc: Global,
    map: &mut MapHandle,
    originals: &mut OriginalsHandle,
) -> u32
    requires { IsSome map.old.held }
    ensures made { IfSome map.old.held (λ held. result ≡ 0 →
        IsSomeAnd originals.new.held (AreOriginalsOf (joined held.stated.parts))) }
    ensures stays { (map.new.held ≡ map.old.held)
        × (result ≢ 0 → originals.new.held ≡ originals.old.held) }
    ensures status { (result ≡ 0) ⊎ (result ≡ 3) }
{
    let Ok(made) = Originals::new(alloc, map.lend().map()) else {
        return NO_MEMORY;
    };
    match OriginalsHandle::new(alloc, made) {
        Ok(handle) => {
            *originals = handle;
            DONE
        }
        Err(_failed) => NO_MEMORY,
    }
}

/// Lends the generated places of an original place, from 0, its column in UTF-16 code units: in the order of the map those
/// whose original is on this line of this source, at the greatest original column that is not after this one (`direction`
/// 0), or at the least that is not before it (1). Another direction is refused.
#[unsafe(no_mangle)]
pub extern "C" fn smap_generated<'a>(
    alloc: Global,
    originals: &'a mut OriginalsHandle,
    source: u32,
    line: u32,
    column: u32,
    direction: u32,
    places: &mut GeneratedPlaces<'a>,
) -> u32
    requires { IsSome originals.old.held }
    ensures places { IfSome originals.old.held (λ held. MatchOption (direction_of direction)
        ((result ≡ 1) × (places.new ≡ places.old))
        (λ asked. (result ≡ 0) × ((list : List Mapping) → AreOriginalsOf list held →
        places.new.places.now ≡ map place_of (generated_next asked list source line column)))) }
{
    let Some(direction) = direction_of(direction) else {
        return REFUSED;
    };
    let asked = Asked {
        source,
        line,
        column,
        direction,
    };
    let mut meter = Meter::new(alloc);
    places.places = originals.lend().generated(&asked, &mut meter);
    DONE
}

/// Lends the generated places of a line of this source, both from 0: by original columns, and those of one in the order
/// of the map.
#[unsafe(no_mangle)]
pub extern "C" fn smap_generated_on_line<'a>(
    alloc: Global,
    originals: &'a mut OriginalsHandle,
    source: u32,
    line: u32,
    places: &mut GeneratedPlaces<'a>,
) -> u32
    requires { IsSome originals.old.held }
    ensures places { IfSome originals.old.held (λ held.
        places.new.places.now ≡ on_line line (of_source held source)) }
    ensures status { result ≡ 0 }
{
    let mut meter = Meter::new(alloc);
    places.places = originals.lend().on_line(source, line, &mut meter);
    DONE
}

// The direction of this number, where it has one.
fn direction_of(number: u32) -> Option<OriginalDirection>
    ensures { result ≡ direction_of number }
{
    match number {
        0 => Some(OriginalDirection::AtOrBefore),
        1 => Some(OriginalDirection::AtOrAfter),
        _ => None,
    }
}

/// Frees originals, and leaves their handle empty.
#[unsafe(no_mangle)]
pub extern "C" fn smap_originals_free(alloc: Global, originals: &mut OriginalsHandle)
    requires { IsSome originals.old.held }
    ensures { originals.new.held ≡ None }
{
    originals.empty(alloc);
}
