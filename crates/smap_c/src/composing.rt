//! A map composed with the maps of several of its sources, all at once.
ghost use Rattle.std.specs.Prelude.{◌≡◌, ◌≢◌, ◌<◌, ◌⊎◌, None, Some, Err, IfSome, IsErrAnd, IsOkAnd, IsSome, IsTrue, false, length, slice_set};
ghost use Rattle.smap_mappings.specs.Exact.{GivesOr};
ghost use Rattle.smap_compose.specs.declared.refusal.ComposeRefusal.TheVariants.{Memory, SourceIndex};
ghost use Rattle.smap_c.specs.Composing.{all_composed_in, all_composed_text};
ghost use Rattle.smap_c.specs.Inners.{is_free, map_at, no_maps, stated_maps, whole_of};
ghost use Rattle.smap_c.specs.Steps.{text_in};
ghost use Rattle.smap_c.specs.Written.{compose_number};

use crate::handles::{BytesHandle, Holder, InnersHandle, MapHandle};
use crate::inners::Inners;
use crate::status::{DONE, NO_MEMORY, REFUSED};
use crate::written::{hand_out, not_composed};
use smap_compose::{ComposeRefusal, Composed, LeftOut, compose_all};
use smap_record::MapFile;
use std::alloc::Global;

/// What is left out of a composed map.
#[repr(C)]
#[derive(Clone, Copy)]
pub struct ComposeOptions {
    /// Whether sources and names that no mapping has are left out, and of equal ones all but the first that is used.
    pub prune: bool,
    /// Whether the contents of the sources are left out.
    pub no_content: bool,
}

/// Makes a place for the inner map of each source of this map, without a map.
#[unsafe(no_mangle)]
pub extern "C" fn smap_inners_new(
    alloc: Global,
    outer: &mut MapHandle,
    inners: &mut InnersHandle,
) -> u32
    requires { IsSome outer.old.held }
    ensures made { IfSome outer.old.held (λ outside. result ≡ 0 →
        inners.new.held ≡ Some (no_maps (length outside.stated.sources))) }
    ensures stays { (outer.new.held ≡ outer.old.held)
        × (result ≢ 0 → inners.new.held ≡ inners.old.held) }
    ensures status { (result ≡ 0) ⊎ (result ≡ 3) }
{
    let Ok(sources) = u32::try_from(outer.lend().map().sources()) else {
        return NO_MEMORY;
    };
    let Ok(made) = Inners::new(alloc, sources) else {
        return NO_MEMORY;
    };
    match InnersHandle::new(alloc, made) {
        Ok(handle) => {
            *inners = handle;
            DONE
        }
        Err(_failed) => NO_MEMORY,
    }
}

/// Puts the map of source `source`, from 0, in its place, which takes it over: its handle is empty then. It is refused where
/// there is no such place, or a map in it, and both stay.
#[unsafe(no_mangle)]
pub extern "C" fn smap_inners_put(
    alloc: Global,
    inners: &mut InnersHandle,
    source: u32,
    map: &mut MapHandle,
) -> u32
    requires inners { IsSome inners.old.held }
    requires map { IsSome map.old.held }
    ensures put { IfSome inners.old.held (λ places. result ≡ 0 → inners.new.held
        ≡ Some (record places { maps = slice_set places.maps source map.old.held })) }
    ensures taken { result ≡ 0 → map.new.held ≡ None }
    ensures refused { IfSome inners.old.held (λ places.
        result ≡ 1 → is_free places.maps source ≡ false) }
    ensures sound { IfSome inners.old.held (λ places.
        result ≡ 0 → IsTrue (is_free places.maps source)) }
    ensures stays { result ≢ 0 →
        (inners.new.held ≡ inners.old.held) × (map.new.held ≡ map.old.held) }
    ensures status { (result ≡ 0) ⊎ (result ≡ 1) }
{
    let places = inners.lend();
    if !places.is_free(source) {
        return REFUSED;
    }
    places.put(source, map.take_box(alloc));
    DONE
}

/// Takes the map of source `source`, from 0, out of its place, where there is one, and puts it into the handle `map`.
#[unsafe(no_mangle)]
pub extern "C" fn smap_inners_take(
    inners: &mut InnersHandle,
    source: u32,
    map: &mut MapHandle,
) -> u32
    requires { IsSome inners.old.held }
    ensures taken { IfSome inners.old.held (λ places. result ≡ 0 →
        (map.new.held ≡ map_at places.maps source)
        × (inners.new.held ≡ Some (record places { maps = slice_set places.maps source None }))) }
    ensures held { result ≡ 0 → IsSome map.new.held }
    ensures refused { IfSome inners.old.held (λ places.
        result ≡ 1 → map_at places.maps source ≡ None) }
    ensures stays { result ≢ 0 →
        (inners.new.held ≡ inners.old.held) × (map.new.held ≡ map.old.held) }
    ensures status { (result ≡ 0) ⊎ (result ≡ 1) }
{
    let places = inners.lend();
    if !places.has_map(source) {
        return REFUSED;
    }
    if let Some(taken) = places.take(source) {
        *map = MapHandle::of_box(taken);
    }
    DONE
}

/// Composes a map with the maps of its sources, all at once, and writes the map that they come to, with less where the
/// options say so. Once `smap_inners_next` composed it, what it came to stands in its stead. Where they are refused,
/// `refusal` is the number of C1, where there are more places than sources, or of C2. All maps stay.
#[unsafe(no_mangle)]
pub extern "C" fn smap_compose_all(
    alloc: Global,
    outer: &mut MapHandle,
    inners: &mut InnersHandle,
    options: &ComposeOptions,
    bytes: &mut BytesHandle,
    refusal: &mut u32,
) -> u32
    requires outer { IsSome outer.old.held }
    requires inners { IsSome inners.old.held }
    ensures text { IfSome outer.old.held (λ outside. IfSome inners.old.held (λ places.
        result ≡ 0 → IsOkAnd (text_in outside places options.now)
        (λ text. bytes.new.held ≡ Some text))) }
    ensures refused { IfSome outer.old.held (λ outside. IfSome inners.old.held (λ places.
        result ≡ 1 → IsErrAnd (text_in outside places options.now)
        (λ why. refusal.new ≡ compose_number why))) }
    ensures counted { IfSome outer.old.held (λ outside. IfSome inners.old.held (λ places.
        length (whole_of outside places).stated.sources < length places.maps → result ≡ 1)) }
    ensures unreported { result ≢ 1 → refusal.new ≡ refusal.old }
    ensures stays { (outer.new.held ≡ outer.old.held) × (inners.new.held ≡ inners.old.held)
        × (result ≢ 0 → bytes.new.held ≡ bytes.old.held) }
    ensures status { (result ≡ 0) ⊎ (result ≡ 1) ⊎ (result ≡ 3) }
{
    let places = inners.lend();
    match all_composed_text(alloc, places.whole_of(outer.lend().map()), places, options) {
        Ok(text) => hand_out(alloc, text, bytes),
        Err(why) => not_composed(why, refusal),
    }
}

// The text of the map that a map and the maps of its sources come to.
fn all_composed_text(
    alloc: Global,
    outer: &MapFile,
    inners: &Inners,
    options: &ComposeOptions,
) -> Result<Vec<u8>, ComposeRefusal>
    ensures text { GivesOr Memory (λ text. text.items) result
        (all_composed_text outer.now.stated (stated_maps inners.now.maps) options.now) }
    ensures counted { length outer.now.stated.sources < length inners.now.maps →
        result ≡ Err SourceIndex }
{
    let composed = all_composed(alloc, outer, inners, options)?;
    Ok(composed.write_owned(alloc)?)
}

/// The map that a map and the maps of its sources come to.
pub(crate) fn all_composed(
    alloc: Global,
    outer: &MapFile,
    inners: &Inners,
    options: &ComposeOptions,
) -> Result<Composed, ComposeRefusal>
    ensures composed { GivesOr Memory (λ composed. composed) result
        (all_composed_in outer.now.stated (stated_maps inners.now.maps) options.now) }
    ensures counted { length outer.now.stated.sources < length inners.now.maps →
        result ≡ Err SourceIndex }
{
    if u64::from(inners.places()) > outer.sources() {
        return Err(ComposeRefusal::SourceIndex);
    }
    let maps = inners.maps(alloc)?;
    let left_out = LeftOut {
        unused: options.prune,
        contents: options.no_content,
    };
    compose_all(alloc, outer, &maps, left_out)
}

/// Frees inner maps with their places, and leaves their handle empty.
#[unsafe(no_mangle)]
pub extern "C" fn smap_inners_free(alloc: Global, inners: &mut InnersHandle)
    requires { IsSome inners.old.held }
    ensures { inners.new.held ≡ None }
{
    inners.empty(alloc);
}
