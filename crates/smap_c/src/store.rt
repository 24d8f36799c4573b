//! A store of maps: what is known of URLs, within a bound.
ghost use Rattle.std.specs.Prelude.{◌≡◌, ◌≢◌, ◌⊎◌, None, Some, true, IfOk, IfSome, IsSome, IsSomeAnd};
ghost use Rattle.smap_kept.specs.Bounded.{is_within};
ghost use Rattle.smap_c.specs.Store.{counts_of, empty_store, kept_put, map_put, named_put, none_put, nones_forgotten, reason_of, until_of, url_forgotten};

use crate::handles::{Holder, MapHandle, NamesHandle, StoreHandle};
use crate::names::NamedFunctions;
use crate::status::{DONE, NO_MEMORY, REFUSED};
use smap_kept::{Kept, NoValue};
use smap_piecewise::{KeptMap, KeptMaps};
use std::alloc::{AllocError, Global};

/// How much a store holds, and what was asked of it.
#[repr(C)]
#[derive(Clone, Copy)]
pub struct StoreCounts {
    /// For how many bytes its maps count, and how many they are.
    pub bytes: u64,
    pub count: u64,
    /// The same of the URLs that are known to have none.
    pub none_bytes: u64,
    pub none_count: u64,
    /// How many look-ups were counted, and how many of them were answered.
    pub asked: u64,
    pub hits: u64,
    /// How much was dropped because there was no room.
    pub dropped: u64,
    /// For how many bytes count the URLs with a query or a fragment that have answers of their own.
    pub own_bytes: u64,
}

/// Makes a store that knows of no URL, and whose maps count for at most so many bytes, or are one alone.
#[unsafe(no_mangle)]
pub extern "C" fn smap_store_new(alloc: Global, most: u64, store: &mut StoreHandle) -> u32
    ensures made { result ≡ 0 → store.new.held ≡ Some (empty_store most) }
    ensures stays { result ≢ 0 → store.new.held ≡ store.old.held }
    ensures status { (result ≡ 0) ⊎ (result ≡ 3) }
{
    let Ok(kept) = Kept::new(alloc, most) else {
        return NO_MEMORY;
    };
    match StoreHandle::new(alloc, KeptMaps { kept, now: 0 }) {
        Ok(handle) => {
            *store = handle;
            DONE
        }
        Err(_failed) => NO_MEMORY,
    }
}

/// Puts the map of a URL, which counts for so many bytes, in the place of what was known under this very URL. The store
/// holds the map with its handle, which stays as it is.
#[unsafe(no_mangle)]
pub extern "C" fn smap_store_put(
    alloc: Global,
    store: &mut StoreHandle,
    url: &[u8],
    map: &mut MapHandle,
    bytes: u64,
) -> u32
    requires store { IsSome store.old.held }
    requires map { IsSome map.old.held }
    ensures put { IfSome store.old.held (λ maps. IfSome map.old.held (λ held. result ≡ 0 →
        store.new.held ≡ Some (map_put url.now held bytes maps))) }
    ensures stays { (map.new.held ≡ map.old.held)
        × (result ≢ 0 → store.new.held ≡ store.old.held) }
    ensures status { (result ≡ 0) ⊎ (result ≡ 3) }
{
    let Ok(share) = map.lend().share() else {
        return NO_MEMORY;
    };
    let kept = KeptMap {
        map: share,
        declared: None,
    };
    put_kept(alloc, store, url, kept, bytes)
}

// Puts what is kept of a URL, which counts for so many bytes.
fn put_kept(alloc: Global, store: &mut StoreHandle, url: &[u8], kept: KeptMap, bytes: u64) -> u32
    requires { IsSome store.old.held }
    ensures put { IfSome store.old.held (λ maps. result ≡ 0 →
        store.new.held ≡ Some (kept_put url.now kept bytes maps)) }
    ensures stays { result ≢ 0 → store.new.held ≡ store.old.held }
    ensures status { (result ≡ 0) ⊎ (result ≡ 3) }
{
    match store.lend().kept.put(alloc, url, kept, bytes) {
        Ok(()) => DONE,
        Err(_failed) => NO_MEMORY,
    }
}

/// The same with the map of names of functions, and with them: frames of the URL then get the written names. The store holds
/// both with the handle, which stays as it is.
#[unsafe(no_mangle)]
pub extern "C" fn smap_store_put_named(
    alloc: Global,
    store: &mut StoreHandle,
    url: &[u8],
    names: &mut NamesHandle,
    bytes: u64,
) -> u32
    requires store { IsSome store.old.held }
    requires names { IsSome names.old.held }
    ensures put { IfSome store.old.held (λ maps. IfSome names.old.held (λ held. result ≡ 0 →
        store.new.held ≡ Some (named_put url.now held bytes maps))) }
    ensures stays { (names.new.held ≡ names.old.held)
        × (result ≢ 0 → store.new.held ≡ store.old.held) }
    ensures status { (result ≡ 0) ⊎ (result ≡ 3) }
{
    let Ok(kept) = kept_with(names.lend()) else {
        return NO_MEMORY;
    };
    put_kept(alloc, store, url, kept, bytes)
}

// Another hold on the map of names, and on its declarations.
fn kept_with(names: &NamedFunctions) -> Result<KeptMap, AllocError>
    ensures { IfOk result (λ kept. kept ≡ record {
      map = names.now.map;
      declared = Some names.now.declarations;
    }) }
{
    Ok(KeptMap {
        map: names.map.share()?,
        declared: Some(names.declarations.share()?),
    })
}

/// Puts why a URL has no map, in the place of what was known under this very URL: 0, there is none, or 1, what should give
/// it failed. With `has_until` that holds before the time `until`, and else for ever. Another reason is refused.
#[unsafe(no_mangle)]
pub extern "C" fn smap_store_put_none(
    alloc: Global,
    store: &mut StoreHandle,
    url: &[u8],
    why: u32,
    has_until: bool,
    until: u64,
) -> u32
    requires { IsSome store.old.held }
    ensures put { IfSome store.old.held (λ maps. result ≡ 0 → IsSomeAnd (reason_of why) (λ reason.
        store.new.held ≡ Some (none_put url.now reason (until_of has_until until) maps))) }
    ensures refused { result ≡ 1 → reason_of why ≡ None }
    ensures sound { reason_of why ≡ None → result ≡ 1 }
    ensures stays { result ≢ 0 → store.new.held ≡ store.old.held }
    ensures status { (result ≡ 0) ⊎ (result ≡ 1) ⊎ (result ≡ 3) }
{
    let Some(reason) = reason_of(why) else {
        return REFUSED;
    };
    let until = until_of(has_until, until);
    match store.lend().kept.put_none(alloc, url, reason, until) {
        Ok(()) => DONE,
        Err(_no_memory) => NO_MEMORY,
    }
}

// The reason of a number.
fn reason_of(number: u32) -> Option<NoValue>
    ensures { result ≡ reason_of number }
{
    match number {
        0 => Some(NoValue::Missing),
        1 => Some(NoValue::Failed),
        _ => None,
    }
}

// The time until which something holds, if not for ever.
fn until_of(has_until: bool, until: u64) -> Option<u64>
    ensures { result ≡ until_of has_until until }
{
    if has_until { Some(until) } else { None }
}

/// Forgets what is known under this very URL.
#[unsafe(no_mangle)]
pub extern "C" fn smap_store_forget(store: &mut StoreHandle, url: &[u8]) -> u32
    requires { IsSome store.old.held }
    ensures forgotten { IfSome store.old.held (λ maps.
        store.new.held ≡ Some (url_forgotten url.now maps)) }
    ensures status { result ≡ 0 }
{
    store.lend().kept.forget(url);
    DONE
}

/// Forgets which URLs have no map.
#[unsafe(no_mangle)]
pub extern "C" fn smap_store_forget_none(store: &mut StoreHandle) -> u32
    requires { IsSome store.old.held }
    ensures forgotten { IfSome store.old.held (λ maps.
        store.new.held ≡ Some (nones_forgotten maps)) }
    ensures status { result ≡ 0 }
{
    store.lend().kept.forget_none();
    DONE
}

/// Says how much a store holds, and what was asked of it.
#[unsafe(no_mangle)]
pub extern "C" fn smap_store_count(store: &mut StoreHandle, counts: &mut StoreCounts) -> u32
    requires { IsSome store.old.held }
    ensures counts { IfSome store.old.held (λ maps. counts.new ≡ counts_of maps.kept) }
    ensures within { IfSome store.old.held (λ maps.
        is_within maps.kept.most maps.kept.values ≡ true) }
    ensures stays { store.new.held ≡ store.old.held }
    ensures status { result ≡ 0 }
{
    let kept = &store.lend().kept;
    *counts = StoreCounts {
        bytes: kept.bytes(),
        count: kept.count() as u64,
        none_bytes: kept.none_bytes(),
        none_count: kept.none_count() as u64,
        asked: kept.asked(),
        hits: kept.hits(),
        dropped: kept.dropped(),
        own_bytes: kept.own_bytes(),
    };
    DONE
}

/// Frees a store, with those of its maps that nothing else holds, and leaves its handle empty.
#[unsafe(no_mangle)]
pub extern "C" fn smap_store_free(alloc: Global, store: &mut StoreHandle)
    requires { IsSome store.old.held }
    ensures { store.new.held ≡ None }
{
    store.empty(alloc);
}
