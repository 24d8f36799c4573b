//! Look-ups over the maps of a store, by URL.
ghost use Rattle.std.specs.Prelude.{◌≡◌, ◌≢◌, ◌⊎◌, Some, IfOk, IfSome, IsNone, IsSome, IsSomeAnd, MatchOption};
ghost use Rattle.smap_kept.specs.Kept.{answer};
ghost use Rattle.smap_kept.specs.OwnUrls.{key_of};
ghost use Rattle.smap_c.specs.Store.{named_in, reason_number, status_of, url_asked, value_of, why_after};
ghost use Rattle.smap_c.specs.TableLook.{IsLookedUp, answer_in};

use crate::handles::{Holder, MapHandle, NamesHandle, StoreHandle};
use crate::look_up::{FoundNumbers, answer_numbers};
use crate::names::{NamedFunctions, hand_out_names, named_by};
use crate::status::{DONE, NO_MEMORY, REFUSED, WANTED};
use crate::table_look_up::{answer_in, name_of, source_of};
use crate::texts::{Source, Text};
use smap_kept::{KeptAnswer, NoValue};
use smap_record::SharedMap;
use std::alloc::{AllocError, Global};

/// Asks what is known of a URL at a time, and counts that: what answers is dropped after all others. Returns 0 where the URL
/// has a map, 1 where it has none, and 2 where that is not known. `why` is written where it has none: 0, there is none, or
/// 1, what should give it failed.
#[unsafe(no_mangle)]
pub extern "C" fn smap_store_ask(
    store: &mut StoreHandle,
    url: &[u8],
    now: u64,
    why: &mut u32,
) -> u32
    requires { IsSome store.old.held }
    ensures status { IfSome store.old.held (λ maps.
        result ≡ status_of (answer now maps.kept url.now)) }
    ensures why { IfSome store.old.held (λ maps.
        why.new ≡ why_after why.old (answer now maps.kept url.now)) }
    ensures asked { IfSome store.old.held (λ maps.
        store.new.held ≡ Some (url_asked now url.now maps)) }
{
    match store.lend().kept.ask(url, now) {
        KeptAnswer::Known(()) => DONE,
        KeptAnswer::NoneKnown(reason) => {
            *why = reason_number(reason);
            REFUSED
        }
        KeptAnswer::Wanted => WANTED,
    }
}

/// Lends the URL under which a store has what it knows of a URL, and under which that is to be put where it is wanted.
#[unsafe(no_mangle)]
pub extern "C" fn smap_store_key<'a>(
    store: &mut StoreHandle,
    url: &'a [u8],
    key: &mut Text<'a>,
) -> u32
    requires { IsSome store.old.held }
    ensures key { IfSome store.old.held (λ maps.
        key.new.text.now ≡ key_of maps.kept.own url.now) }
    ensures stays { store.new.held ≡ store.old.held }
    ensures status { result ≡ 0 }
{
    key.text = store.lend().kept.key_for(url);
    DONE
}

// The number of a reason.
fn reason_number(reason: NoValue) -> u32
    ensures { result ≡ reason_number reason }
{
    match reason {
        NoValue::Missing => 0,
        NoValue::Failed => 1,
    }
}

/// Looks a generated position up in the map that a URL has at a time, and lends the source that answers and the name of the
/// mapping, as `smap_table_look_up` does; with `after` the first mapping on the line at the position or after it answers.
/// Returns what `smap_store_ask` does, and counts nothing.
#[unsafe(no_mangle)]
pub extern "C" fn smap_store_look_up<'a>(
    alloc: Global,
    store: &'a mut StoreHandle,
    url: &[u8],
    now: u64,
    line: u32,
    column: u32,
    after: bool,
    found: &mut FoundNumbers,
    source: &mut Source<'a>,
    name: &mut Text<'a>,
    why: &mut u32,
) -> u32
    requires { IsSome store.old.held }
    ensures status { IfSome store.old.held (λ maps.
        result ≡ status_of (answer now maps.kept url.now)) }
    ensures found { IfSome store.old.held (λ maps.
        MatchOption (value_of (answer now maps.kept url.now))
        ((found.new ≡ found.old) × (source.new ≡ source.old) × (name.new ≡ name.old))
        (λ one. IsLookedUp one.map.stated (answer_in after one.map.stated line column)
        found.new source.new name.new)) }
    ensures why { IfSome store.old.held (λ maps.
        why.new ≡ why_after why.old (answer now maps.kept url.now)) }
{
    let kept = &store.lend().kept;
    match kept.peek(url, now) {
        KeptAnswer::Known(kept) => {
            let map = kept.map.ready();
            let answer = answer_in(alloc, map, line, column, after);
            *found = answer_numbers(answer);
            *source = source_of(map.map(), answer);
            name.text = name_of(map.map(), answer);
            DONE
        }
        KeptAnswer::NoneKnown(reason) => {
            *why = reason_number(reason);
            REFUSED
        }
        KeptAnswer::Wanted => WANTED,
    }
}

/// Asks as `smap_store_ask` does, and makes a handle of the map, where the URL has one: nothing is copied, and the store may
/// drop the map before it is freed.
#[unsafe(no_mangle)]
pub extern "C" fn smap_store_map(
    alloc: Global,
    store: &mut StoreHandle,
    url: &[u8],
    now: u64,
    map: &mut MapHandle,
    why: &mut u32,
) -> u32
    requires { IsSome store.old.held }
    ensures made { IfSome store.old.held (λ maps.
        MatchOption (value_of (answer now maps.kept url.now))
        ((result ≡ status_of (answer now maps.kept url.now)) × (map.new.held ≡ map.old.held))
        (λ one. ((result ≡ 0) × (map.new.held ≡ Some one.map))
        ⊎ ((result ≡ 3) × (map.new.held ≡ map.old.held)))) }
    ensures why { IfSome store.old.held (λ maps.
        why.new ≡ why_after why.old (answer now maps.kept url.now)) }
    ensures asked { IfSome store.old.held (λ maps.
        store.new.held ≡ Some (url_asked now url.now maps)) }
{
    let share = shared(store, url, now);
    let status = smap_store_ask(store, url, now, why);
    let Some(share) = share else {
        return status;
    };
    let Ok(share) = share else {
        return NO_MEMORY;
    };
    match MapHandle::new(alloc, share) {
        Ok(handle) => {
            *map = handle;
            DONE
        }
        Err(_failed) => NO_MEMORY,
    }
}

// Another hold on the map of a URL, where it has one.
fn shared(store: &mut StoreHandle, url: &[u8], now: u64) -> Option<Result<SharedMap, AllocError>>
    requires { IsSome store.old.held }
    ensures share { IfSome store.old.held (λ maps.
        MatchOption (value_of (answer now maps.kept url.now)) (IsNone result)
        (λ one. IsSomeAnd result (λ share. IfOk share (λ held. held ≡ one.map)))) }
    ensures stays { store.new.held ≡ store.old.held }
{
    match store.lend().kept.peek(url, now) {
        KeptAnswer::Known(kept) => Some(kept.map.share()),
        KeptAnswer::NoneKnown(_) | KeptAnswer::Wanted => None,
    }
}

/// Makes a handle of the names of functions that a store has with the map of a URL at a time, and of that map: nothing is
/// copied, and the store may drop them before it is freed. Refused where it has none with it. Nothing is counted.
#[unsafe(no_mangle)]
pub extern "C" fn smap_store_names(
    alloc: Global,
    store: &mut StoreHandle,
    url: &[u8],
    now: u64,
    names: &mut NamesHandle,
) -> u32
    requires { IsSome store.old.held }
    ensures made { IfSome store.old.held (λ maps.
        MatchOption (named_in (answer now maps.kept url.now)) (result ≡ 1)
        (λ named. ((result ≡ 0) × (names.new.held ≡ Some named)) ⊎ (result ≡ 3))) }
    ensures stays { (store.new.held ≡ store.old.held)
        × (result ≢ 0 → names.new.held ≡ names.old.held) }
{
    let Some(named) = shared_names(store, url, now) else {
        return REFUSED;
    };
    match named {
        Ok(named) => hand_out_names(alloc, named, names),
        Err(_no_memory) => NO_MEMORY,
    }
}

// Another hold on the map of a URL and on its declarations, where it has both.
fn shared_names(
    store: &mut StoreHandle,
    url: &[u8],
    now: u64,
) -> Option<Result<NamedFunctions, AllocError>>
    requires { IsSome store.old.held }
    ensures share { IfSome store.old.held (λ maps.
        MatchOption (named_in (answer now maps.kept url.now)) (IsNone result)
        (λ named. IsSomeAnd result (λ share. IfOk share (λ held. held ≡ named)))) }
    ensures stays { store.new.held ≡ store.old.held }
{
    match store.lend().kept.peek(url, now) {
        KeptAnswer::Known(kept) => match &kept.declared {
            Some(declared) => Some(named_by(&kept.map, declared)),
            None => None,
        },
        KeptAnswer::NoneKnown(_) | KeptAnswer::Wanted => None,
    }
}
