//! Tables of maps.
ghost use Rattle.std.specs.Prelude.{◌≡◌, ◌≢◌, ◌⊎◌, false, true, None, Some, IsSome, IsSomeAnd, IfSome, IfOk, IfErr, IsUtf8, string_bytes};
ghost use Rattle.smap_store.specs.UrlTable.{IsNamed, empty_table, takes_names};
ghost use Rattle.smap_c.specs.Tables.{IsAdded, IsFree, IsNotAdded};

use crate::codes::code_number;
use crate::handles::{Holder, MapHandle, NamesHandle, TableHandle};
use crate::status::{DONE, NO_MEMORY, REFUSED};
use smap_codes::Code;
use smap_store::UrlTable;
use std::alloc::Global;

/// Makes a table without maps.
#[unsafe(no_mangle)]
pub extern "C" fn smap_table_new(alloc: Global, table: &mut TableHandle) -> u32
    ensures made { result ≡ 0 → table.new.held ≡ Some empty_table }
    ensures stays { result ≢ 0 → table.new.held ≡ table.old.held }
    ensures status { (result ≡ 0) ⊎ (result ≡ 3) }
{
    match TableHandle::new(alloc, UrlTable::new(alloc)) {
        Ok(handle) => {
            *table = handle;
            DONE
        }
        Err(_failed) => NO_MEMORY,
    }
}

/// Puts a map into a table, under its URL, which frames name as it stands here, in UTF-8; or, where that begins with `*`,
/// under the text behind it, for the URLs that the pattern has. The table takes the map over, and its handle is empty then.
/// Where the map is refused, both stay, and `refusal` is the number of A1 or A2, or of `NotUtf8` where the URL is not UTF-8.
/// Where there is not enough memory for one that is not refused, the table stays, and the map is freed.
#[unsafe(no_mangle)]
pub extern "C" fn smap_table_add(
    alloc: Global,
    table: &mut TableHandle,
    url: &[u8],
    map: &mut MapHandle,
    refusal: &mut u32,
) -> u32
    requires table { IsSome table.old.held }
    requires map { IsSome map.old.held }
    ensures added { result ≡ 0 → IsAdded table.old.held url.now map.old.held table.new.held }
    ensures taken { result ≢ 1 → map.new.held ≡ None }
    ensures sound { result ≢ 1 → IsFree table.old.held url.now }
    ensures refused { result ≡ 1 → IsNotAdded table.old.held url.now refusal.new }
    ensures unreported { result ≢ 1 → refusal.new ≡ refusal.old }
    ensures back { result ≡ 1 → map.new.held ≡ map.old.held }
    ensures stays { result ≢ 0 → table.new.held ≡ table.old.held }
    ensures status { (result ≡ 0) ⊎ (result ≡ 1) ⊎ (result ≡ 3) }
{
    let status = smap_table_add_shared(alloc, table, url, map, refusal);
    if status != REFUSED {
        map.empty(alloc);
    }
    status
}

/// The same, where the table holds the map with its handle, which stays as it is.
#[unsafe(no_mangle)]
pub extern "C" fn smap_table_add_shared(
    alloc: Global,
    table: &mut TableHandle,
    url: &[u8],
    map: &mut MapHandle,
    refusal: &mut u32,
) -> u32
    requires table { IsSome table.old.held }
    requires map { IsSome map.old.held }
    ensures added { result ≡ 0 → IsAdded table.old.held url.now map.old.held table.new.held }
    ensures sound { result ≢ 1 → IsFree table.old.held url.now }
    ensures refused { result ≡ 1 → IsNotAdded table.old.held url.now refusal.new }
    ensures unreported { result ≢ 1 → refusal.new ≡ refusal.old }
    ensures stays { (map.new.held ≡ map.old.held)
        × (result ≢ 0 → table.new.held ≡ table.old.held) }
    ensures status { (result ≡ 0) ⊎ (result ≡ 1) ⊎ (result ≡ 3) }
{
    let Ok(text) = str::from_utf8(url) else {
        *refusal = code_number(Code::NotUtf8);
        return REFUSED;
    };
    if let Some(refused) = table.lend().refusal_of(url) {
        *refusal = code_number(refused.code());
        return REFUSED;
    }
    let Ok(share) = map.lend().share() else {
        return NO_MEMORY;
    };
    match table.lend().add(alloc, text, share) {
        Ok(()) => DONE,
        Err(_no_memory) => NO_MEMORY,
    }
}

/// Puts names of functions beside the map that a table has under this very URL or pattern: frames whose URLs have that map
/// then get the written names. They are to be those of this map. The table holds them with their handle, which stays as it
/// is. Refused where the table has no map there, or names beside it.
#[unsafe(no_mangle)]
pub extern "C" fn smap_table_add_names(
    alloc: Global,
    table: &mut TableHandle,
    url: &[u8],
    names: &mut NamesHandle,
) -> u32
    requires table { IsSome table.old.held }
    requires names { IsSome names.old.held }
    ensures added { IfSome table.old.held (λ maps. IfSome names.old.held (λ held. result ≡ 0 →
        IsSomeAnd table.new.held (IsNamed maps url.now held.declarations))) }
    ensures refused { IfSome table.old.held (λ maps.
        result ≡ 1 → takes_names maps url.now ≡ false) }
    ensures sound { IfSome table.old.held (λ maps.
        takes_names maps url.now ≡ false → result ≡ 1) }
    ensures stays { (names.new.held ≡ names.old.held)
        × (result ≢ 0 → table.new.held ≡ table.old.held) }
    ensures status { (result ≡ 0) ⊎ (result ≡ 1) ⊎ (result ≡ 3) }
{
    let maps = table.lend();
    if !maps.takes_names(url) {
        return REFUSED;
    }
    let Ok(share) = names.lend().declarations.share() else {
        return NO_MEMORY;
    };
    if maps.add_names(alloc, url, share).is_err() {
        return NO_MEMORY;
    }
    DONE
}

/// Frees a table with what it holds, and leaves its handle empty.
#[unsafe(no_mangle)]
pub extern "C" fn smap_table_free(alloc: Global, table: &mut TableHandle)
    requires { IsSome table.old.held }
    ensures { table.new.held ≡ None }
{
    table.empty(alloc);
}
