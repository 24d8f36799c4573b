//! Debug ids of maps, and of what is written.
ghost use Rattle.std.specs.Prelude.{◌≡◌, ◌≢◌, ◌<◌, ◌⊎◌, Some, IfSome, IsSome, IsSomeAnd, IsUtf8, length, option_map, string_bytes};
ghost use Rattle.smap_record.specs.DebugId.{debug_id_of, with_debug_id};
ghost use Rattle.smap_c.specs.DebugId.{IsIdHandedOut};
ghost use Rattle.smap_c.specs.Read.{IsReadWithin, IsRefusedWithin};

use crate::bytes::Bytes;
use crate::handles::{BytesHandle, Holder, MapHandle};
use crate::read::{ReadFault, read_map};
use crate::refusal::Refusal;
use crate::status::{DONE, NO_MEMORY, REFUSED};
use smap_record::{MapFile, put_debug_id};
use std::alloc::Global;

/// Reads a map as `smap_map_read_within` does, and hands out its debug id, where it has one: the text at `debugId` of its
/// outer object, or at `debug_id` where that is none. `has_id` is then 1. Else it is 0, and `id` stays.
#[unsafe(no_mangle)]
pub extern "C" fn smap_map_read_with_id(
    alloc: Global,
    bytes: &[u8],
    base: &[u8],
    interval: u32,
    most_names: u64,
    map: &mut MapHandle,
    id: &mut BytesHandle,
    has_id: &mut u32,
    refusal: &mut Refusal,
) -> u32
    ensures read { result ≡ 0 → IsSomeAnd map.new.held
        (IsReadWithin (Some most_names) bytes.now base.now interval) }
    ensures id { result ≡ 0 →
        IsIdHandedOut (debug_id_of bytes.now) id.old.held id.new.held has_id.new }
    ensures handed_out { result ≡ 0 → has_id.new ≡ 1 → IsSome id.new.held }
    ensures refused { result ≡ 1 →
        IsRefusedWithin (Some most_names) bytes.now base.now interval refusal.new }
    ensures stays { result ≢ 0 → map.new.held ≡ map.old.held }
    ensures id_stays { result ≢ 0 → (id.new.held ≡ id.old.held) × (has_id.new ≡ has_id.old) }
    ensures unreported { result ≢ 1 → refusal.new ≡ refusal.old }
    ensures status { (result ≡ 0) ⊎ (result ≡ 1) ⊎ (result ≡ 3) }
{
    match read_map(alloc, bytes, base, interval, Some(most_names)) {
        Ok((read, found)) => hand_out_both(alloc, read, found, map, id, has_id),
        Err(ReadFault::Memory) => NO_MEMORY,
        Err(ReadFault::Refused(why)) => {
            *refusal = why;
            REFUSED
        }
    }
}

// Hands out a map, and its debug id, where it has one.
fn hand_out_both(
    alloc: Global,
    read: MapFile,
    found: Option<String>,
    map: &mut MapHandle,
    id: &mut BytesHandle,
    has_id: &mut u32,
) -> u32
    ensures read { result ≡ 0 → map.new.held ≡ Some read }
    ensures id { result ≡ 0 →
        IsIdHandedOut (option_map string_bytes found) id.old.held id.new.held has_id.new }
    ensures handed_out { result ≡ 0 → has_id.new ≡ 1 → IsSome id.new.held }
    ensures stays { result ≢ 0 → map.new.held ≡ map.old.held }
    ensures id_stays { result ≢ 0 → (id.new.held ≡ id.old.held) × (has_id.new ≡ has_id.old) }
    ensures status { (result ≡ 0) ⊎ (result ≡ 3) }
{
    let Some(found) = found else {
        let Ok(handle) = MapHandle::of_map(alloc, read) else {
            return NO_MEMORY;
        };
        *map = handle;
        *has_id = 0;
        return DONE;
    };
    let bytes = found.into_bytes();
    let Ok(mut text) = BytesHandle::new(alloc, Bytes { bytes }) else {
        return NO_MEMORY;
    };
    let Ok(handle) = MapHandle::of_map(alloc, read) else {
        text.empty(alloc);
        return NO_MEMORY;
    };
    *map = handle;
    *id = text;
    *has_id = 1;
    DONE
}

/// Writes a debug id into the text of a map that was handed out, as its last member. It is refused where the id is not
/// UTF-8, or no bytes were handed out.
#[unsafe(no_mangle)]
pub extern "C" fn smap_bytes_put_debug_id(alloc: Global, bytes: &mut BytesHandle, id: &[u8]) -> u32
    requires { IsSome bytes.old.held }
    ensures put { result ≡ 0 → bytes.new.held ≡ option_map (with_debug_id id.now) bytes.old.held }
    ensures refused { result ≡ 1 → IfSome bytes.old.held (λ text.
        (length text ≡ 0) ⊎ (IsUtf8 id.now → ⊥)) }
    ensures sound { IsUtf8 id.now → IfSome bytes.old.held (λ text. 0 < length text → result ≢ 1) }
    ensures taken { result ≡ 0 → IsUtf8 id.now ×
        IsSomeAnd bytes.old.held (λ text. 0 < length text) }
    ensures stays { result ≢ 0 → bytes.new.held ≡ bytes.old.held }
    ensures status { (result ≡ 0) ⊎ (result ≡ 1) ⊎ (result ≡ 3) }
{
    let Ok(id) = str::from_utf8(id) else {
        return REFUSED;
    };
    let written = &mut bytes.lend().bytes;
    if written.is_empty() {
        return REFUSED;
    }
    match put_debug_id(alloc, written, id) {
        Ok(()) => DONE,
        Err(_no_memory) => NO_MEMORY,
    }
}
