//! Reading a map, and letting it go.
ghost use Rattle.std.specs.Prelude.{◌≡◌, ◌≢◌, ◌⊎◌, None, Some, IsSome, IsSomeAnd, IfErr, IfOk, option_map, string_bytes};
ghost use Rattle.smap_record.specs.DebugId.{debug_id_of};
ghost use Rattle.smap_c.specs.Read.{IsReadAs, IsReadWithin, IsRefusedAs, IsRefusedWithin, NamesBase};
ghost use Rattle.smap_c.specs.Private.Base.{IsFaultOf};
ghost use Rattle.smap_c.specs.Private.Unread.{IsWhyUnread};

use crate::handles::{Holder, MapHandle};
use crate::refusal::{Refusal, coded, numbers_of};
use crate::status::{DONE, NO_MEMORY, REFUSED};
use smap_codes::Code;
use smap_record::{MapFile, MapRefusal, Url};
use std::alloc::Global;
use url::ParseError;

/// Reads the bytes of a map file (ECMA-426, Source map format) that stands at the base, a URL in UTF-8, or none where
/// it has no bytes. Its index has a checkpoint at the segments of number 0, `interval`, 2 `interval` and so on of each
/// line; the interval is 1 to 4096. Where the map or the base is refused, `refusal` says why, and where no map is read
/// `map` stays.
#[unsafe(no_mangle)]
pub extern "C" fn smap_map_read(
    alloc: Global,
    bytes: &[u8],
    base: &[u8],
    interval: u32,
    map: &mut MapHandle,
    refusal: &mut Refusal,
) -> u32
    ensures read { result ≡ 0 → IsSomeAnd map.new.held (IsReadAs bytes.now base.now interval) }
    ensures refused { result ≡ 1 → IsRefusedAs bytes.now base.now interval refusal.new }
    ensures stays { result ≢ 0 → map.new.held ≡ map.old.held }
    ensures unreported { result ≢ 1 → refusal.new ≡ refusal.old }
    ensures status { (result ≡ 0) ⊎ (result ≡ 1) ⊎ (result ≡ 3) }
{
    read_within(alloc, bytes, base, interval, None, map, refusal)
}

/// The same, where the names of all sources may be made of at most `most_names` bytes: each of those of the base, of what
/// `sourceRoot` puts before it, and of its own text. Where there are more, the map is refused before a name is made.
#[unsafe(no_mangle)]
pub extern "C" fn smap_map_read_within(
    alloc: Global,
    bytes: &[u8],
    base: &[u8],
    interval: u32,
    most_names: u64,
    map: &mut MapHandle,
    refusal: &mut Refusal,
) -> u32
    ensures read { result ≡ 0 → IsSomeAnd map.new.held
        (IsReadWithin (Some most_names) bytes.now base.now interval) }
    ensures refused { result ≡ 1 →
        IsRefusedWithin (Some most_names) bytes.now base.now interval refusal.new }
    ensures stays { result ≢ 0 → map.new.held ≡ map.old.held }
    ensures unreported { result ≢ 1 → refusal.new ≡ refusal.old }
    ensures status { (result ≡ 0) ⊎ (result ≡ 1) ⊎ (result ≡ 3) }
{
    read_within(alloc, bytes, base, interval, Some(most_names), map, refusal)
}

// Reads a map within a bound, if there is one.
fn read_within(
    alloc: Global,
    bytes: &[u8],
    base: &[u8],
    interval: u32,
    most_names: Option<u64>,
    map: &mut MapHandle,
    refusal: &mut Refusal,
) -> u32
    ensures read { result ≡ 0 → IsSomeAnd map.new.held
        (IsReadWithin most_names bytes.now base.now interval) }
    ensures refused { result ≡ 1 →
        IsRefusedWithin most_names bytes.now base.now interval refusal.new }
    ensures stays { result ≢ 0 → map.new.held ≡ map.old.held }
    ensures unreported { result ≢ 1 → refusal.new ≡ refusal.old }
    ensures status { (result ≡ 0) ⊎ (result ≡ 1) ⊎ (result ≡ 3) }
{
    match read_map(alloc, bytes, base, interval, most_names) {
        Ok((read, _id)) => match MapHandle::of_map(alloc, read) {
            Ok(handle) => {
                *map = handle;
                DONE
            }
            Err(_) => NO_MEMORY,
        },
        Err(ReadFault::Memory) => NO_MEMORY,
        Err(ReadFault::Refused(why)) => {
            *refusal = why;
            REFUSED
        }
    }
}

/// Why no map is read.
pub(crate) enum ReadFault {
    Refused(Refusal),
    Memory,
}

/// A map within a bound, if there is one, with its debug id.
pub(crate) fn read_map(
    alloc: Global,
    bytes: &[u8],
    base: &[u8],
    interval: u32,
    most_names: Option<u64>,
) -> Result<(MapFile, Option<String>), ReadFault>
    ensures read { IfOk result (λ read.
        IsReadWithin most_names bytes.now base.now interval read.0) }
    ensures id { IfOk result (λ read. option_map string_bytes read.1 ≡ debug_id_of bytes.now) }
    ensures refused { IfErr result (IsWhyUnread most_names bytes.now base.now interval) }
{
    let base = match base_named(alloc, base) {
        Ok(base) => base,
        Err(BaseFault::NoUrl) => return Err(ReadFault::Refused(coded(Code::Usage))),
        Err(BaseFault::TooLong) => return Err(ReadFault::Refused(coded(Code::U1))),
        Err(BaseFault::Memory) => return Err(ReadFault::Memory),
    };
    match MapFile::read_with_id(alloc, bytes, base.as_ref(), interval, most_names) {
        Ok(read) => Ok(read),
        Err(MapRefusal::Memory) => Err(ReadFault::Memory),
        Err(refused) => Err(ReadFault::Refused(numbers_of(refused))),
    }
}

// Why there is no base.
enum BaseFault {
    NoUrl,
    TooLong,
    Memory,
}

// The base that these bytes name.
fn base_named(alloc: Global, base: &[u8]) -> Result<Option<Url>, BaseFault>
    ensures named { IfOk result (NamesBase base.now) }
    ensures refused { IfErr result (IsFaultOf base.now) }
{
    if base.is_empty() {
        return Ok(None);
    }
    let Ok(text) = str::from_utf8(base) else {
        return Err(BaseFault::NoUrl);
    };
    match Url::parse(alloc, text) {
        Ok(url) => Ok(Some(url)),
        Err(error) => match error {
            ParseError::OutOfMemory => Err(BaseFault::Memory),
            ParseError::Overflow => Err(BaseFault::TooLong),
            _ => Err(BaseFault::NoUrl),
        },
    }
}

/// Frees a map, and leaves its handle empty.
#[unsafe(no_mangle)]
pub extern "C" fn smap_map_free(alloc: Global, map: &mut MapHandle)
    requires { IsSome map.old.held }
    ensures { map.new.held ≡ None }
{
    map.empty(alloc);
}
