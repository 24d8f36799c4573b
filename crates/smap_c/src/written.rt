//! Written maps, and the bytes that are handed out.
ghost use Rattle.std.specs.Prelude.{◌≡◌, ◌≢◌, ◌≤◌, ◌<◌, ◌⊎◌, None, Some, IfSome, IsSome, IsSomeAnd, IfErr, IfOk, length};
ghost use Rattle.smap_mappings.specs.Canonical.{canonical_text};
ghost use Rattle.smap_mappings.specs.Limits.{most_text_bytes};
ghost use Rattle.smap_index.specs.Parts.{joined};
ghost use Rattle.smap_c.specs.Written.{compose_number, composed_text, map_text};
ghost use Rattle.smap_compose.specs.Composition.{compose_refusal, count_refusal};
ghost use Rattle.smap_compose.specs.declared.refusal.ComposeRefusal.TheVariants.{Memory};

use crate::bytes::Bytes;
use crate::codes::code_number;
use crate::handles::{BytesHandle, Holder, MapHandle};
use crate::status::{DONE, NO_MEMORY, REFUSED};
use crate::texts::Text;
use smap_compose::{ComposeRefusal, compose};
use smap_record::WriteRefusal;
use std::alloc::Global;

/// Writes a map as the text of one regular map. It is refused where its mappings, as one text, would have more than
/// 67,108,864 bytes.
#[unsafe(no_mangle)]
pub extern "C" fn smap_map_write(alloc: Global, map: &mut MapHandle, bytes: &mut BytesHandle) -> u32
    requires { IsSome map.old.held }
    ensures text { IfSome map.old.held (λ held.
        result ≡ 0 → bytes.new.held ≡ Some (map_text held.stated)) }
    ensures refused { IfSome map.old.held (λ held.
        result ≡ 1 → most_text_bytes < length (canonical_text (joined held.stated.parts))) }
    ensures too_long { IfSome map.old.held (λ held.
        most_text_bytes < length (canonical_text (joined held.stated.parts)) → result ≡ 1) }
    ensures stays { (map.new.held ≡ map.old.held) × (result ≢ 0 → bytes.new.held ≡ bytes.old.held) }
    ensures status { (result ≡ 0) ⊎ (result ≡ 1) ⊎ (result ≡ 3) }
{
    match map.lend().map().write(alloc) {
        Ok(text) => hand_out(alloc, text, bytes),
        Err(WriteRefusal::TextTooLong) => REFUSED,
        Err(WriteRefusal::Memory) => NO_MEMORY,
    }
}

/// Composes two maps, the inner one being of source `source`, from 0, of the outer one, and writes the map that they
/// come to. Where they are refused, `refusal` is the number of C1 or C2.
#[unsafe(no_mangle)]
pub extern "C" fn smap_compose(
    alloc: Global,
    outer: &mut MapHandle,
    source: u32,
    inner: &mut MapHandle,
    bytes: &mut BytesHandle,
    refusal: &mut u32,
) -> u32
    requires outer { IsSome outer.old.held }
    requires inner { IsSome inner.old.held }
    ensures text { IfSome outer.old.held (λ outside. IfSome inner.old.held (λ inside.
        result ≡ 0 → bytes.new.held ≡ Some (composed_text outside.stated source inside.stated))) }
    ensures refused { IfSome outer.old.held (λ outside. IfSome inner.old.held (λ inside.
        result ≡ 1 → IsSomeAnd (compose_refusal outside.stated source inside.stated)
        (λ why. refusal.new ≡ compose_number why))) }
    ensures sound { IfSome outer.old.held (λ outside. IfSome inner.old.held (λ inside.
        result ≡ 0 → compose_refusal outside.stated source inside.stated ≡ None)) }
    ensures counted { IfSome outer.old.held (λ outside. IfSome inner.old.held (λ inside.
        IfSome (count_refusal outside.stated source inside.stated) (λ why. result ≡ 1))) }
    ensures unreported { result ≢ 1 → refusal.new ≡ refusal.old }
    ensures stays { (outer.new.held ≡ outer.old.held) × (inner.new.held ≡ inner.old.held)
        × (result ≢ 0 → bytes.new.held ≡ bytes.old.held) }
    ensures status { (result ≡ 0) ⊎ (result ≡ 1) ⊎ (result ≡ 3) }
{
    match compose(alloc, outer.lend().map(), source, inner.lend().map()) {
        Ok(composed) => match composed.write_owned(alloc) {
            Ok(text) => hand_out(alloc, text, bytes),
            Err(_) => NO_MEMORY,
        },
        Err(why) => not_composed(why, refusal),
    }
}

/// The status of maps that are not composed, with the number of the code where they are refused.
pub(crate) fn not_composed(why: ComposeRefusal, refusal: &mut u32) -> u32
    ensures refused { result ≡ 1 → (why ≢ Memory) × (refusal.new ≡ compose_number why) }
    ensures some { result ≡ 1 → refusal.new ≢ 0 }
    ensures memory { result ≢ 1 → (why ≡ Memory) × (refusal.new ≡ refusal.old) }
    ensures status { (result ≡ 1) ⊎ (result ≡ 3) }
{
    if matches!(why, ComposeRefusal::Memory) {
        return NO_MEMORY;
    }
    *refusal = code_number(why.code());
    REFUSED
}

// Hands these bytes out.
pub(crate) fn hand_out(alloc: Global, text: Vec<u8>, bytes: &mut BytesHandle) -> u32
    ensures done { result ≡ 0 → bytes.new.held ≡ Some text.items }
    ensures stays { result ≢ 0 → bytes.new.held ≡ bytes.old.held }
    ensures status { (result ≡ 0) ⊎ (result ≡ 3) }
{
    match BytesHandle::new(alloc, Bytes { bytes: text }) {
        Ok(handle) => {
            *bytes = handle;
            DONE
        }
        Err(_failed) => NO_MEMORY,
    }
}

/// Lends the bytes that were handed out.
#[unsafe(no_mangle)]
pub extern "C" fn smap_bytes_text<'a>(bytes: &'a mut BytesHandle, text: &mut Text<'a>) -> u32
    requires { IsSome bytes.old.held }
    ensures text { bytes.old.held ≡ Some text.new.text.now }
    ensures status { result ≡ 0 }
{
    text.text = bytes.lend().bytes.as_slice();
    DONE
}

/// Frees the bytes that were handed out, and leaves their handle empty.
#[unsafe(no_mangle)]
pub extern "C" fn smap_bytes_free(alloc: Global, bytes: &mut BytesHandle)
    requires { IsSome bytes.old.held }
    ensures { bytes.new.held ≡ None }
{
    bytes.empty(alloc);
}
