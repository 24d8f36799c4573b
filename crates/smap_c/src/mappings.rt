//! All mappings of a map in one call.
ghost use Rattle.std.specs.Prelude.{◌≡◌, ◌≢◌, ◌++◌, ◌⊎◌, Some, IfOk, IfSome, IsSome, OnOk};
ghost use Rattle.smap_index.specs.Parts.{joined};
ghost use Rattle.smap_c.specs.Mappings.{mapping_bytes, mapping_words, word_bytes};

use crate::handles::{BytesHandle, Holder, MapHandle};
use crate::status::NO_MEMORY;
use crate::written::hand_out;
use smap_mappings::Mapping;
use smap_record::MapFile;
use std::alloc::{AllocError, Global};

// How many bytes a mapping has.
const MAPPING_BYTES: usize = 32;

/// Hands out all mappings of a map in their order, each as eight little-endian words: its line and its column in the
/// generated file, and its kind, 1 without an original and 2 with one; the source, line and column of the original; 1 where
/// it has a name, and else 0; and the name. What the kind has not is 0. All count from 0, columns in UTF-16 code units.
#[unsafe(no_mangle)]
pub extern "C" fn smap_map_mappings(
    alloc: Global,
    map: &mut MapHandle,
    bytes: &mut BytesHandle,
) -> u32
    requires { IsSome map.old.held }
    ensures mappings { IfSome map.old.held (λ held.
        result ≡ 0 → bytes.new.held ≡ Some (mapping_bytes (joined held.stated.parts))) }
    ensures stays { (map.new.held ≡ map.old.held) × (result ≢ 0 → bytes.new.held ≡ bytes.old.held) }
    ensures status { (result ≡ 0) ⊎ (result ≡ 3) }
{
    match mapping_bytes(alloc, map.lend().map()) {
        Ok(all) => hand_out(alloc, all, bytes),
        Err(AllocError) => NO_MEMORY,
    }
}

// The bytes of all mappings. Their room is made once.
fn mapping_bytes(alloc: Global, file: &MapFile) -> Result<Vec<u8>, AllocError>
    ensures { IfOk result (λ bytes. bytes.items ≡ mapping_bytes (joined file.now.stated.parts)) }
{
    let room = (file.segments() as usize).saturating_mul(MAPPING_BYTES);
    let mut bytes = Vec::with_capacity(alloc, room)?;
    for mapping in file.mappings(alloc) {
        put_words(&mapping_words(mapping), &mut bytes)?;
    }
    Ok(bytes)
}

// Puts these words after the others.
fn put_words(words: &[u32], bytes: &mut Vec<u8>) -> Result<(), AllocError>
    ensures { OnOk result (bytes.new.items ≡ bytes.old.items ++ word_bytes words.now) }
{
    for word in words {
        bytes.extend_from_slice(&word.to_le_bytes())?;
    }
    Ok(())
}

// The numbers of a mapping.
fn mapping_words(mapping: Mapping) -> [u32; 8]
    ensures { result ≡ mapping_words mapping }
{
    let Mapping {
        line,
        column,
        origin,
    } = mapping;
    match origin {
        None => [line, column, 1, 0, 0, 0, 0, 0],
        Some(origin) => {
            let (named, name) = match origin.name {
                Some(name) => (1, name),
                None => (0, 0),
            };
            [
                line,
                column,
                2,
                origin.source,
                origin.line,
                origin.column,
                named,
                name,
            ]
        }
    }
}
