//! Mappings as the text that a map has of them.
ghost use Rattle.std.specs.Prelude.{◌≡◌, ◌≢◌, ◌⊎◌, None, Some, IfOk, IsSomeAnd, map};
ghost use Rattle.smap_mappings.specs.Canonical.{canonical_text};
ghost use Rattle.smap_mappings.specs.Encode.{encode_fault};
ghost use Rattle.smap_mappings.specs.Mappings.{mappings_of};
ghost use Rattle.smap_c.specs.Encoding.{encode_numbers, mapping_in, origin_in, refused_mapping};

use crate::codes::code_number;
use crate::handles::BytesHandle;
use crate::status::{DONE, NO_MEMORY, REFUSED};
use crate::written::hand_out;
use smap_mappings::{EncodeRefusal, Mapping, Origin, encode};
use std::alloc::{AllocError, Global};

/// A mapping, as `smap_map_mappings` hands it out. All count from 0, columns in UTF-16 code units.
#[repr(C)]
#[derive(Clone, Copy)]
pub struct MappingNumbers {
    pub line: u32,
    pub column: u32,
    /// 2 where it has an original, and any other number where it has none.
    pub kind: u32,
    pub source: u32,
    pub original_line: u32,
    pub original_column: u32,
    /// 0 where the original has no name.
    pub named: u32,
    pub name: u32,
}

/// Why mappings have no text. `code` is the number of E1, E2 or E3, and `mapping` that of the first that is refused, from 0;
/// of E3 it is 0.
#[repr(C)]
#[derive(Clone, Copy)]
pub struct EncodeNumbers {
    pub code: u32,
    pub mapping: u64,
}

/// Hands out the text that a map has of these mappings (ECMA-426, Mappings structure), each difference in its shortest
/// spelling and nothing at the end. They are refused where one stands before the one in front of it, by line and then by
/// column (E1), a number is past 2147483647 (E2), or the text would have more than 67,108,864 bytes (E3).
#[unsafe(no_mangle)]
pub extern "C" fn smap_encode(
    alloc: Global,
    mappings: &[MappingNumbers],
    bytes: &mut BytesHandle,
    refusal: &mut EncodeNumbers,
) -> u32
    ensures text { result ≡ 0 →
        bytes.new.held ≡ Some (canonical_text (map mapping_in mappings.now)) }
    ensures decodes { result ≡ 0 →
        mappings_of (canonical_text (map mapping_in mappings.now)) ≡ map mapping_in mappings.now }
    ensures refused { result ≡ 1 → IsSomeAnd (encode_fault (map mapping_in mappings.now))
        (λ why. refusal.new ≡ encode_numbers why) }
    ensures sound { result ≡ 0 → encode_fault (map mapping_in mappings.now) ≡ None }
    ensures unreported { result ≢ 1 → refusal.new ≡ refusal.old }
    ensures stays { result ≢ 0 → bytes.new.held ≡ bytes.old.held }
    ensures status { (result ≡ 0) ⊎ (result ≡ 1) ⊎ (result ≡ 3) }
{
    let Ok(list) = list_of(alloc, mappings) else {
        return NO_MEMORY;
    };
    match encode(alloc, &list) {
        Ok(text) => hand_out(alloc, text.into_bytes(), bytes),
        Err(EncodeRefusal::Memory) => NO_MEMORY,
        Err(refused) => {
            *refusal = encode_numbers(refused);
            REFUSED
        }
    }
}

// The mappings that these are.
fn list_of(alloc: Global, mappings: &[MappingNumbers]) -> Result<Vec<Mapping>, AllocError>
    ensures { IfOk result (λ list. list.items ≡ map mapping_in mappings.now) }
{
    let mut list = Vec::with_capacity(alloc, mappings.len())?;
    for numbers in mappings {
        list.push(mapping_in(numbers))?;
    }
    Ok(list)
}

fn mapping_in(numbers: &MappingNumbers) -> Mapping
    ensures { result ≡ mapping_in numbers.now }
{
    Mapping {
        line: numbers.line,
        column: numbers.column,
        origin: (numbers.kind == 2).then_some(origin_in(numbers)),
    }
}

fn origin_in(numbers: &MappingNumbers) -> Origin
    ensures { result ≡ origin_in numbers.now }
{
    Origin {
        source: numbers.source,
        line: numbers.original_line,
        column: numbers.original_column,
        name: (numbers.named != 0).then_some(numbers.name),
    }
}

// The numbers of a refusal.
fn encode_numbers(refusal: EncodeRefusal) -> EncodeNumbers
    ensures { result ≡ encode_numbers refusal }
{
    EncodeNumbers {
        code: code_number(refusal.code()),
        mapping: refused_mapping(refusal),
    }
}

// The mapping that is refused, and 0 where it is none alone.
fn refused_mapping(refusal: EncodeRefusal) -> u64
    ensures { result ≡ refused_mapping refusal }
{
    match refusal {
        EncodeRefusal::NotSorted(mapping) | EncodeRefusal::OutOfRange(mapping) => mapping,
        EncodeRefusal::TooLong | EncodeRefusal::Memory => 0,
    }
}
