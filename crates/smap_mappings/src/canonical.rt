//! A list of mappings as its canonical text.
ghost use Rattle.std.specs.Prelude.{◌≡◌, ℕ, None, Some, IfOk, OnOk, MatchResult, string_bytes};
ghost use Rattle.std.specs.List.{All};
ghost use Rattle.smap_mappings.specs.Mappings.{mappings_of};
ghost use Rattle.smap_mappings.specs.Accepted.{IsAccepted};
ghost use Rattle.smap_mappings.specs.Within.{IsWithin};
ghost use Rattle.smap_mappings.specs.Canonical.{canonical_text};
ghost use Rattle.smap_mappings.specs.Exact.{IsExactOr};
ghost use Rattle.smap_mappings.specs.Encode.{encode_fault, list_fault, mapping_fault};
ghost use Rattle.smap_mappings.specs.Range.{is_mapping_past_limit};
ghost use Rattle.smap_mappings.specs.Codes.{encode_code};

use crate::limits::LIMIT;
use crate::mapping::Mapping;
use crate::position::Position;
use crate::text_length::TextLength;
use crate::text_writer::TextWriter;
use smap_codes::Code;
use std::alloc::{AllocError, Global};

/// Why a list is not encoded: the first of these that holds, in this order. Numbers of mappings count from 0, and
/// the least decides, `NotSorted` before `OutOfRange` at one number.
#[derive(Clone, Copy, Debug, PartialEq, Eq)]
pub enum EncodeRefusal {
    /// E1: this mapping stands before the one before it, by generated line, then by generated column.
    NotSorted(u64),
    /// E2: a number of this mapping is past 2147483647.
    OutOfRange(u64),
    /// E3: the text would have more than 67,108,864 bytes.
    TooLong,
    /// E4: there is not enough memory for the text.
    Memory,
}

impl EncodeRefusal {
    /// The code by which it is called.
    pub fn code(self) -> Code
        ensures { result ≡ encode_code self }
    {
        match self {
            EncodeRefusal::NotSorted(_) => Code::E1,
            EncodeRefusal::OutOfRange(_) => Code::E2,
            EncodeRefusal::TooLong => Code::E3,
            EncodeRefusal::Memory => Code::E4,
        }
    }
}

/// The canonical text of a list of mappings (ECMA-426, Mappings structure): each difference in its shortest spelling,
/// the segments of a line joined by `,`, one `;` for each line passed, and nothing at the end. Decoded, it gives the
/// list. Its length is found first and room is made once.
pub fn encode(alloc: Global, list: &[Mapping]) -> Result<String, EncodeRefusal>
    ensures text { IsExactOr EncodeRefusal.Memory result (encode_fault list.now)
        (λ text. string_bytes text ≡ canonical_text list.now) }
    ensures decodes { OnOk result (mappings_of (canonical_text list.now) ≡ list.now) }
    ensures accepted { OnOk result ((sources names : ℕ) → All (IsWithin sources names) list.now
        → IsAccepted (canonical_text list.now) sources names) }
{
    let bytes = text_length(list)?;
    match write_text(alloc, list, bytes) {
        Ok(text) => Ok(text),
        Err(_) => Err(EncodeRefusal::Memory),
    }
}

// The length of the canonical text, or why there is none.
fn text_length(list: &[Mapping]) -> Result<usize, EncodeRefusal>
    ensures { MatchResult result
        (λ bytes. encode_fault list.now ≡ None)
        (λ refusal. encode_fault list.now ≡ Some refusal) }
{
    let mut length = TextLength::new();
    for (i, mapping) in list.iter().enumerate() {
        if let Some(refusal) = mapping_fault(i as u64, length.last(), mapping) {
            return Err(refusal);
        }
        length.add(mapping);
    }
    length.bytes().ok_or(EncodeRefusal::TooLong)
}

// Why mapping `i` is refused after this one.
#[inline(always)]
fn mapping_fault(i: u64, earlier: &Option<Mapping>, mapping: &Mapping) -> Option<EncodeRefusal>
    ensures { result ≡ mapping_fault i earlier.now mapping.now }
{
    if let Some(earlier) = earlier
        && position_of(mapping).is_before(&position_of(earlier))
    {
        return Some(EncodeRefusal::NotSorted(i));
    }
    if is_past_limit(mapping) {
        return Some(EncodeRefusal::OutOfRange(i));
    }
    None
}

#[inline(always)]
fn position_of(mapping: &Mapping) -> Position
    ensures { result ≡ record { line = mapping.now.line; column = mapping.now.column } }
{
    Position {
        line: mapping.line as u64,
        column: mapping.column as u64,
    }
}

// Whether a number of the mapping is past the limit.
#[inline(always)]
fn is_past_limit(mapping: &Mapping) -> bool
    ensures { result ≡ is_mapping_past_limit mapping.now }
{
    if mapping.line > LIMIT || mapping.column > LIMIT {
        return true;
    }
    match mapping.origin {
        Some(origin) => {
            origin.source > LIMIT
                || origin.line > LIMIT
                || origin.column > LIMIT
                || origin.name.unwrap_or(0) > LIMIT
        }
        None => false,
    }
}

// The text of a list that has no fault, written into room for this many bytes.
fn write_text(alloc: Global, list: &[Mapping], bytes: usize) -> Result<String, AllocError>
    requires { list_fault list.now ≡ None }
    ensures text { IfOk result (λ text. string_bytes text ≡ canonical_text list.now) }
    ensures decodes { OnOk result (mappings_of (canonical_text list.now) ≡ list.now) }
    ensures accepted { OnOk result ((sources names : ℕ) → All (IsWithin sources names) list.now
        → IsAccepted (canonical_text list.now) sources names) }
{
    let mut writer = TextWriter::with_capacity(alloc, bytes)?;
    for mapping in list {
        writer.push(mapping)?;
    }
    Ok(writer.into_text())
}
