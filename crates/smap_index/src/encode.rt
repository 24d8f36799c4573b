//! The mappings of all parts as one canonical text.

ghost use Rattle.std.specs.Prelude.{◌≡◌, ◌≤◌, ℕ, [], ◌∷◌, false, nat_lt, length, Ok, Err, IfErr, IfOk, IfSome, IsTrue, string_bytes, if◌then◌else◌};
ghost use Rattle.std.specs.List.{All, list_any};
ghost use Rattle.smap_mappings.specs.Accepted.{IsAccepted};
ghost use Rattle.smap_mappings.specs.Within.{IsWithin};
ghost use Rattle.smap_mappings.specs.Canonical.{canonical_text};
ghost use Rattle.smap_mappings.specs.Encode.{is_text_too_long};
ghost use Rattle.smap_mappings.specs.Exact.{IsExactOr};
ghost use Rattle.smap_mappings.specs.Limits.{most_text_bytes};
ghost use Rattle.smap_mappings.specs.Mappings.{mappings_of};
ghost use Rattle.smap_mappings.specs.Range.{is_mapping_past_limit};
ghost use Rattle.smap_mappings.specs.Writing.{IsLengthOf, IsWritten};
ghost use Rattle.smap_index.specs.Faults.{encode_all_fault};
ghost use Rattle.smap_index.specs.Parts.{joined, whole_text};

use crate::joined::joined;
use crate::part::Part;
use crate::refusal::EncodeAllRefusal;
use smap_mappings::{MOST_MAPPINGS_BYTES, PackedText, TextLength, TextWriter};
use std::alloc::{AllocError, Global};

// The length of the canonical text of all mappings.
pub fn length_of_parts(alloc: Global, parts: &[Part]) -> TextLength
    requires in_range { list_any is_mapping_past_limit (joined parts.now) ≡ false }
    ensures { IsLengthOf (joined parts.now) result }
{
    let mut length = TextLength::new();
    for mapping in joined(alloc, parts) {
        length.add(&mapping);
    }
    length
}

// Writes all mappings into room for this many bytes.
pub fn write_parts(alloc: Global, parts: &[Part], bytes: usize) -> Result<TextWriter, AllocError>
    requires in_range { list_any is_mapping_past_limit (joined parts.now) ≡ false }
    ensures { IfOk result (λ writer. IsWritten (joined parts.now) writer) }
{
    let mut writer = TextWriter::with_capacity(alloc, bytes)?;
    for mapping in joined(alloc, parts) {
        writer.push(&mapping)?;
    }
    Ok(writer)
}

// Writes all mappings before their text's length is known, where they are not so many, or on such late lines, that most such
// texts are too long. Where memory runs out, the text may be too long all the same.
pub fn write_at_once(
    alloc: Global,
    parts: &[Part],
    segments: u64,
) -> Option<Result<TextWriter, EncodeAllRefusal>>
    requires in_range { list_any is_mapping_past_limit (joined parts.now) ≡ false }
    ensures written { IfSome result (λ written. IfOk written (λ writer.
        IsWritten (joined parts.now) writer)) }
    ensures refused { IfSome result (λ written. IfErr written (λ refusal.
        refusal ≡ (if is_text_too_long (joined parts.now) then EncodeAllRefusal.TooLong
        else EncodeAllRefusal.Memory))) }
{
    let room = room_at_once(parts, segments)?;
    match write_parts(alloc, parts, room) {
        Ok(writer) => Some(Ok(writer)),
        Err(_) => Some(Err(refusal_of_memory(alloc, parts))),
    }
}

// Why a text is not written for which memory ran out.
fn refusal_of_memory(alloc: Global, parts: &[Part]) -> EncodeAllRefusal
    requires in_range { list_any is_mapping_past_limit (joined parts.now) ≡ false }
    ensures { result ≡ (if is_text_too_long (joined parts.now) then EncodeAllRefusal.TooLong
        else EncodeAllRefusal.Memory) }
{
    match length_of_parts(alloc, parts).bytes() {
        Some(_) => EncodeAllRefusal::Memory,
        None => EncodeAllRefusal::TooLong,
    }
}

// For how many bytes of a segment room is made. Most have fewer.
const ROOM_OF_SEGMENT: u64 = 8;

// The room for so many segments of these parts and the `;` before the last part, where a text may have it.
fn room_at_once(parts: &[Part], segments: u64) -> Option<usize>
    ensures { IfSome result (λ room. room ≤ most_text_bytes) }
{
    let line = match parts.last() {
        Some(part) => u64::from(part.line),
        None => 0,
    };
    let room = segments
        .saturating_mul(ROOM_OF_SEGMENT)
        .saturating_add(line);
    if room <= MOST_MAPPINGS_BYTES as u64 {
        Some(room as usize)
    } else {
        None
    }
}

// The text, if a map may have it.
pub fn within_limit(text: String) -> Result<String, EncodeAllRefusal>
    ensures { result ≡ (if nat_lt most_text_bytes (length (string_bytes text))
        then Err EncodeAllRefusal.TooLong else Ok text) }
{
    if text.len() > MOST_MAPPINGS_BYTES {
        Err(EncodeAllRefusal::TooLong)
    } else {
        Ok(text)
    }
}

// The text of the only part, where it begins at the start and moves no index.
pub fn only_text(parts: &[Part]) -> Option<&PackedText>
    ensures { IfSome result (λ text. parts.now ≡ whole_text text.now ∷ []) }
{
    if parts.len() == 1 && is_unmoved(&parts[0]) {
        Some(&parts[0].text)
    } else {
        None
    }
}

fn is_unmoved(part: &Part) -> bool
    ensures { IsTrue result → part.now ≡ whole_text part.now.text }
{
    part.line == 0 && part.column == 0 && part.source_base == 0 && part.name_base == 0
}

// The canonical text of such a part, of which nothing is written anew where it is canonical as it stands.
pub fn encode_only(alloc: Global, text: &PackedText) -> Result<String, EncodeAllRefusal>
    ensures text { IsExactOr EncodeAllRefusal.Memory result
        (encode_all_fault (mappings_of text.now))
        (λ written. string_bytes written ≡ canonical_text (mappings_of text.now)) }
    ensures decodes { mappings_of (canonical_text (mappings_of text.now)) ≡ mappings_of text.now }
    ensures accepted { (sources names : ℕ) →
        All (IsWithin sources names) (mappings_of text.now) →
        IsAccepted (canonical_text (mappings_of text.now)) sources names }
{
    match text.canonical_text(alloc) {
        Ok(written) => Ok(written),
        Err(_) => Err(EncodeAllRefusal::Memory),
    }
}
