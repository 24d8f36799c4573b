//! Looking a position up in a bare mappings text.
ghost use Rattle.std.specs.Prelude.{◌≡◌, ◌≤◌, IfOk, false, length, string_bytes, true};
ghost use Rattle.std.specs.List.{All};
ghost use Rattle.smap_mappings.specs.Faults.{first_fault};
ghost use Rattle.smap_mappings.specs.Mappings.{mappings_of};
ghost use Rattle.smap_mappings.specs.Limits.{most_indices, most_text_bytes};
ghost use Rattle.smap_mappings.specs.Within.{IsWithin};
ghost use Rattle.smap_index.specs.Answer.{answer_at_or_before};
ghost use Rattle.smap_index.specs.Faults.{is_interval};
ghost use Rattle.smap_replies.specs.Outcome.{OrMemory, report_of};
ghost use Rattle.smap_map_answers.specs.Raw.{raw_line, fault_or_answer, raw_result, text_result, without_last_line_end, RawReports};
ghost use Rattle.smap_lines.specs.Editing.{devices_seen};
ghost use Rattle.smap_io.specs.Device.{SinkSeen};

use crate::lines;
use smap_codes::Code;
use smap_index::laws::one_text_is_its_mappings;
use smap_index::{Answer, BuildRefusal, Index, Part};
use smap_io::{ByteSource, ReadFailure, read_all};
use smap_mappings::{MOST_INDICES, MOST_MAPPINGS_BYTES, Meter, PackedText, TextRefusal};
use smap_printing::{NONE, UNMAPPED};
use smap_replies::{Failure, Reply, refused_by};
use std::alloc::{AllocError, Global};

/// Looks up a generated line and column, both from 0, in the mappings text on standard input, over checkpoints at this
/// interval. The caller gives one at which they may stand, and an input that has not failed.
pub fn answer_raw<R: ByteSource>(
    alloc: Global,
    input: &mut R,
    line: u32,
    column: u32,
    interval: u32,
) -> Result<Reply, Failure>
    requires may_stand { is_interval interval ≡ true }
    requires input_works { (R.seen input.old).failed ≡ false }
    ensures { (output : SinkSeen) → RawReports line column
        (devices_seen (R.seen input.old) output)
        (devices_seen (R.seen input.new) output) (report_of result) }
{
    // Two bytes more than a text may have: one of them may be the LF that is dropped.
    match read_all(alloc, input, MOST_MAPPINGS_BYTES + 2) {
        Ok(bytes) => answer_mappings_text(alloc, bytes, line, column, interval),
        Err(ReadFailure::Device) => Err(Failure::InputFailure),
        Err(ReadFailure::Memory) => Err(Failure::Memory),
    }
}

// Looks the position up in the mappings text that the bytes are.
fn answer_mappings_text(
    alloc: Global,
    bytes: Vec<u8>,
    line: u32,
    column: u32,
    interval: u32,
) -> Result<Reply, Failure>
    requires { is_interval interval ≡ true }
    ensures { OrMemory (λ report. report ≡ raw_result bytes.items line column)
        (report_of result) }
{
    answer_text(alloc, without_last_line_end(bytes), line, column, interval)
}

// Drops one LF at the very end.
fn without_last_line_end(mut bytes: Vec<u8>) -> Vec<u8>
    ensures { result.items ≡ without_last_line_end bytes.items }
{
    let length = bytes.len();
    if length > 0 && bytes[length - 1] == b'\n' {
        bytes.truncate(length - 1);
    }
    bytes
}

// Looks the position up in the text, which may be too long, or not UTF-8.
fn answer_text(
    alloc: Global,
    bytes: Vec<u8>,
    line: u32,
    column: u32,
    interval: u32,
) -> Result<Reply, Failure>
    requires { is_interval interval ≡ true }
    ensures { OrMemory (λ report. report ≡ text_result bytes.items line column)
        (report_of result) }
{
    if bytes.len() > MOST_MAPPINGS_BYTES {
        return Err(refused_by(alloc, Code::TextTooLong)?);
    }
    match String::from_utf8(bytes) {
        Ok(text) => answer_mappings(alloc, text, line, column, interval),
        Err(_) => Err(refused_by(alloc, Code::NotUtf8)?),
    }
}

// Looks the position up in the text, or says what its first fault is.
fn answer_mappings(
    alloc: Global,
    text: String,
    line: u32,
    column: u32,
    interval: u32,
) -> Result<Reply, Failure>
    requires short { length (string_bytes text) ≤ most_text_bytes }
    requires may_stand { is_interval interval ≡ true }
    ensures { OrMemory (λ report. report
        ≡ fault_or_answer (first_fault (string_bytes text) most_indices most_indices)
        (answer_at_or_before (mappings_of (string_bytes text)) line column)) (report_of result) }
{
    match PackedText::check(text, MOST_INDICES, MOST_INDICES) {
        Ok(packed) => {
            let answer = look_up(alloc, packed, line, column, interval)?;
            Ok(Reply::Text(raw_line(alloc, &answer)?))
        }
        Err((TextRefusal::Fault(fault), _)) => {
            let line = lines::refused_line(alloc, fault)?;
            Err(Failure::refusal(fault.kind.code(), line))
        }
        Err((TextRefusal::TextTooLong, _)) => unreachable!(
            "the text is no longer than a text may be"
        ),
    }
}

// Looks the position up in a text that is the one part of its index.
fn look_up(
    alloc: Global,
    text: PackedText,
    line: u32,
    column: u32,
    interval: u32,
) -> Result<Answer, AllocError>
    requires within { All (IsWithin most_indices most_indices) (mappings_of text) }
    requires may_stand { is_interval interval ≡ true }
    ensures { IfOk result (λ answer. answer ≡ answer_at_or_before (mappings_of text) line column) }
{
    let mut parts = Vec::new(alloc);
    parts.push(Part {
        line: 0,
        column: 0,
        text,
        source_base: 0,
        name_base: 0,
    })?;
    one_text_is_its_mappings();
    match Index::build(alloc, parts, interval) {
        Ok(index) => {
            let mut meter = Meter::new(alloc);
            Ok(index.look_up(line, column, &mut meter))
        }
        Err(refusal) => Err(no_memory(refusal)),
    }
}

// A checked text as the only part is refused only where memory runs out.
fn no_memory(_refusal: BuildRefusal) -> AllocError
    requires { _refusal ≡ BuildRefusal.Memory }
{
    AllocError
}

fn raw_line(alloc: Global, answer: &Answer) -> Result<String, AllocError>
    ensures { IfOk result (λ text. string_bytes text ≡ raw_line answer.now) }
{
    match answer {
        Answer::Nothing => String::from_str(alloc, NONE),
        Answer::Unmapped { .. } => String::from_str(alloc, UNMAPPED),
        Answer::Found { origin, .. } => {
            lines::found_line(
                alloc,
                origin.source,
                origin.line,
                origin.column,
                origin.name,
            )
        }
    }
}
