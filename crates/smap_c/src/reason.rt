//! What is known of why a map is refused: the value that is wrong, and sentences.
ghost use Rattle.std.specs.Prelude.{◌≡◌, ◌≢◌, ◌⊎◌, None, IfOk, IsSomeAnd, string_bytes};
ghost use Rattle.smap_c.specs.Reason.{IsReasonReported, measure_reason, reason_of, segment_reason};
ghost use Rattle.smap_c.specs.Reason.{column_from_0, no_reason, reported_text};
ghost use Rattle.smap_c.specs.Refusal.{refusal_in};

use crate::handles::BytesHandle;
use crate::refusal::{Refusal, refusal_in};
use crate::status::{DONE, NO_MEMORY, REFUSED};
use crate::written::hand_out;
use smap_explain::{Explanation, Measure, SegmentFacts, explain};
use smap_record::MapRefusal;
use smap_verdicts::{explanation_text, refusal_text};
use std::alloc::{AllocError, Global};

/// The value of a faulty segment that is wrong, what it may be, and where the segment stands. Lines, columns and indices
/// count from 0. What there is not is 0, as its `has` is, which is else 1.
#[repr(C)]
#[derive(Clone, Copy)]
pub struct Reason {
    pub value: i64,
    pub least: i64,
    pub most: i64,
    /// Of the faulty segment.
    pub generated_column: u64,
    pub has_value: u32,
    pub has_least: u32,
    pub has_most: u32,
    pub has_column: u32,
}

/// Says why the map file of these bytes, which is refused so, is refused: by what the program prints behind the path, in a
/// line; in indented lines below it, none where nothing more is known; and by the value that is wrong. Each line ends with
/// an LF. The file is read again.
#[unsafe(no_mangle)]
pub extern "C" fn smap_refusal_explain(
    alloc: Global,
    bytes: &[u8],
    refusal: &Refusal,
    reason: &mut Reason,
    text: &mut BytesHandle,
) -> u32
    ensures reported { result ≡ 0 → IsSomeAnd (refusal_in refusal.now)
        (λ why. IsReasonReported bytes.now why reason.new text.new.held) }
    ensures refused { result ≡ 1 → refusal_in refusal.now ≡ None }
    ensures stays { result ≢ 0 → (reason.new ≡ reason.old) × (text.new.held ≡ text.old.held) }
    ensures status { (result ≡ 0) ⊎ (result ≡ 1) ⊎ (result ≡ 3) }
{
    let Some(refused) = refusal_in(refusal) else {
        return REFUSED;
    };
    let Ok(explanation) = explain(alloc, bytes, refused) else {
        return NO_MEMORY;
    };
    let Ok(reported) = reported_text(alloc, refused, &explanation) else {
        return NO_MEMORY;
    };
    if hand_out(alloc, reported.into_bytes(), text) != DONE {
        return NO_MEMORY;
    }
    *reason = reason_of(&explanation);
    DONE
}

// The number and the name of a refusal with its parts, and below them what is known.
fn reported_text(
    alloc: Global,
    refused: MapRefusal,
    explanation: &Explanation,
) -> Result<String, AllocError>
    ensures { IfOk result (λ text. string_bytes text ≡ reported_text refused explanation.now) }
{
    let line = refusal_text(alloc, refused)?;
    let sentences = explanation_text(alloc, explanation)?;
    format!(in alloc; "{line}\n{sentences}")
}

// The value that is wrong, where a segment is faulty.
fn reason_of(explanation: &Explanation) -> Reason
    ensures { result ≡ reason_of explanation.now }
{
    match explanation {
        Explanation::Segment(facts) => segment_reason(facts),
        Explanation::Nothing => no_reason(),
        Explanation::TooLarge => no_reason(),
        Explanation::NotJson(_) => no_reason(),
        Explanation::NotObject(_) => no_reason(),
        Explanation::Key(_) => no_reason(),
        Explanation::Build(_) => no_reason(),
    }
}

// No value that is known.
fn no_reason() -> Reason
    ensures { result ≡ no_reason }
{
    Reason {
        value: 0,
        least: 0,
        most: 0,
        generated_column: 0,
        has_value: 0,
        has_least: 0,
        has_most: 0,
        has_column: 0,
    }
}

// The value of a segment that is wrong, and the segment's column.
fn segment_reason(facts: &SegmentFacts) -> Reason
    ensures { result ≡ segment_reason facts.now }
{
    Reason {
        generated_column: column_from_zero(facts.column),
        has_column: u32::from(facts.column.is_some()),
        ..measure_reason(facts.measure)
    }
}

// A value that is wrong, where one is known.
fn measure_reason(measure: Option<Measure>) -> Reason
    ensures { result ≡ measure_reason measure }
{
    let Some(measure) = measure else {
        return no_reason();
    };
    Reason {
        value: measure.value,
        least: measure.least.unwrap_or(0),
        most: measure.most.unwrap_or(0),
        generated_column: 0,
        has_value: 1,
        has_least: u32::from(measure.least.is_some()),
        has_most: u32::from(measure.most.is_some()),
        has_column: 0,
    }
}

// A column that counted from 1, and 0 where there is none.
fn column_from_zero(column: Option<u64>) -> u64
    ensures { result ≡ column_from_0 column }
{
    match column {
        Some(column) => column.saturating_sub(1),
        None => 0,
    }
}
