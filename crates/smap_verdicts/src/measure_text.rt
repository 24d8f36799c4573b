//! What was asked of a value of a faulty segment, in a sentence.
ghost use Rattle.std.specs.Prelude.{◌≡◌, string_bytes, IfOk};
ghost use Rattle.std.specs.Int.{w64};
ghost use Rattle.smap_verdicts.specs.Segment.{digit_text, is_printable, limit_text, listed_text, measure_text};
ghost use Rattle.smap_verdicts.specs.Segment.{plural, printed, printed_from, quantity_name, value_text};

use smap_explain::{Measure, Quantity};
use smap_record::FaultKind;
use std::alloc::{AllocError, Global};

/// What was asked of a value of a segment with a fault of this kind, with no LF.
#[tactic(auto, unfolding(crate::specs::Segment::measure_text))]
pub fn measure_text(alloc: Global, kind: FaultKind, measure: Measure) -> Result<String, AllocError>
    ensures { IfOk result (λ text. string_bytes text ≡ measure_text kind measure) }
{
    let Measure {
        quantity,
        value,
        least,
        most,
    } = measure;
    match kind {
        FaultKind::BadDigit => digit_text(alloc, value.unsigned_abs()),
        FaultKind::Unended | FaultKind::NegativeZero => Ok(String::new(alloc)),
        FaultKind::TooLong => {
            format!(in alloc; "a number of {value} digits, and a number has at most 7")
        }
        FaultKind::TooLarge => {
            format!(in alloc; "a number of magnitude {value}, and the most is 2147483647")
        }
        FaultKind::FieldCount => {
            format!(in alloc; "{value} numbers, and a segment has 1, 4 or 5")
        }
        FaultKind::Negative => {
            let limit = limit_text(alloc, ", and the least is ", quantity, least)?;
            value_text(alloc, quantity, value, &limit)
        }
        FaultKind::PastLimit => {
            let limit = limit_text(alloc, ", and the most is ", quantity, most)?;
            value_text(alloc, quantity, value, &limit)
        }
        FaultKind::ColumnFalls => {
            let limit = limit_text(alloc, " after column ", quantity, least)?;
            value_text(alloc, quantity, value, &limit)
        }
        FaultKind::SourceIndex => {
            let limit = listed_text(alloc, "source", most)?;
            value_text(alloc, quantity, value, &limit)
        }
        FaultKind::NameIndex => {
            let limit = listed_text(alloc, "name", most)?;
            value_text(alloc, quantity, value, &limit)
        }
    }
}

// The byte that is no digit: as a character where it is a printable one of ASCII.
#[tactic(auto, unfolding(crate::specs::Segment::digit_text))]
fn digit_text(alloc: Global, byte: u64) -> Result<String, AllocError>
    ensures { IfOk result (λ text. string_bytes text ≡ digit_text byte) }
{
    if is_printable(byte) {
        let character = char::from(byte as u8);
        format!(in alloc; "\"{character}\" is no digit of Base64")
    } else {
        format!(in alloc; "byte 0x{byte:x} is no digit of Base64")
    }
}

// Whether a byte is a printable character of ASCII.
fn is_printable(byte: u64) -> bool
    ensures { result ≡ is_printable byte }
{
    byte >= 32 && byte <= 126
}

// A value, and then what limits it.
#[tactic(auto, unfolding(crate::specs::Segment::value_text))]
fn value_text(
    alloc: Global,
    quantity: Quantity,
    value: i64,
    limit: &str,
) -> Result<String, AllocError>
    ensures { IfOk result (λ text. string_bytes text ≡ value_text quantity value limit.now) }
{
    let (name, value) = (quantity_name(quantity), printed(quantity, value));
    format!(in alloc; "{name} {value}{limit}")
}

// After these words, a value that there may be.
#[tactic(auto, unfolding(crate::specs::Segment::limit_text))]
fn limit_text(
    alloc: Global,
    words: &str,
    quantity: Quantity,
    limit: Option<i64>,
) -> Result<String, AllocError>
    ensures { IfOk result (λ text. string_bytes text ≡ limit_text words.now quantity limit) }
{
    match limit {
        Some(limit) => {
            let limit = printed(quantity, limit);
            format!(in alloc; "{words}{limit}")
        }
        None => Ok(String::new(alloc)),
    }
}

// How many of these a map has, of which this is the greatest index.
#[tactic(auto, unfolding(crate::specs::Segment::listed_text))]
fn listed_text(alloc: Global, words: &str, most: Option<i64>) -> Result<String, AllocError>
    ensures { IfOk result (λ text. string_bytes text ≡ listed_text words.now most) }
{
    match most {
        Some(most) => {
            let (count, end) = (most.saturating_add(1), plural(most));
            format!(in alloc; ", and the map has {count} {words}{end}")
        }
        None => format!(in alloc; ", and the map has no {words}s"),
    }
}

fn plural(most: i64) -> &'static str
    ensures { result.now ≡ plural most }
{
    if most == 0 { "" } else { "s" }
}

/// A value as it prints.
pub fn printed(quantity: Quantity, value: i64) -> i64
    ensures { result ≡ printed quantity value }
{
    value.saturating_add(printed_from(quantity))
}

// Lines and columns print from 1.
fn printed_from(quantity: Quantity) -> i64
    ensures { result ≡ printed_from quantity }
{
    match quantity {
        Quantity::Column | Quantity::OriginalLine | Quantity::OriginalColumn => 1,
        Quantity::Digit
        | Quantity::Digits
        | Quantity::Magnitude
        | Quantity::Numbers
        | Quantity::Source
        | Quantity::Name => 0,
    }
}

/// What a value is called.
pub fn quantity_name(quantity: Quantity) -> &'static str
    ensures { result.now ≡ quantity_name quantity }
{
    match quantity {
        Quantity::Digit => "digit",
        Quantity::Digits => "digits",
        Quantity::Magnitude => "magnitude",
        Quantity::Numbers => "numbers",
        Quantity::Column => "column",
        Quantity::Source => "source index",
        Quantity::OriginalLine => "original line",
        Quantity::OriginalColumn => "original column",
        Quantity::Name => "name index",
    }
}
