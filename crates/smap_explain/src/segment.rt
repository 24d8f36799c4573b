//! The first faulty segment of a mappings text.
ghost use Rattle.std.specs.Prelude.{◌≡◌, ◌≤◌, None, IfOk, length, option_map};
ghost use Rattle.std.specs.Option.{MatchOption};
ghost use Rattle.smap_mappings.specs.Faults.{first_faulty};
ghost use Rattle.smap_mappings.specs.Limits.{most_text_bytes};
ghost use Rattle.smap_explain.specs.Segment.{IsSegmentExplained, capped, column_after, facts_reported, first_below_zero, first_numbers, first_past_limit, measure_after, measure_reported, measured, more_numbers, ranged, segment_seen};

use crate::explanation::{Measure, Quantity, SegmentFacts};
use crate::front_of_text::front_of_text;
use smap_mappings::{
    FaultKind, FaultySegment, LIMIT, RunningSums, faulty_segment, first_bad_digit, large_magnitude,
    long_number_digits, segment_numbers,
};
use std::alloc::{AllocError, Global};

/// What is known of the first faulty segment of this mappings text, which is that of the section with this number, for so
/// many sources and names; nothing where no segment is faulty. The caller gives a text of at most 67,108,864 bytes.
pub fn segment_facts(
    alloc: Global,
    section: u64,
    text: &str,
    sources: u32,
    names: u32,
) -> Result<Option<SegmentFacts>, AllocError>
    requires { length text.now ≤ most_text_bytes }
    ensures { IfOk result (λ facts. MatchOption facts
        (first_faulty text.now sources names ≡ None)
        (IsSegmentExplained section text.now sources names)) }
{
    let bytes = text.as_bytes();
    let Some(reported) = faulty_segment(bytes, sources, names) else {
        return Ok(None);
    };
    let segment = &bytes[reported.fault.byte as usize..reported.end as usize];
    let facts = facts_reported(alloc, section, segment, &reported, sources, names)?;
    Ok(Some(facts))
}

// What is known of this segment.
fn facts_reported(
    alloc: Global,
    section: u64,
    segment: &[u8],
    reported: &FaultySegment,
    sources: u32,
    names: u32,
) -> Result<SegmentFacts, AllocError>
    ensures { IfOk result (λ facts. segment_seen facts
        ≡ facts_reported section segment.now reported.now sources names) }
{
    let text = front_of_text(alloc, segment)?;
    let numbers = segment_numbers(alloc, segment)?;
    let column = column_after(reported.before.column, &numbers);
    let measure = measure_reported(segment, reported, &numbers, sources, names);
    Ok(SegmentFacts {
        section,
        fault: reported.fault,
        text,
        column,
        numbers: first_numbers(alloc, &numbers)?,
        more: more_numbers(&numbers),
        measure,
    })
}

// The first 8 of the numbers, where there are some.
fn first_numbers(alloc: Global, numbers: &Option<Vec<i32>>) -> Result<Option<Vec<i32>>, AllocError>
    ensures { IfOk result (λ front. option_map (λ list. list.items) front
        ≡ option_map first_numbers (option_map (λ list. list.items) numbers.now)) }
{
    match numbers {
        Some(numbers) => {
            let end = numbers.len().min(8);
            Ok(Some(numbers[..end].to_vec(alloc)?))
        }
        None => Ok(None),
    }
}

// How many numbers there are beyond these.
fn more_numbers(numbers: &Option<Vec<i32>>) -> u64
    ensures { result ≡ more_numbers (option_map (λ list. list.items) numbers.now) }
{
    match numbers {
        Some(numbers) => numbers.len().saturating_sub(8) as u64,
        None => 0,
    }
}

// The column after the first number, from 1, where there is one and it is not before the line.
fn column_after(before: u32, numbers: &Option<Vec<i32>>) -> Option<u64>
    ensures { result ≡ column_after before (option_map (λ list. list.items) numbers.now) }
{
    let Some(numbers) = numbers else {
        return None;
    };
    let first = *numbers.first()?;
    let column = i64::from(before) + i64::from(first);
    if column < 0 {
        return None;
    }
    Some(column as u64 + 1)
}

// What is wrong with the segment, as far as that is a value.
fn measure_reported(
    segment: &[u8],
    reported: &FaultySegment,
    numbers: &Option<Vec<i32>>,
    sources: u32,
    names: u32,
) -> Option<Measure>
    ensures { result ≡ measure_reported segment.now reported.now
        (option_map (λ list. list.items) numbers.now) sources names }
{
    match reported.fault.kind {
        FaultKind::BadDigit => {
            let byte = first_bad_digit(segment)?;
            Some(measured(Quantity::Digit, i64::from(byte), None, None))
        }
        FaultKind::Unended => None,
        FaultKind::TooLong => {
            let digits = capped(long_number_digits(segment)?);
            Some(measured(Quantity::Digits, digits, Some(1), Some(7)))
        }
        FaultKind::TooLarge => Some(ranged(Quantity::Magnitude, capped(large_magnitude(segment)?))),
        FaultKind::NegativeZero => None,
        FaultKind::FieldCount => match numbers {
            Some(numbers) => {
                let count = capped(numbers.len() as u64);
                Some(measured(Quantity::Numbers, count, None, None))
            }
            None => None,
        },
        FaultKind::Negative
        | FaultKind::PastLimit
        | FaultKind::ColumnFalls
        | FaultKind::SourceIndex
        | FaultKind::NameIndex => measure_after(reported.fault.kind, reported, sources, names),
    }
}

// What is wrong with the running values after it.
fn measure_after(
    kind: FaultKind,
    reported: &FaultySegment,
    sources: u32,
    names: u32,
) -> Option<Measure>
    ensures { result ≡ measure_after kind reported.now sources names }
{
    let after = reported.after?;
    match kind {
        FaultKind::Negative => first_below_zero(&after),
        FaultKind::PastLimit => first_past_limit(&after),
        FaultKind::ColumnFalls => {
            let least = i64::from(reported.before.column);
            Some(measured(
                Quantity::Column,
                after.column,
                Some(least),
                Some(i64::from(LIMIT)),
            ))
        }
        FaultKind::SourceIndex => {
            let most = i64::from(sources) - 1;
            Some(measured(Quantity::Source, after.source, Some(0), Some(most)))
        }
        FaultKind::NameIndex => {
            let most = i64::from(names) - 1;
            Some(measured(Quantity::Name, after.name, Some(0), Some(most)))
        }
        _ => None,
    }
}

// The first of the running values that is below 0.
fn first_below_zero(sums: &RunningSums) -> Option<Measure>
    ensures { result ≡ first_below_zero sums.now }
{
    if sums.column < 0 {
        return Some(ranged(Quantity::Column, sums.column));
    }
    if sums.source < 0 {
        return Some(ranged(Quantity::Source, sums.source));
    }
    if sums.original_line < 0 {
        return Some(ranged(Quantity::OriginalLine, sums.original_line));
    }
    if sums.original_column < 0 {
        return Some(ranged(Quantity::OriginalColumn, sums.original_column));
    }
    if sums.name < 0 {
        return Some(ranged(Quantity::Name, sums.name));
    }
    None
}

// The first of them that is past 2147483647.
fn first_past_limit(sums: &RunningSums) -> Option<Measure>
    ensures { result ≡ first_past_limit sums.now }
{
    let limit = i64::from(LIMIT);
    if sums.column > limit {
        return Some(ranged(Quantity::Column, sums.column));
    }
    if sums.source > limit {
        return Some(ranged(Quantity::Source, sums.source));
    }
    if sums.original_line > limit {
        return Some(ranged(Quantity::OriginalLine, sums.original_line));
    }
    if sums.original_column > limit {
        return Some(ranged(Quantity::OriginalColumn, sums.original_column));
    }
    if sums.name > limit {
        return Some(ranged(Quantity::Name, sums.name));
    }
    None
}

// A value that may be 0 to 2147483647.
fn ranged(quantity: Quantity, value: i64) -> Measure
    ensures { result ≡ ranged quantity value }
{
    measured(quantity, value, Some(0), Some(i64::from(LIMIT)))
}

fn measured(quantity: Quantity, value: i64, least: Option<i64>, most: Option<i64>) -> Measure
    ensures { result ≡ measured quantity value least most }
{
    Measure {
        quantity,
        value,
        least,
        most,
    }
}

// A count, or the greatest number of its type in place of a greater one.
fn capped(count: u64) -> i64
    ensures { result ≡ capped count }
{
    count.min(9223372036854775807) as i64
}
