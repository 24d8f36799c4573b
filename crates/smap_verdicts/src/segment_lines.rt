//! What is said of a faulty segment, in sentences.
ghost use Rattle.std.specs.Prelude.{◌≡◌, ◌++◌, take, string_bytes, IfOk, flat_map};
ghost use Rattle.smap_verdicts.specs.Segment.{column_text, more_text, next_number, numbers_text, numbers_where};
ghost use Rattle.smap_verdicts.specs.Segment.{of_its_own, of_section, place_text, segment_text, unmeasured, wrong_text};

use crate::measure_text::measure_text;
use smap_explain::{Measure, SegmentFacts};
use smap_record::FaultKind;
use smap_text::shown;
use std::alloc::{AllocError, Global};

/// The text of a segment, where it stands, what it spells and what is wrong with it, in lines that each end with an LF.
#[tactic(auto, unfolding(crate::specs::Segment::segment_text))]
pub fn segment_text(alloc: Global, facts: &SegmentFacts) -> Result<String, AllocError>
    ensures { IfOk result (λ text. string_bytes text ≡ segment_text facts.now) }
{
    let place = place_text(alloc, facts)?;
    let numbers = numbers_where(alloc, &facts.numbers)?;
    let wrong = wrong_text(alloc, facts.fault.kind, facts.measure)?;
    let more = more_text(alloc, facts.more)?;
    format!(in alloc; "{place}{numbers}{more}\n{wrong}")
}

// The segment and where it stands.
#[tactic(auto, unfolding(crate::specs::Segment::place_text))]
fn place_text(alloc: Global, facts: &SegmentFacts) -> Result<String, AllocError>
    ensures { IfOk result (λ text. string_bytes text ≡ place_text facts.now) }
{
    let segment = shown(alloc, &facts.text)?;
    let line = u64::from(facts.fault.line) + 1;
    let column = column_text(alloc, facts.column)?;
    let (section, own) = (of_section(alloc, facts.section)?, of_its_own(facts.section));
    format!(in alloc; "  segment \"{segment}\"{section} at line {line}{column}{own}")
}

// The section, where it is not the first.
#[tactic(auto, unfolding(crate::specs::Segment::of_section))]
fn of_section(alloc: Global, section: u64) -> Result<String, AllocError>
    ensures { IfOk result (λ text. string_bytes text ≡ of_section section) }
{
    match section {
        0 => Ok(String::new(alloc)),
        section => format!(in alloc; " of section {section}"),
    }
}

// Then lines and columns are those of the section.
fn of_its_own(section: u64) -> &'static str
    ensures { result.now ≡ of_its_own section }
{
    if section == 0 { "" } else { " of that section" }
}

// The column, where it is known.
#[tactic(auto, unfolding(crate::specs::Segment::column_text))]
fn column_text(alloc: Global, column: Option<u64>) -> Result<String, AllocError>
    ensures { IfOk result (λ text. string_bytes text ≡ column_text column) }
{
    match column {
        Some(column) => format!(in alloc; ", column {column}"),
        None => Ok(String::new(alloc)),
    }
}

// The numbers, where each is spelled right.
fn numbers_where(alloc: Global, numbers: &Option<Vec<i32>>) -> Result<String, AllocError>
    ensures { IfOk result (λ text. string_bytes text ≡ numbers_where numbers.now) }
{
    match numbers {
        Some(numbers) => numbers_text(alloc, numbers),
        None => Ok(String::new(alloc)),
    }
}

#[tactic(auto, unfolding(crate::specs::Segment::numbers_text))]
fn numbers_text(alloc: Global, numbers: &[i32]) -> Result<String, AllocError>
    ensures { IfOk result (λ text. string_bytes text ≡ numbers_text numbers.now) }
{
    match numbers.split_first() {
        Some((first, others)) => {
            let others = next_numbers(alloc, others)?;
            format!(in alloc; ", numbers {first}{others}")
        }
        None => Ok(String::new(alloc)),
    }
}

// How many more there are.
#[tactic(auto, unfolding(crate::specs::Segment::more_text))]
fn more_text(alloc: Global, more: u64) -> Result<String, AllocError>
    ensures { IfOk result (λ text. string_bytes text ≡ more_text more) }
{
    match more {
        0 => Ok(String::new(alloc)),
        more => format!(in alloc; " and {more} more"),
    }
}

// The numbers after the first.
fn next_numbers(alloc: Global, numbers: &[i32]) -> Result<String, AllocError>
    ensures { IfOk result (λ text. string_bytes text ≡ flat_map next_number numbers.now) }
{
    let mut text = String::new(alloc);
    for number in numbers {
        let next = format!(in alloc; ", {number}")?;
        text.push_str(&next)?;
    }
    Ok(text)
}

// What is wrong with the segment, in a line.
#[tactic(auto, unfolding(crate::specs::Segment::wrong_text))]
fn wrong_text(
    alloc: Global,
    kind: FaultKind,
    measure: Option<Measure>,
) -> Result<String, AllocError>
    ensures { IfOk result (λ text. string_bytes text ≡ wrong_text kind measure) }
{
    match measure {
        Some(measure) => {
            let said = measure_text(alloc, kind, measure)?;
            format!(in alloc; "  {said}\n")
        }
        None => {
            let said = unmeasured(kind);
            format!(in alloc; "{said}")
        }
    }
}

// A fault that is no value.
fn unmeasured(kind: FaultKind) -> &'static str
    ensures { result.now ≡ unmeasured kind }
{
    match kind {
        FaultKind::Unended => "  the last digit says that another follows\n",
        FaultKind::NegativeZero => "  a number is a negative zero\n",
        FaultKind::BadDigit
        | FaultKind::TooLong
        | FaultKind::TooLarge
        | FaultKind::FieldCount
        | FaultKind::Negative
        | FaultKind::PastLimit
        | FaultKind::ColumnFalls
        | FaultKind::SourceIndex
        | FaultKind::NameIndex => "",
    }
}
