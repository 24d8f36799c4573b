//! Each original place of some lines of a source.
use crate::answer::Answer;
use crate::fault::RowFault;
use crate::lists::push_word;
use crate::maps::map_of;
use crate::row::Row;
use smap_mappings::Meter;
use smap_originals::{Asked, OriginalDirection, Originals, generated_for, generated_next};
use smap_record::{MapFile, Mapping};
use std::alloc::{AllocError, Global};

/// A map, a source, a first line and how many, and a column, from 0: which generated places come from each original place of
/// these lines up to the column, where they change, in both directions, by the index and by a walk, which say the same; and
/// behind both those of the whole line.
pub(crate) fn answer(row: &Row<'_>, answer: &mut Answer) -> Result<(), RowFault> {
    let map = map_of(row, 1, 64)?;
    let originals = Originals::new(row.alloc(), &map)?;
    put_lines(row, answer, &map, &originals)
}

fn put_lines(
    row: &Row<'_>,
    answer: &mut Answer,
    map: &MapFile,
    originals: &Originals,
) -> Result<(), RowFault> {
    let (source, first) = (row.number(2)?, row.number(3)?);
    let (lines, most_column) = (row.number(4)?, row.number(5)?);
    for line in first..first.saturating_add(lines) {
        for direction in [OriginalDirection::AtOrBefore, OriginalDirection::AtOrAfter] {
            let place = Asked {
                source,
                line,
                column: 0,
                direction,
            };
            answer.put_text(&changes(row.alloc(), map, originals, place, most_column)?)?;
        }
        let all = generated_for(row.alloc(), map, source, line)?;
        answer.put_text(&places_text(row.alloc(), &all)?)?;
    }
    Ok(())
}

// The columns from which on the places are others, each with these.
fn changes(
    alloc: Global,
    map: &MapFile,
    originals: &Originals,
    place: Asked,
    most_column: u32,
) -> Result<String, AllocError> {
    let mut text = String::new(alloc);
    let mut last = String::new(alloc);
    for column in 0..=most_column {
        let asked = Asked { column, ..place };
        let found = found_text(alloc, map, originals, &asked)?;
        if found.as_str() != last.as_str() {
            text.push_str(&format!(in alloc; "{column}: {found}; ")?)?;
        }
        last = found;
    }
    Ok(text)
}

// The places by the index, and behind them those by the walk where these are others.
fn found_text(
    alloc: Global,
    map: &MapFile,
    originals: &Originals,
    asked: &Asked,
) -> Result<String, AllocError> {
    let indexed = indexed_text(alloc, originals, asked)?;
    let walked = places_text(alloc, &generated_next(alloc, map, asked)?)?;
    if walked.as_str() != indexed.as_str() {
        return format!(in alloc; "{indexed} by the index and {walked} by the walk");
    }
    if indexed.is_empty() {
        return String::from_str(alloc, "none");
    }
    Ok(indexed)
}

fn indexed_text(alloc: Global, originals: &Originals, asked: &Asked) -> Result<String, AllocError> {
    let mut text = String::new(alloc);
    for place in originals.generated(asked, &mut Meter::new(alloc)) {
        push_place(alloc, &mut text, place.line, place.column)?;
    }
    Ok(text)
}

fn places_text(alloc: Global, mappings: &[Mapping]) -> Result<String, AllocError> {
    let mut text = String::new(alloc);
    for mapping in mappings {
        push_place(alloc, &mut text, mapping.line, mapping.column)?;
    }
    Ok(text)
}

// Puts a place behind others, with a blank between two.
fn push_place(alloc: Global, text: &mut String, line: u32, column: u32) -> Result<(), AllocError> {
    push_word(text, &format!(in alloc; "{line}:{column}")?)
}
