//! Indexes of one text.
use crate::answer::Answer;
use crate::fault::RowFault;
use crate::lists::{answer_text, push_word};
use crate::row::{Row, number_in};
use crate::texts::{packed, put_held};
use smap_command::Direction;
use smap_index::{Index, Part};
use smap_mappings::Meter;
use std::alloc::{AllocError, Global};

// The index of a row's text, with checkpoints at its interval.
fn index_of(row: &Row<'_>) -> Result<Index, RowFault> {
    let mut parts = Vec::new(row.alloc());
    parts.push(Part {
        line: 0,
        column: 0,
        text: packed(row, 1)?,
        source_base: 0,
        name_base: 0,
    })?;
    Index::build(row.alloc(), parts, row.number(2)?).map_err(|_| RowFault::Refused)
}

/// A text and an interval: the mappings of its index, and how many checkpoints that has.
pub(crate) fn index(row: &Row<'_>, answer: &mut Answer) -> Result<(), RowFault> {
    let index = index_of(row)?;
    let list = index.decode_all(row.alloc())?;
    put_held(row, answer, index.segments(), index.used_lines(), &list)?;
    answer.put_number(index.checkpoints())
}

/// A text, an interval, and positions: a line and a column from 0 with a comma between them, and a blank between two. What
/// answers at each, and whether no look-up took more steps than it may.
pub(crate) fn look_up(row: &Row<'_>, answer: &mut Answer, way: Direction) -> Result<(), RowFault> {
    let index = index_of(row)?;
    let (text, are_few) = found_at_each(row, &index, way)?;
    answer.put_text(&text)?;
    answer.put_text(if are_few { "few" } else { "many" })
}

// What answers at each of the positions, and whether no look-up took more steps than it may.
fn found_at_each(row: &Row<'_>, index: &Index, way: Direction) -> Result<(String, bool), RowFault> {
    let (interval, positions) = (row.number(2)?, row.field(3)?);
    let mut text = String::new(row.alloc());
    let mut are_few = true;
    for position in positions.split(' ') {
        let (found, is_few) = found_text(
            row.alloc(),
            index,
            position_in(position)?,
            way,
            interval,
        )?;
        push_word(&mut text, &found)?;
        are_few = are_few && is_few;
    }
    Ok((text, are_few))
}

// What answers at a position, and whether the look-up took no more steps than it may.
fn found_text(
    alloc: Global,
    index: &Index,
    position: (u32, u32),
    way: Direction,
    interval: u32,
) -> Result<(String, bool), AllocError> {
    let (line, column) = position;
    let mut meter = Meter::new(alloc);
    let found = match way {
        Direction::AtOrBefore => index.look_up(line, column, &mut meter),
        Direction::AtOrAfter => index.look_up_from(line, column, &mut meter),
    };
    let is_few = is_few(&meter, index.checkpoints(), interval);
    Ok((answer_text(alloc, &found)?, is_few))
}

fn position_in(text: &str) -> Result<(u32, u32), RowFault> {
    match text.split_once(',') {
        Some((line, column)) => Ok((number_in(line)?, number_in(column)?)),
        None => Err(RowFault::BadNumber),
    }
}

/// Whether a look-up compared at most as many checkpoints as their number has binary digits, and decoded fewer segments than
/// the interval.
pub(crate) fn is_few(meter: &Meter, checkpoints: u64, interval: u32) -> bool {
    let digits = u64::BITS.saturating_sub(checkpoints.leading_zeros());
    meter.comparisons() <= u64::from(digits) && meter.segments() < u64::from(interval)
}
