//! Mappings texts, and lists of mappings that are encoded as one.
use crate::answer::Answer;
use crate::fault::RowFault;
use crate::lists::{list_in, list_text};
use crate::row::Row;
use smap_mappings::{Mapping, Meter, PackedText, TextRefusal, encode};
use std::alloc::{AllocError, Global};

/// A text and the numbers of its sources and names: `accepted`, or why it is refused.
pub(crate) fn check(row: &Row<'_>, answer: &mut Answer) -> Result<(), RowFault> {
    let (sources, names) = (row.number(2)?, row.number(3)?);
    match PackedText::check(row.text(1)?, sources, names) {
        Ok(_) => answer.put_text("accepted"),
        Err((TextRefusal::TextTooLong, _)) => answer.put_text("TextTooLong"),
        Err((TextRefusal::Fault(fault), _)) => {
            let (kind, byte, line) = (fault.kind, fault.byte, fault.line);
            answer.put_text(&format!(in row.alloc(); "{kind:?} {byte} {line}")?)
        }
    }
}

/// The text of a row, which may name as many sources and names as indices can.
pub(crate) fn packed(row: &Row<'_>, number: usize) -> Result<PackedText, RowFault> {
    PackedText::check(row.text(number)?, 2147483648, 2147483648).map_err(|_| RowFault::Refused)
}

/// Adds how many mappings there are, how many lines that hold one, and the mappings.
pub(crate) fn put_held(
    row: &Row<'_>,
    answer: &mut Answer,
    count: u64,
    used_lines: u64,
    list: &[Mapping],
) -> Result<(), RowFault> {
    answer.put_number(count)?;
    answer.put_number(used_lines)?;
    answer.put_text(&list_text(row.alloc(), list)?)
}

/// A text: its mappings.
pub(crate) fn decode(row: &Row<'_>, answer: &mut Answer) -> Result<(), RowFault> {
    let packed = packed(row, 1)?;
    let list = packed.decode(row.alloc())?;
    put_held(row, answer, packed.segments(), packed.used_lines(), &list)
}

/// A text: its mappings, one after another, after how many the meter has counted.
pub(crate) fn next(row: &Row<'_>, answer: &mut Answer) -> Result<(), RowFault> {
    let packed = packed(row, 1)?;
    let (count, list) = walked(row.alloc(), &packed)?;
    put_held(row, answer, count, packed.used_lines(), &list)
}

fn walked(alloc: Global, packed: &PackedText) -> Result<(u64, Vec<Mapping>), AllocError> {
    let mut meter = Meter::new(alloc);
    let mut list = Vec::new(alloc);
    let mut state = packed.start();
    for _ in 0..=packed.segments() {
        if !meter.has_room() {
            break;
        }
        let Some((mapping, after)) = packed.next(&state, &mut meter) else {
            break;
        };
        list.push(mapping)?;
        state = after;
    }
    Ok((meter.segments(), list))
}

/// A list of mappings: their text, or why they are refused.
pub(crate) fn encode_list(row: &Row<'_>, answer: &mut Answer) -> Result<(), RowFault> {
    let list = list_in(row.alloc(), row.field(1)?)?;
    match encode(row.alloc(), &list) {
        Ok(text) => answer.put_text(&text),
        Err(refusal) => answer.put_debug(&refusal),
    }
}
