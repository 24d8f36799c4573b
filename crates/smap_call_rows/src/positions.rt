//! Lines that are positions.
use crate::answer::Answer;
use crate::fault::RowFault;
use crate::row::Row;
use smap_printing::read_position;

/// A line: its line and column, where it is a position; or `none`.
pub(crate) fn answer(row: &Row<'_>, answer: &mut Answer) -> Result<(), RowFault> {
    match read_position(&row.bytes(1)?) {
        Some(position) => {
            let (line, column) = (position.line, position.column);
            answer.put_text(&format!(in row.alloc(); "{line} {column}")?)
        }
        None => answer.put_text("none"),
    }
}
