//! Lines of sources, UTF-16 places in them, and excerpts.
use crate::answer::Answer;
use crate::fault::RowFault;
use crate::row::Row;
use smap_text::{excerpt, line_at, unit_place, units};

/// A content and a line from 0: the line, or `none` and a second field.
pub(crate) fn line(row: &Row<'_>, answer: &mut Answer) -> Result<(), RowFault> {
    match line_at(&row.text(1)?, row.number(2)?) {
        Some(line) => answer.put_text(line),
        None => put_none(answer),
    }
}

// A text alone may be any, so what is none has one field more.
fn put_none(answer: &mut Answer) -> Result<(), RowFault> {
    answer.put_text("none")?;
    answer.put_text("")
}

/// A text: how many UTF-16 units it has.
pub(crate) fn count(row: &Row<'_>, answer: &mut Answer) -> Result<(), RowFault> {
    answer.put_number(units(&row.text(1)?))
}

/// A line and a column from 0: where the column stands.
pub(crate) fn place(row: &Row<'_>, answer: &mut Answer) -> Result<(), RowFault> {
    let place = unit_place(&row.text(1)?, row.number(2)?);
    answer.put_debug(&place)
}

/// A content, a line and a column from 0: the excerpt, or `none` and a second field.
pub(crate) fn shown(row: &Row<'_>, answer: &mut Answer) -> Result<(), RowFault> {
    match excerpt(row.alloc(), &row.text(1)?, row.number(2)?, row.number(3)?)? {
        Some(shown) => answer.put_text(&shown),
        None => put_none(answer),
    }
}
