//! Numbers of the mappings text.
use crate::answer::Answer;
use crate::fault::RowFault;
use crate::row::Row;
use smap_mappings::{read_vlq, write_vlq};

/// Bytes and a place in them: the number that is read there and the place after it, or why there is none.
pub(crate) fn read(row: &Row<'_>, answer: &mut Answer) -> Result<(), RowFault> {
    let (bytes, place) = (row.bytes(1)?, row.number(2)? as usize);
    if place > bytes.len() {
        return Err(RowFault::BadNumber);
    }
    match read_vlq(&bytes, place) {
        Ok((number, end)) => answer.put_text(&format!(in row.alloc(); "{number} {end}")?),
        Err(fault) => answer.put_debug(&fault),
    }
}

/// Bytes and a number: the bytes with the number's spelling behind them.
pub(crate) fn write(row: &Row<'_>, answer: &mut Answer) -> Result<(), RowFault> {
    let mut bytes = row.bytes(1)?;
    let Ok(number) = row.field(2)?.parse::<i32>() else {
        return Err(RowFault::BadNumber);
    };
    if number == i32::MIN {
        return Err(RowFault::BadNumber);
    }
    write_vlq(number, &mut bytes)?;
    answer.put(&bytes)
}
