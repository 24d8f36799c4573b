//! The place of a UTF-16 column in a line.
ghost use Rattle.smap_text.specs.Place.{IsPlace};

use crate::code_units::{bytes_by_first, units_by_first};

/// Where a column stands in a line. Bytes count from 0.
#[derive(Clone, Copy, Debug)]
pub enum Place {
    /// At this byte, where a character begins or the line ends.
    At(usize),
    /// Between the two units of the character that begins at this byte.
    Inside(usize),
    /// After the line's end: the line has so many units, which are fewer.
    Past(u64),
}

/// The place of a column, which counts UTF-16 code units from 0.
pub fn unit_place(line: &str, column: u32) -> Place
    ensures { IsPlace line.now column result }
{
    let bytes = line.as_bytes();
    let column = u64::from(column);
    let mut units: u64 = 0;
    let mut at = 0;
    while at < bytes.len() {
        if units == column {
            return Place::At(at);
        }
        units += units_by_first(bytes[at]);
        if units > column {
            return Place::Inside(at);
        }
        at += bytes_by_first(bytes[at]);
    }
    if units == column {
        Place::At(at)
    } else {
        Place::Past(units)
    }
}
