//! Each position of a map.
use crate::answer::Answer;
use crate::fault::RowFault;
use crate::indexes::is_few;
use crate::lists::answer_text;
use crate::maps::map_of;
use crate::row::Row;
use smap_command::Direction;
use smap_index::Answer as Found;
use smap_mappings::Meter;
use smap_record::MapFile;
use std::alloc::{AllocError, Global};

/// A map, an interval, a line and a column from 0: what answers at each position up to these, in both directions. Of each
/// line that stands from its first column on, where it changes, and behind that in the other direction.
pub(crate) fn answer(row: &Row<'_>, answer: &mut Answer) -> Result<(), RowFault> {
    let interval = row.number(2)?;
    let (most_line, most_column) = (row.number(3)?, row.number(4)?);
    let map = map_of(row, 1, interval)?;
    for line in 0..=most_line {
        put_line(row.alloc(), answer, &map, line, most_column, interval)?;
    }
    Ok(())
}

fn put_line(
    alloc: Global,
    answer: &mut Answer,
    map: &MapFile,
    line: u32,
    most_column: u32,
    interval: u32,
) -> Result<(), RowFault> {
    for way in [Direction::AtOrBefore, Direction::AtOrAfter] {
        let mut changes = Changes::new(alloc);
        for column in 0..=most_column {
            let mut meter = Meter::new(alloc);
            let found = match way {
                Direction::AtOrBefore => map.look_up(line, column, &mut meter),
                Direction::AtOrAfter => map.look_up_from(line, column, &mut meter),
            };
            changes.put(column, &found, is_few(&meter, map.checkpoints(), interval))?;
        }
        answer.put_text(&changes.text)?;
    }
    Ok(())
}

// The columns from which on the answer is another, each with that answer.
#[derive(Drop)]
struct Changes {
    alloc: Global,
    text: String,
    last: String,
}

impl Changes {
    fn new(alloc: Global) -> Changes {
        Changes {
            alloc,
            text: String::new(alloc),
            last: String::new(alloc),
        }
    }

    fn put(&mut self, column: u32, found: &Found, is_few: bool) -> Result<(), RowFault> {
        let found = answer_text(self.alloc, found)?;
        if found.as_str() == self.last.as_str() && is_few {
            return Ok(());
        }
        self.text
            .push_str(&change_text(self.alloc, column, &found, is_few)?)?;
        self.last = found;
        Ok(())
    }
}

fn change_text(
    alloc: Global,
    column: u32,
    found: &str,
    is_few: bool,
) -> Result<String, AllocError> {
    let steps = if is_few { "" } else { " in many steps" };
    format!(in alloc; "{column}: {found}{steps}; ")
}
