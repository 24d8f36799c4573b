//! Where what a look-up answers ends.
ghost use Rattle.std.specs.Prelude.{◌≡◌, IfSome, IsSome, MatchOption};
ghost use Rattle.smap_c.specs.Look.{column_of_answer, next_column};

use crate::handles::{Holder, MapHandle};
use crate::status::{DONE, REFUSED};
use smap_record::{Answer, Meter, ReadyMap};
use std::alloc::Global;

/// Gives the column of the first mapping on the line that stands behind this column, all from 0 and in UTF-16 code units: up
/// to there a look-up answers the same. Refused where there is none.
#[unsafe(no_mangle)]
pub extern "C" fn smap_next_column(
    alloc: Global,
    map: &mut MapHandle,
    line: u32,
    column: u32,
    next: &mut u32,
) -> u32
    requires { IsSome map.old.held }
    ensures next { IfSome map.old.held (λ held. MatchOption (next_column held.stated line column)
        ((result ≡ 1) × (next.new ≡ next.old)) (λ found. (result ≡ 0) × (next.new ≡ found))) }
    ensures stays { map.new.held ≡ map.old.held }
{
    match next_column(alloc, map.lend().ready(), line, column) {
        Some(found) => {
            *next = found;
            DONE
        }
        None => REFUSED,
    }
}

// The column of the first mapping on the line that stands behind this column.
fn next_column(alloc: Global, file: &ReadyMap, line: u32, column: u32) -> Option<u32>
    ensures { result ≡ next_column file.now.stated line column }
{
    if column < u32::MAX {
        let mut meter = Meter::new(alloc);
        column_of_answer(file.look_up_from(line, column + 1, &mut meter))
    } else {
        None
    }
}

// The generated column of the mapping that answers, if one does.
fn column_of_answer(answer: Answer) -> Option<u32>
    ensures { result ≡ column_of_answer answer }
{
    match answer {
        Answer::Nothing => None,
        Answer::Unmapped { column } => Some(column),
        Answer::Found { column, .. } => Some(column),
    }
}
