//! The rows that the program was specified by: command lines over files in memory, and all that each leaves.
mod check;
mod compose;
mod lookup;
mod raw;
mod rewrite;
mod show;

use crate::runs::left;
use crate::same::assert_same;
use check::CHECK;
use compose::COMPOSE;
use lookup::LOOKUP;
use raw::RAW;
use rewrite::REWRITE;
use show::SHOW;
use std::alloc::{AllocError, Global};
use std::process::Abort;
use std::test::Fail;

/// A command line, its files, standard input, and what is left.
pub type Row = (
    &'static str,
    &'static [(&'static str, &'static str)],
    &'static [u8],
    &'static str,
);

#[test]
fn the_rows_are_answered(rt: HostRuntime) -> Result<(), Fail> {
    for rows in [RAW, CHECK, LOOKUP, SHOW, REWRITE, COMPOSE] {
        for row in rows {
            assert_answered(&rt, rt.alloc(), row)?;
        }
    }
    Ok(())
}

fn assert_answered(rt: &impl Abort, alloc: Global, row: &Row) -> Result<(), AllocError> {
    let (line, files, input, wanted) = row;
    let words: Vec<&str> = line.split(' ').collect(alloc)?;
    let left = left(alloc, files, &words, input)?;
    assert_same(rt, line, &left, wanted);
    Ok(())
}
