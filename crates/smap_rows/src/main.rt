//! Answers rows of text: it asks calls of smap what they say, and writes a line for each line of standard input.
//!
//! A row is a call and its fields, with a TAB between two, and its answer has as many fields as the call gives, so that line
//! N of standard output answers line N of standard input. `tests/vectors/README.md` has the calls. A line that begins with
//! `#` is written as it is. A field of a row that is `%K` stands for 1, 2, 3, 64 and 4096 in turn; what comes of each is
//! written once where it is the same for all, and else one behind another. A line that is no row ends the run, with
//! status 1.
#![tactic(auto)]

mod commands;
mod files;
mod parsed;
mod runs;
mod usage;

use smap_call_rows::{Answer, EACH, Row, RowFault, answer_call, joined};
use smap_io::{ByteSink, FromStd, read_all, write_all};
use std::process::ExitCode;

// How many bytes all rows have at most.
const MOST_ROWS_BYTES: usize = 67_108_864;

const INTERVALS: [u32; 5] = [1, 2, 3, 64, 4_096];

fn main(rt: HostRuntime) -> ExitCode {
    let mut output = FromStd::new(rt.stdout());
    match answer_rows(&rt, &mut output) {
        Ok(()) => ExitCode::SUCCESS,
        Err(_) => ExitCode::FAILURE,
    }
}

// Answers each row of standard input. The first that is none is reported where its answer would stand.
fn answer_rows<W: ByteSink>(rt: &HostRuntime, output: &mut W) -> Result<(), RowFault> {
    let bytes = read_all(rt.alloc(), &mut FromStd::new(rt.stdin()), MOST_ROWS_BYTES)?;
    let Ok(rows) = str::from_utf8(&bytes) else {
        return Err(RowFault::NotText);
    };
    for (number, row) in rows.lines().enumerate() {
        match answered(rt, row) {
            Ok(line) => put_line(output, line)?,
            Err(fault) => return put_refusal(rt, output, number, fault),
        }
    }
    Ok(())
}

fn put_line<W: ByteSink>(output: &mut W, mut line: Vec<u8>) -> Result<(), RowFault> {
    line.push(b'\n')?;
    Ok(write_all(output, &line)?)
}

// Says that the row of this number, from 0, is none, and why, and gives that back.
fn put_refusal<W: ByteSink>(
    rt: &HostRuntime,
    output: &mut W,
    number: usize,
    fault: RowFault,
) -> Result<(), RowFault> {
    let line = format!(in rt.alloc(); "refused: row {}: {fault:?}\n", number.saturating_add(1))?;
    write_all(output, line.as_bytes())?;
    Err(fault)
}

// The answer to one row, or the answers at the intervals.
fn answered(rt: &HostRuntime, line: &str) -> Result<Vec<u8>, RowFault> {
    if line.starts_with('#') {
        return Ok(line.as_bytes().to_vec(rt.alloc())?);
    }
    if !line.contains(EACH) {
        return answered_at(rt, line, 64);
    }
    let mut lines = Vec::new(rt.alloc());
    let mut are_same = true;
    for interval in INTERVALS {
        let line = answered_at(rt, line, interval)?;
        are_same = are_same && (lines.is_empty() || lines.last() == Some(&line));
        lines.push(line)?;
    }
    if are_same {
        lines.truncate(1);
    }
    Ok(joined(rt.alloc(), &lines)?)
}

fn answered_at(rt: &HostRuntime, line: &str, interval: u32) -> Result<Vec<u8>, RowFault> {
    let row = Row::new(rt, line, interval)?;
    let mut answer = Answer::new(rt.alloc());
    answer_row(&row, &mut answer)?;
    Ok(answer.into_line())
}

// Asks the call that a row names. Those of the program's arguments and commands are here.
fn answer_row(row: &Row<'_>, answer: &mut Answer) -> Result<(), RowFault> {
    match row.field(0)? {
        "parse" => parsed::answer(row, answer),
        "mistake" => parsed::mistake_lines(row, answer),
        "run" => runs::over_sound(row, answer),
        "run_over" => runs::over(row, answer),
        "run_terminal" => runs::over_terminal(row, answer),
        _ => answer_call(row, answer),
    }
}
