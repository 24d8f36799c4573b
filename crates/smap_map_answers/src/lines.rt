//! The lines that are printed, each with its LF.
ghost use Rattle.std.specs.Prelude.{◌≡◌, ◌+◌, string_bytes, IfOk};
ghost use Rattle.smap_map_answers.specs.Lines.{found_line, refused_line};

use smap_mappings::Fault;
use smap_printing::from_one;
use smap_verdicts::fault_text;
use std::alloc::{AllocError, Global};

/// Standard error: a line of standard input is no position (P1); its number, from 1, and an LF follow. This and the next are
/// made of their codes, and stand here whole since they are printed without taking memory.
pub const BAD_POSITION_REFUSED: &str = "refused: P1 BadPosition ";

/// Standard error: a line of standard input is longer than a position is (P2).
pub const LONG_POSITION_REFUSED: &str = "refused: P2 LongLine\n";

/// Standard error: the map does not hold the content of a source.
pub const NO_CONTENT: &str = "refused: no content\n";

/// Standard output: where a place stands in its source. The line and the column count from 0 here,
/// and from 1 in the text.
pub fn found_line(
    alloc: Global,
    source: u32,
    line: u32,
    column: u32,
    name: Option<u32>,
) -> Result<String, AllocError>
    ensures { IfOk result (λ text. string_bytes text ≡ found_line source line column name) }
{
    let (line, column) = place_from_one(line, column);
    match name {
        Some(name) => {
            format!(in alloc; "source {source} line {line} column {column} name {name}\n")
        }
        None => format!(in alloc; "source {source} line {line} column {column}\n"),
    }
}

/// Standard error: a mappings text that is refused, with the text of its first fault.
pub fn refused_line(alloc: Global, fault: Fault) -> Result<String, AllocError>
    ensures { IfOk result (λ text. string_bytes text ≡ refused_line fault) }
{
    let fault = fault_text(alloc, fault)?;
    format!(in alloc; "refused: {fault}\n")
}

// A line and a column that count from 0, counted from 1.
fn place_from_one(line: u32, column: u32) -> (u64, u64)
    ensures line { result.0 ≡ line + 1 }
    ensures column { result.1 ≡ column + 1 }
{
    (from_one(line), from_one(column))
}
