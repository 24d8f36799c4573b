//! What arguments come to, as a text.
use crate::commands::command_text;
use smap_arguments::{Usage, parse};
use smap_call_rows::{Answer, Row, RowFault};
use smap_command::Command;

/// The words of a command line: the command that they give, or the help that they ask for.
pub fn answer(row: &Row<'_>, answer: &mut Answer) -> Result<(), RowFault> {
    match parse(row.alloc(), row.words(1)?) {
        Ok(command) => put_command(row, answer, &command),
        Err(usage) => put_usage(answer, usage),
    }
}

fn put_command(row: &Row<'_>, answer: &mut Answer, command: &Command) -> Result<(), RowFault> {
    answer.put_text(&command_text(row.alloc(), command)?)
}

fn put_usage(answer: &mut Answer, usage: Usage) -> Result<(), RowFault> {
    let (kind, text) = match usage {
        Usage::Help(text) => ("help", text),
        Usage::Words(text) => ("mistake", text),
        Usage::Memory => return Err(RowFault::Memory),
    };
    answer.put_text(kind)?;
    answer.put_text(&text)
}

/// A number of lines, and the words of a command line that is none: so many lines of what is said of it, and whether that
/// ends in one LF.
pub fn mistake_lines(row: &Row<'_>, answer: &mut Answer) -> Result<(), RowFault> {
    let count = row.number(1)? as usize;
    let parsed = parse(row.alloc(), row.words(2)?);
    match &parsed {
        Err(Usage::Words(text)) => put_lines(answer, text, count),
        _ => answer.put_text("no mistake"),
    }
}

fn put_lines(answer: &mut Answer, text: &str, count: usize) -> Result<(), RowFault> {
    for line in text.lines().take(count) {
        answer.put_text(line)?;
    }
    let is_ended = text.ends_with("\n") && !text.ends_with("\n\n");
    answer.put_text(if is_ended { "ended" } else { "not ended" })
}
