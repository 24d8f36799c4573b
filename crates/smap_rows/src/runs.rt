//! Runs of the program.
ghost use Rattle.std.specs.Prelude.{◌≡◌, false};
ghost use Rattle.smap_command.specs.Runnable.{IsRunnable};

use crate::files::RowFiles;
use crate::usage::outcome_of;
use smap_answers::{report, run_reading};
use smap_arguments::parse;
use smap_call_rows::{Answer, Row, RowFault, sink, sound_sink, sound_source, source};
use smap_command::Command;
use smap_io::{MemorySink, MemorySource};
use std::alloc::Global;

/// A command line, standard input, and files: the status, and what stands on standard output and on standard error.
pub fn over_sound(row: &Row<'_>, answer: &mut Answer) -> Result<(), RowFault> {
    let input = sound_source(row, 2)?;
    let (mut output, mut errors) = (sound_sink(row)?, sound_sink(row)?);
    run(row, answer, 1, input, &mut output, &mut errors, false)
}

/// The same where standard error is a terminal, which the command is told.
pub fn over_terminal(row: &Row<'_>, answer: &mut Answer) -> Result<(), RowFault> {
    let input = sound_source(row, 2)?;
    let (mut output, mut errors) = (sound_sink(row)?, sound_sink(row)?);
    run(row, answer, 1, input, &mut output, &mut errors, true)
}

/// The same behind how standard input, standard output and standard error move their bytes.
pub fn over(row: &Row<'_>, answer: &mut Answer) -> Result<(), RowFault> {
    let input = source(row, 1, 5)?;
    let (mut output, mut errors) = (sink(row, 2)?, sink(row, 3)?);
    run(row, answer, 4, input, &mut output, &mut errors, false)
}

// The command line stands in this field, standard input in the next, and the files behind that.
fn run(
    row: &Row<'_>,
    answer: &mut Answer,
    first: usize,
    input: MemorySource,
    output: &mut MemorySink,
    errors: &mut MemorySink,
    is_terminal: bool,
) -> Result<(), RowFault>
    requires input_works { input.failed ≡ false }
    requires output_works { output.old.failed ≡ false }
    requires errors_work { errors.old.failed ≡ false }
{
    let status = status_of(row, first, input, output, errors, is_terminal)?;
    answer.put_number(u64::from(status))?;
    answer.put(output.bytes())?;
    answer.put(errors.bytes())
}

fn status_of(
    row: &Row<'_>,
    first: usize,
    input: MemorySource,
    output: &mut MemorySink,
    errors: &mut MemorySink,
    is_terminal: bool,
) -> Result<u8, RowFault>
    requires input_works { input.failed ≡ false }
    requires output_works { output.old.failed ≡ false }
    requires errors_work { errors.old.failed ≡ false }
{
    let files = RowFiles::new(row, first.saturating_add(2))?;
    match parse(row.alloc(), row.words(first)?) {
        Ok(command) => Ok(status_over(
            row.alloc(),
            &files,
            &command,
            is_terminal,
            input,
            output,
            errors,
        )),
        Err(usage) => Ok(report(&outcome_of(usage), output, errors, &mut None)),
    }
}

fn status_over(
    alloc: Global,
    files: &RowFiles<'_>,
    command: &Command,
    is_terminal: bool,
    input: MemorySource,
    output: &mut MemorySink,
    errors: &mut MemorySink,
) -> u8
    requires command { IsRunnable command.now }
    requires input_works { input.failed ≡ false }
    requires output_works { output.old.failed ≡ false }
    requires errors_work { errors.old.failed ≡ false }
{
    let (status, _) = run_reading(
        alloc,
        files,
        command,
        is_terminal,
        input,
        output,
        errors,
        &mut None,
    );
    status
}
