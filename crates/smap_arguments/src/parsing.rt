//! The arguments of the command line, read into a command.
ghost use Rattle.std.specs.Prelude.{IfErr, IfOk};
ghost use Rattle.clap.specs.Words.{kind_of};
ghost use Rattle.smap_command.specs.Runnable.{IsRunnable};
ghost use Rattle.smap_arguments.specs.Arguments.{ArgumentsAskFor, texts};
ghost use Rattle.smap_arguments.specs.Numbered.{with_numbers};
ghost use Rattle.smap_arguments.specs.Refusals.{IsRead, IsRefusalOf, IsUsageOf};
ghost use Rattle.smap_arguments.specs.Spread.{read_arguments};

use crate::commands::command_in;
use crate::generated::{asks_generated, is_lookup, line_of};
use crate::numbered::with_numbers;
use crate::spread::spread;
use crate::usage::Usage;
use clap::Error;
use clap::error::ErrorKind;
use smap_command::Command;
use std::alloc::Global;

/// The command that the arguments ask for, where the first argument is the program's name, a position of `lookup` may be one
/// word, and the number of `--require-mapped` may be left out. An `Err` has the text for the user, as clap writes it.
pub fn parse(alloc: Global, arguments: Vec<String>) -> Result<Command, Usage>
    ensures asked { IfOk result
        (ArgumentsAskFor (read_arguments (with_numbers (texts arguments.items)))) }
    ensures can_run { IfOk result IsRunnable }
    ensures refused { IfErr result
        (IsRefusalOf (read_arguments (with_numbers (texts arguments.items)))) }
{
    let words = with_numbers(alloc, arguments)?;
    parse_words(alloc, &words)
}

// The command that the words ask for, with the number of each `--require-mapped`.
fn parse_words(alloc: Global, arguments: &[String]) -> Result<Command, Usage>
    ensures asked { IfOk result (ArgumentsAskFor (read_arguments (texts arguments.now))) }
    ensures can_run { IfOk result IsRunnable }
    ensures refused { IfErr result (IsRefusalOf (read_arguments (texts arguments.now))) }
{
    match read_arguments(alloc, arguments) {
        Ok(read) => read,
        Err(error) => Err(usage_of(alloc, &error)),
    }
}

// What the arguments ask for, those of `lookup` with a position as two words where clap finds a fault in them as they are.
fn read_arguments(alloc: Global, arguments: &[String]) -> Result<Result<Command, Usage>, Error>
    ensures { IsRead (read_arguments (texts arguments.now)) result }
{
    let error = match read_words(alloc, arguments) {
        Ok(read) => return Ok(read),
        Err(error) => error,
    };
    if !is_lookup(arguments) {
        return Err(error);
    }
    match spread(alloc, arguments) {
        Ok(words) => read_words(alloc, &words),
        Err(_) => Ok(Err(Usage::Memory)),
    }
}

// What the words ask for as they are, or why that is refused; or clap's error, where it finds a fault in them.
fn read_words(alloc: Global, words: &[String]) -> Result<Result<Command, Usage>, Error>
    ensures { IsRead (texts words.now) result }
{
    let Ok(line) = line_of(alloc, words) else {
        return Ok(Err(Usage::Memory));
    };
    match line.try_get_matches_from(words) {
        Ok(matches) => Ok(command_in(alloc, &matches, asks_generated(words))),
        Err(error) => match error.kind() {
            ErrorKind::OutOfMemory => Ok(Err(Usage::Memory)),
            _ => Err(error),
        },
    }
}

// What a fault that clap finds comes to.
fn usage_of(alloc: Global, error: &Error) -> Usage
    ensures { IsUsageOf (kind_of error.now) result }
{
    let kind = error.kind();
    let is_request = kind == ErrorKind::DisplayHelp || kind == ErrorKind::DisplayVersion;
    match format!(in alloc; "{error}") {
        Ok(text) if is_request => Usage::Help(text),
        Ok(text) => Usage::Words(text),
        Err(_) => Usage::Memory,
    }
}
