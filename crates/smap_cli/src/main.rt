//! `smap` answers questions about source maps from the command line. The words are parsed by smap_arguments, and the command
//! is run by smap_answers. Where a refusal goes to a terminal, a last line says which word of `explain` says more; where
//! `rewrite` has nothing to say but passed places over, which option takes them; and after a mistake in the words of a
//! command that reads standard input, that it does.
#![tactic(auto)]

mod hint;
mod usage;

ghost use Rattle.std.specs.Prelude.{IfOk};
ghost use Rattle.smap_answers.specs.Run.{IsRunnable};

use hint::{hint_line, input_line, reads_input};
use smap_answers::{Failure, Reply, print_error, report, run_reading};
use smap_arguments::parse;
use smap_command::Command;
use smap_io::FromStd;
use std::io::{self, IsTerminal};
use std::process::ExitCode;
use usage::outcome_of;

fn main(rt: HostRuntime) -> ExitCode {
    let mut output = FromStd::new(rt.stdout());
    let errors = rt.stderr();
    let is_terminal = errors.is_terminal();
    let mut errors = FromStd::new(errors);
    let mut first = None;
    let status = match command_of(&rt) {
        Ok(command) => {
            let (status, _) = run_reading(
                rt.alloc(),
                &rt,
                &command,
                is_terminal,
                FromStd::new(rt.stdin()),
                &mut output,
                &mut errors,
                &mut first,
            );
            status
        }
        Err(outcome) => {
            let status = report(&outcome, &mut output, &mut errors, &mut first);
            if is_terminal && let Some(hint) = input_hint(&rt, &outcome) {
                print_error(&mut errors, hint.as_bytes());
            }
            status
        }
    };
    if let Some(code) = first
        && is_terminal
        && let Ok(hint) = hint_line(rt.alloc(), code)
    {
        print_error(&mut errors, hint.as_bytes());
    }
    ExitCode::from(status)
}

// The line after a mistake in the words of a command that reads standard input: often the text is among them.
fn input_hint(rt: &HostRuntime, outcome: &Result<Reply, Failure>) -> Option<String> {
    let Err(Failure::Misuse(_)) = outcome else {
        return None;
    };
    let Ok(arguments) = arguments_of(rt) else {
        return None;
    };
    let name = arguments.get(1)?;
    if !reads_input(name) {
        return None;
    }
    input_line(rt.alloc(), name).ok()
}

// The command that the command line asks for.
fn command_of(rt: &HostRuntime) -> Result<Command, Result<Reply, Failure>>
    ensures { IfOk result IsRunnable }
{
    let arguments = match arguments_of(rt) {
        Ok(arguments) => arguments,
        Err(error) if error.kind() == io::ErrorKind::OutOfMemory => {
            return Err(Err(Failure::Memory));
        }
        Err(_) => return Err(Err(Failure::ArgumentNotUtf8)),
    };
    match parse(rt.alloc(), arguments) {
        Ok(command) => Ok(command),
        Err(usage) => Err(outcome_of(usage)),
    }
}

// The arguments of the command line, of which the first is the program's name.
fn arguments_of(rt: &HostRuntime) -> io::Result<Vec<String>> {
    Ok(std::env::args(rt)?.collect(rt.alloc())?)
}
