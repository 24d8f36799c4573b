//! Which command line reads the arguments: `lookup` has one of its own, and with `--generated`, where its words are others,
//! another.
ghost use Rattle.std.specs.Prelude.{◌≡◌, IfOk, codes};
ghost use Rattle.std.specs.Str.{bytes_eq};
ghost use Rattle.clap.specs.Words.{app_of};
ghost use Rattle.smap_arguments.specs.Arguments.{texts};
ghost use Rattle.smap_arguments.specs.Line.{asks_generated, has_generated, is_lookup, line_of};

use crate::line::{command_line, generated_command, lookup_command, smap_alone, with_command};
use clap::Command;
use std::alloc::{AllocError, Global};

/// Whether the arguments are those of `lookup` with `--generated`.
pub fn asks_generated(arguments: &[String]) -> bool
    ensures { result ≡ asks_generated (texts arguments.now) }
{
    match arguments {
        [_, name, words @ ..] => name.as_str() == "lookup" && has_generated(words),
        _ => false,
    }
}

/// Whether they are those of `lookup`.
pub fn is_lookup(arguments: &[String]) -> bool
    ensures { result ≡ is_lookup (texts arguments.now) }
{
    match arguments {
        [_, name, ..] => name.as_str() == "lookup",
        _ => false,
    }
}

/// The command line that reads them.
pub fn line_of<'a>(alloc: Global, arguments: &[String]) -> Result<Command<'a>, AllocError>
    ensures { IfOk result (λ command. app_of command ≡ line_of (texts arguments.now)) }
{
    if asks_generated(arguments) {
        with_command(smap_alone(alloc)?, generated_command(alloc))
    } else if is_lookup(arguments) {
        with_command(smap_alone(alloc)?, lookup_command(alloc))
    } else {
        command_line(alloc)
    }
}

// Whether `--generated` is among the words, before the first `--`.
fn has_generated(words: &[String]) -> bool
    ensures { result ≡ has_generated (texts words.now) }
{
    for word in words {
        let text = word.as_str();
        if ends_options(text) {
            return false;
        }
        if is_generated(text) {
            return true;
        }
    }
    false
}

/// Whether all words behind this one are no options.
pub fn ends_options(word: &str) -> bool
    ensures { result ≡ bytes_eq word.now (codes "--") }
{
    word == "--"
}

fn is_generated(word: &str) -> bool
    ensures { result ≡ bytes_eq word.now (codes "--generated") }
{
    word == "--generated"
}
