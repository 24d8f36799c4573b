//! The option `--require-mapped` of `rewrite`, whose number may be left out. clap gets the number 0 then.
ghost use Rattle.std.specs.Prelude.{◌≡◌, ◌∷◌, IfOk, codes, string_bytes, true};
ghost use Rattle.std.specs.Str.{bytes_eq};
ghost use Rattle.smap_arguments.specs.Arguments.{texts};
ghost use Rattle.smap_arguments.specs.Numbered.{is_rewrite, may_be_options, numbered, numbered_words, with_numbers};

use crate::generated::ends_options;
use std::alloc::{AllocError, Global};

/// The arguments with that number, where they are those of `rewrite`.
pub fn with_numbers(alloc: Global, arguments: Vec<String>) -> Result<Vec<String>, AllocError>
    ensures { IfOk result (λ words. texts words.items ≡ with_numbers (texts arguments.items)) }
{
    if !is_rewrite(&arguments) {
        return Ok(arguments);
    }
    match arguments.split_first() {
        Some((program, words)) => numbered_behind(alloc, program, words),
        None => Ok(Vec::new(alloc)),
    }
}

// Whether the arguments are those of `rewrite`.
fn is_rewrite(arguments: &[String]) -> bool
    ensures { result ≡ is_rewrite (texts arguments.now) }
{
    match arguments {
        [_, name, ..] => name.as_str() == "rewrite",
        _ => false,
    }
}

// The words behind the program's name, with the number at each option that has none.
fn numbered_behind(
    alloc: Global,
    program: &str,
    words: &[String],
) -> Result<Vec<String>, AllocError>
    ensures { IfOk result (λ all.
        texts all.items ≡ program.now ∷ numbered_words true (texts words.now)) }
{
    let mut all = Vec::new(alloc);
    all.push(String::from_str(alloc, program)?)?;
    let mut may_be_options = true;
    for word in words {
        may_be_options = still_options(may_be_options, word);
        all.push(numbered(alloc, word, may_be_options)?)?;
    }
    Ok(all)
}

// Whether options may stand at this word and behind it.
fn still_options(were: bool, word: &str) -> bool
    ensures { result ≡ may_be_options were word.now }
{
    were && !ends_options(word)
}

// The word with the number, where it is the option without one.
fn numbered(alloc: Global, word: &str, may_be_option: bool) -> Result<String, AllocError>
    ensures { IfOk result (λ text. string_bytes text ≡ numbered may_be_option word.now) }
{
    if may_be_option && is_unnumbered(word) {
        String::from_str(alloc, "--require-mapped=0")
    } else {
        String::from_str(alloc, word)
    }
}

fn is_unnumbered(word: &str) -> bool
    ensures { result ≡ bytes_eq word.now (codes "--require-mapped") }
{
    word == "--require-mapped"
}
