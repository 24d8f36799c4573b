//! A position of `lookup` that is one word, as traces print it: LINE, `:` and COLUMN, also behind a URL.
ghost use Rattle.std.specs.Prelude.{◌≡◌, ◌∷◌, IfOk, option_map};
ghost use Rattle.std.specs.Char.{is_ascii_digit};
ghost use Rattle.std.specs.List.{before_first, list_all};
ghost use Rattle.smap_arguments.specs.Arguments.{texts};
ghost use Rattle.smap_arguments.specs.Spread.{IsPushed, are_digits, begins_with_number, behind_colon, is_bracket, numbers_behind, numbers_of, or_numbers};
ghost use Rattle.smap_arguments.specs.Spread.{position_of, spread, spread_words};

use crate::generated::asks_generated;
use std::alloc::{AllocError, Global};

/// The arguments with a position as two words, behind the program's name.
pub fn spread(alloc: Global, arguments: &[String]) -> Result<Vec<String>, AllocError>
    ensures { IfOk result (λ words. texts words.items ≡ spread (texts arguments.now)) }
{
    match arguments.split_first() {
        Some((program, words)) => {
            spread_behind(alloc, program, words, asks_generated(arguments))
        }
        None => Ok(Vec::new(alloc)),
    }
}

// The words behind the program's name, the first that is a position as two.
fn spread_behind(
    alloc: Global,
    program: &str,
    words: &[String],
    is_generated: bool,
) -> Result<Vec<String>, AllocError>
    ensures { IfOk result (λ all.
        texts all.items ≡ program.now ∷ spread_words is_generated (texts words.now)) }
{
    let mut all = Vec::new(alloc);
    all.push(String::from_str(alloc, program)?)?;
    let mut is_spread = false;
    for word in words {
        is_spread = push_word(alloc, &mut all, word, is_generated, is_spread)?;
    }
    Ok(all)
}

// Pushes a word, which is two where it is a position and none before it was; whether one was now.
fn push_word(
    alloc: Global,
    all: &mut Vec<String>,
    word: &str,
    is_generated: bool,
    is_spread: bool,
) -> Result<bool, AllocError>
    ensures { IfOk result (IsPushed is_generated (texts all.old.items) (texts all.new.items)
        word.now is_spread) }
{
    if is_spread {
        all.push(String::from_str(alloc, word)?)?;
        return Ok(true);
    }
    let Some((line, column)) = position_of(word, is_generated) else {
        all.push(String::from_str(alloc, word)?)?;
        return Ok(false);
    };
    all.push(String::from_str(alloc, line)?)?;
    all.push(String::from_str(alloc, column)?)?;
    Ok(true)
}

// The line and the column that a word is or, but with `--generated` or behind another number, ends with.
fn position_of(word: &str, is_generated: bool) -> Option<(&str, &str)>
    ensures { option_map (λ position. (position.0.now, position.1.now)) result
        ≡ position_of is_generated word.now }
{
    if is_generated || begins_with_number(word) {
        numbers_of(word)
    } else {
        last_numbers(word)
    }
}

// Whether a text begins with a number and a `:`, or is a number.
fn begins_with_number(text: &str) -> bool
    ensures { result ≡ begins_with_number text.now }
{
    match text.split_once(':') {
        Some((first, _)) => are_digits(first),
        None => are_digits(text),
    }
}

// The numbers that a text is, or ends with behind one of its `:`.
fn last_numbers(text: &str) -> Option<(&str, &str)>
    ensures { option_map (λ position. (position.0.now, position.1.now)) result
        ≡ or_numbers (numbers_of text.now) (numbers_behind text.now) }
{
    let mut left = Some(text);
    while let Some(rest) = left {
        let numbers = numbers_of(rest);
        if numbers.is_some() {
            return numbers;
        }
        left = behind_colon(rest);
    }
    None
}

// What stands behind the first `:` of a text.
fn behind_colon(text: &str) -> Option<&str>
    ensures { option_map (λ rest. rest.now) result ≡ behind_colon text.now }
{
    match text.split_once(':') {
        Some((_, rest)) => Some(rest),
        None => None,
    }
}

// The numbers round the first `:` of a text, of which the second may end before a bracket.
fn numbers_of(text: &str) -> Option<(&str, &str)>
    ensures { option_map (λ position. (position.0.now, position.1.now)) result
        ≡ numbers_of text.now }
{
    let (line, behind) = text.split_once(':')?;
    let column = before_bracket(behind);
    if are_digits(line) && are_digits(column) {
        Some((line, column))
    } else {
        None
    }
}

// What stands before the first bracket of a text.
fn before_bracket(text: &str) -> &str
    ensures { result.now ≡ before_first is_bracket text.now }
{
    match text.split_once(')') {
        Some((before, _)) => before,
        None => text,
    }
}

// Whether a text is a number without a sign.
fn are_digits(text: &str) -> bool
    ensures { result ≡ are_digits text.now }
{
    !text.is_empty() && are_all_digits(text.as_bytes())
}

fn are_all_digits(text: &[u8]) -> bool
    ensures { result ≡ list_all is_ascii_digit text.now }
{
    text.iter().all(|byte| byte.is_ascii_digit())
}
