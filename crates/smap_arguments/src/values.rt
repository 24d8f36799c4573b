//! What clap found for the arguments.
ghost use Rattle.std.specs.Prelude.{◌≡◌, ◌≤◌, ◌<◌, IfErr, IfOk, IfSome, codes, is_some, length, map, string_bytes};
ghost use Rattle.clap.specs.Words.{first_of, found_of, rows_of};
ghost use Rattle.smap_command.specs.Limits.{most_context};
ghost use Rattle.smap_command.specs.Options.{is_json};
ghost use Rattle.smap_arguments.specs.CommandLine.{bytes_number, context_number, interval_number, number, percent_number, source_number};
ghost use Rattle.smap_arguments.specs.Arguments.{GivesBase, GivesBytes, GivesFlag, GivesInterval, GivesNumberIfGiven, GivesPosition};
ghost use Rattle.smap_arguments.specs.Arguments.{GivesPositionIfGiven, GivesText, GivesTextIfGiven, GivesTexts, GivesWord, HasValue};
ghost use Rattle.smap_arguments.specs.Arguments.{HasValueIfGiven, texts, words_of};
ghost use Rattle.smap_arguments.specs.Refusals.{IsNamedRefusal, ReportsBadWord, ReportsOfBase};
ghost use Rattle.clap.specs.declared.builder.value_parser.ValueParser.TheVariants as parser;

use crate::mistakes::{BAD_BASE, LONG_BASE, LONG_BASE_BYTES};
use crate::usage::Usage;
use clap::ArgMatches;
use smap_command::{Form, USUAL_INTERVAL};
use std::alloc::{AllocError, Global};
use url::{ParseError, Url};

pub fn text_in(alloc: Global, matches: &ArgMatches<'_>, name: &str) -> Result<String, AllocError>
    requires { HasValue parser.String (rows_of (found_of matches.now)) name.now }
    ensures { IfOk result (λ text. GivesText (rows_of (found_of matches.now)) name.now
        (string_bytes text)) }
{
    String::from_str(alloc, matches.get_str(name).unwrap())
}

pub fn texts_in<'m, 'a>(matches: &'m ArgMatches<'a>, name: &str) -> &'m [&'a str]
    requires { HasValue parser.String (rows_of (found_of matches.now)) name.now }
    ensures given { GivesTexts (rows_of (found_of matches.now)) name.now
        (map (λ text. text.now) result.now) }
    ensures some { 0 < length result.now }
{
    matches.get_strs(name).unwrap()
}

/// Counted from 0, where the argument counts from 1.
pub fn position_number_in(matches: &ArgMatches<'_>, name: &str) -> u32
    requires { HasValue number (rows_of (found_of matches.now)) name.now }
    ensures { GivesPosition (rows_of (found_of matches.now)) name.now result }
{
    matches.get_one::<u32>(name).unwrap() - 1
}

/// The same, where it is given.
pub fn position_number_if_given(matches: &ArgMatches<'_>, name: &str) -> Option<u32>
    requires { HasValueIfGiven number (rows_of (found_of matches.now)) name.now }
    ensures { GivesPositionIfGiven (rows_of (found_of matches.now)) name.now result }
{
    match matches.get_one::<u32>(name) {
        Some(number) => Some(number - 1),
        None => None,
    }
}

/// The number of a source, where it is given.
pub fn source_in(matches: &ArgMatches<'_>, name: &str) -> Option<u32>
    requires { HasValueIfGiven source_number (rows_of (found_of matches.now)) name.now }
    ensures { GivesNumberIfGiven (rows_of (found_of matches.now)) name.now result }
{
    matches.get_one::<u32>(name)
}

/// How many lines are shown on each side of one, where that is given.
pub fn context_in(matches: &ArgMatches<'_>) -> Option<u32>
    requires { HasValueIfGiven context_number (rows_of (found_of matches.now)) (codes "N") }
    ensures given { GivesNumberIfGiven (rows_of (found_of matches.now)) (codes "N") result }
    ensures in_range { IfSome result (λ lines. lines ≤ most_context) }
{
    matches.get_one::<u32>("N")
}

/// How many of a hundred frames are to get their places, where that is given.
pub fn percent_in(matches: &ArgMatches<'_>) -> Option<u32>
    requires { HasValueIfGiven percent_number (rows_of (found_of matches.now)) (codes "PERCENT") }
    ensures given { GivesNumberIfGiven (rows_of (found_of matches.now)) (codes "PERCENT") result }
    ensures in_range { IfSome result (λ percent. percent ≤ 100) }
{
    matches.get_one::<u32>("PERCENT")
}

/// The interval of the option `--interval`, or the usual one where it is not given.
pub fn interval_in(matches: &ArgMatches<'_>) -> u32
    requires { HasValueIfGiven interval_number (rows_of (found_of matches.now)) (codes "K") }
    ensures { GivesInterval (rows_of (found_of matches.now)) result }
{
    matches.get_one::<u32>("K").unwrap_or(USUAL_INTERVAL)
}

pub fn form_in(matches: &ArgMatches<'_>) -> Form
    requires { HasValueIfGiven parser.Bool (rows_of (found_of matches.now)) (codes "json") }
    ensures { GivesFlag (rows_of (found_of matches.now)) (codes "json") (is_json result) }
{
    Form::of(flag_in(matches, "json"))
}

pub fn flag_in(matches: &ArgMatches<'_>, name: &str) -> bool
    requires { HasValueIfGiven parser.Bool (rows_of (found_of matches.now)) name.now }
    ensures { GivesFlag (rows_of (found_of matches.now)) name.now result }
{
    matches.get_flag(name)
}

/// None where `--base` is not given.
pub fn base_in(alloc: Global, matches: &ArgMatches<'_>) -> Result<Option<Url>, Usage>
    ensures given { IfOk result (GivesBase (rows_of (found_of matches.now))) }
    ensures refused { IfErr result (IsNamedRefusal
        (ReportsOfBase (rows_of (found_of matches.now)))) }
{
    let Some(text) = matches.get_str("URL") else {
        return Ok(None);
    };
    match Url::parse(alloc, text) {
        Ok(url) => Ok(Some(url)),
        Err(error) => match error {
            ParseError::Overflow if text.len() >= LONG_BASE_BYTES => {
                Err(Usage::Words(String::from_str(alloc, LONG_BASE)?))
            }
            ParseError::OutOfMemory | ParseError::Overflow => Err(Usage::Memory),
            _ => Err(Usage::Words(String::from_str(alloc, BAD_BASE)?)),
        },
    }
}

/// How many bytes this option names, where it is given: not more than there may be.
pub fn bytes_in(matches: &ArgMatches<'_>, name: &str, least: u64) -> Option<u64>
    requires { HasValueIfGiven (bytes_number least) (rows_of (found_of matches.now)) name.now }
    ensures { GivesBytes (rows_of (found_of matches.now)) name.now least result }
{
    matches.get_one::<u64>(name)
}

/// Whether the argument is given.
pub fn has_text_in(matches: &ArgMatches<'_>, name: &str) -> bool
    ensures { result ≡ is_some (first_of name.now (rows_of (found_of matches.now))) }
{
    matches.get_str(name).is_some()
}

/// Whether this option is given, which takes this word alone: another is reported by this line.
pub fn word_in(
    alloc: Global,
    matches: &ArgMatches<'_>,
    name: &str,
    word: &str,
    line: &str,
) -> Result<bool, Usage>
    ensures given { IfOk result (GivesWord (rows_of (found_of matches.now)) name.now word.now) }
    ensures refused { IfErr result (IsNamedRefusal (ReportsBadWord
        (rows_of (found_of matches.now)) name.now word.now line.now)) }
{
    let Some(given) = matches.get_str(name) else {
        return Ok(false);
    };
    if given != word {
        return Err(Usage::Words(String::from_str(alloc, line)?));
    }
    Ok(true)
}

/// None where the argument is not given.
pub fn text_if_given(
    alloc: Global,
    matches: &ArgMatches<'_>,
    name: &str,
) -> Result<Option<String>, AllocError>
    ensures { IfOk result (GivesTextIfGiven (rows_of (found_of matches.now)) name.now) }
{
    match matches.get_str(name) {
        Some(text) => Ok(Some(String::from_str(alloc, text)?)),
        None => Ok(None),
    }
}

/// The texts of an argument that may be given more than once; none where it is not given.
pub fn words_in(
    alloc: Global,
    matches: &ArgMatches<'_>,
    name: &str,
) -> Result<Vec<String>, AllocError>
    ensures { IfOk result (λ words. texts words.items
        ≡ words_of (rows_of (found_of matches.now)) name.now) }
{
    match matches.get_strs(name) {
        Some(words) => copied_texts(alloc, words),
        None => Ok(Vec::new(alloc)),
    }
}

pub fn copied_texts(alloc: Global, given: &[&str]) -> Result<Vec<String>, AllocError>
    ensures { IfOk result (λ copies. texts copies.items ≡ map (λ text. text.now) given.now) }
{
    let mut copies = Vec::new(alloc);
    for text in given {
        copies.push(String::from_str(alloc, text)?)?;
    }
    Ok(copies)
}
