//! What `rewrite` is asked.
ghost use Rattle.std.specs.Prelude.{◌≡◌, IfErr, IfOk, codes, option_map};
ghost use Rattle.clap.specs.Words.{found_of, rows_of};
ghost use Rattle.smap_arguments.specs.CommandLine.{named, percent_number};
ghost use Rattle.smap_arguments.specs.Arguments.{GivesBase, GivesFurther, GivesRequired, HasArguments, HasValueIfGiven, NamedAsksFor};
ghost use Rattle.smap_arguments.specs.Excludes.{excluded_line, has_any_url, has_empty, is_any_url};
ghost use Rattle.smap_arguments.specs.Refusals.{IsNamedRefusal, ReportsBadWord, ReportsRewrite, bad_missing_line};

use crate::mistakes::{
    ANY_URL, BAD_MISSING, BASE_AND_PATHS, BOTH_FLAGS, EMPTY_HIDDEN, HIDDEN_ANYWHERE, MANY_HIDDEN,
};
use crate::pairs::maps_in;
use crate::usage::Usage;
use crate::values::{bytes_in, flag_in, interval_in, percent_in, text_if_given, word_in, words_in};
use clap::ArgMatches;
use smap_command::{Command, FurtherOptions, MOST_HIDDEN, Required};
use std::alloc::Global;
use url::Url;

/// What `rewrite` is asked. It needs maps, and some of what it takes excludes each other.
pub fn rewrite_in(
    alloc: Global,
    matches: &ArgMatches<'_>,
    base: Option<Url>,
) -> Result<Command, Usage>
    requires required { HasArguments (named (codes "rewrite")) (rows_of (found_of matches.now)) }
    requires given { GivesBase (rows_of (found_of matches.now)) base }
    ensures asked { IfOk result (NamedAsksFor (codes "rewrite") (rows_of (found_of matches.now))) }
    ensures refused { IfErr result (IsNamedRefusal
        (ReportsRewrite (rows_of (found_of matches.now)))) }
{
    let maps = maps_in(alloc, matches, "rewrite")?;
    let options = further_in(alloc, matches)?;
    let hide_ignored = flag_in(matches, "hide-ignored");
    if let Some(line) = excluded_line(&maps, base.is_some(), hide_ignored, &options) {
        return Err(Usage::Words(String::from_str(alloc, line)?));
    }
    Ok(Command::Rewrite {
        maps,
        base,
        interval: interval_in(matches),
        hide_ignored,
        options,
    })
}

// How many of the frames are to get their places, where that is asked for.
fn required_in(matches: &ArgMatches<'_>) -> Option<Required>
    requires { HasValueIfGiven percent_number (rows_of (found_of matches.now)) (codes "PERCENT") }
    ensures { GivesRequired (rows_of (found_of matches.now)) result }
{
    match percent_in(matches) {
        None => None,
        Some(0) => Some(Required::One),
        Some(percent) => Some(Required::Percent(percent)),
    }
}

// The line that is reported of words and options that exclude each other.
fn excluded_line(
    maps: &[(String, String)],
    has_base: bool,
    hide_ignored: bool,
    options: &FurtherOptions,
) -> Option<&'static str>
    ensures { option_map (λ line. line.now) result
        ≡ excluded_line maps.now has_base hide_ignored options.now }
{
    if options.hide.len() > MOST_HIDDEN {
        Some(MANY_HIDDEN)
    } else if has_empty(&options.hide) {
        Some(EMPTY_HIDDEN)
    } else if has_base && options.paths {
        Some(BASE_AND_PATHS)
    } else if !options.anywhere {
        None
    } else if hide_ignored {
        Some(BOTH_FLAGS)
    } else if !options.hide.is_empty() {
        Some(HIDDEN_ANYWHERE)
    } else if has_any_url(maps) {
        Some(ANY_URL)
    } else {
        None
    }
}

// Whether one of the texts is empty.
fn has_empty(texts: &[String]) -> bool
    ensures { result ≡ has_empty texts.now }
{
    texts.iter().any(|text| text.is_empty())
}

// Whether one of the pairs is of all URLs.
fn has_any_url(maps: &[(String, String)]) -> bool
    ensures { result ≡ has_any_url maps.now }
{
    maps.iter().any(|(url, _)| is_any_url(url))
}

// Whether a URL is the pattern of all that there are.
fn is_any_url(url: &str) -> bool
    ensures { result ≡ is_any_url url.now }
{
    url == "*"
}

fn further_in(alloc: Global, matches: &ArgMatches<'_>) -> Result<FurtherOptions, Usage>
    requires { HasArguments (named (codes "rewrite")) (rows_of (found_of matches.now)) }
    ensures given { IfOk result (GivesFurther (rows_of (found_of matches.now))) }
    ensures refused { IfErr result (IsNamedRefusal (ReportsBadWord
        (rows_of (found_of matches.now)) (codes "HOW") (codes "ok") bad_missing_line)) }
{
    let missing_ok = word_in(alloc, matches, "HOW", "ok", BAD_MISSING)?;
    Ok(FurtherOptions {
        strip_ansi: flag_in(matches, "strip-ansi"),
        list: text_if_given(alloc, matches, "LIST")?,
        anywhere: flag_in(matches, "anywhere"),
        cache_bytes: bytes_in(matches, "cache", 0),
        limit_bytes: bytes_in(matches, "limit", 1),
        summary: flag_in(matches, "summary"),
        hide: words_in(alloc, matches, "TEXT")?,
        explain: flag_in(matches, "explain"),
        paths: flag_in(matches, "paths"),
        names: flag_in(matches, "names"),
        fit: flag_in(matches, "fit"),
        required: required_in(matches),
        missing_ok,
    })
}
