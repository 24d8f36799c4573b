//! What the commands that write a map are asked: `show` and `compose`.
ghost use Rattle.std.specs.Prelude.{◌≡◌, IfErr, IfOk, codes, string_bytes};
ghost use Rattle.clap.specs.Words.{found_of, rows_of};
ghost use Rattle.smap_arguments.specs.CommandLine.{named, source_number};
ghost use Rattle.smap_arguments.specs.Arguments.{GivesBase, GivesOptions, GivesText, HasArguments, HasNoInners, HasValueIfGiven};
ghost use Rattle.smap_arguments.specs.Arguments.{NamedAsksFor, has_inner};
ghost use Rattle.smap_arguments.specs.Refusals.{IsNamedRefusal, ReportsCompose, ReportsNoInner};
ghost use Rattle.clap.specs.declared.builder.value_parser.ValueParser.TheVariants as parser;

use crate::mistakes::{NO_INNER, NO_SOURCE, SOURCE_WITH_INNERS};
use crate::pairs::pairs_in;
use crate::usage::Usage;
use crate::values::{flag_in, has_text_in, source_in, text_if_given, text_in};
use clap::ArgMatches;
use smap_command::{Command, ComposeAll, WriteOptions};
use std::alloc::{AllocError, Global};
use url::Url;

pub fn show_in(
    alloc: Global,
    matches: &ArgMatches<'_>,
    base: Option<Url>,
) -> Result<Command, AllocError>
    requires required { HasArguments (named (codes "show")) (rows_of (found_of matches.now)) }
    requires given { GivesBase (rows_of (found_of matches.now)) base }
    ensures asked { IfOk result (NamedAsksFor (codes "show") (rows_of (found_of matches.now))) }
{
    Ok(Command::Show {
        path: text_in(alloc, matches, "PATH")?,
        base,
        options: options_in(matches),
    })
}

/// What `compose` is asked: over one inner map, or over those of sources by their names.
pub fn compose_in(
    alloc: Global,
    matches: &ArgMatches<'_>,
    base: Option<Url>,
) -> Result<Command, Usage>
    requires required { HasArguments (named (codes "compose")) (rows_of (found_of matches.now)) }
    requires given { GivesBase (rows_of (found_of matches.now)) base }
    ensures asked { IfOk result (NamedAsksFor (codes "compose") (rows_of (found_of matches.now))) }
    ensures refused { IfErr result (IsNamedRefusal
        (ReportsCompose (rows_of (found_of matches.now)))) }
{
    let outer = text_in(alloc, matches, "OUTER")?;
    let inners = pairs_in(alloc, matches, "NAME=FILE")?;
    let list = text_if_given(alloc, matches, "LIST")?;
    if inners.is_empty() && list.is_none() {
        return one_inner_in(alloc, matches, outer, base);
    }
    if has_inner(matches) {
        return Err(Usage::Words(String::from_str(alloc, SOURCE_WITH_INNERS)?));
    }
    Ok(Command::ComposeAll(ComposeAll {
        outer,
        inners,
        list,
        base,
        options: options_in(matches),
    }))
}

// What `compose` is asked over one inner map, which has to be given with the number of its source.
fn one_inner_in(
    alloc: Global,
    matches: &ArgMatches<'_>,
    outer: String,
    base: Option<Url>,
) -> Result<Command, Usage>
    requires required { HasArguments (named (codes "compose")) (rows_of (found_of matches.now)) }
    requires outer { GivesText (rows_of (found_of matches.now)) (codes "OUTER")
        (string_bytes outer) }
    requires alone { HasNoInners (rows_of (found_of matches.now)) }
    requires given { GivesBase (rows_of (found_of matches.now)) base }
    ensures asked { IfOk result (NamedAsksFor (codes "compose") (rows_of (found_of matches.now))) }
    ensures refused { IfErr result (IsNamedRefusal
        (ReportsNoInner (rows_of (found_of matches.now)))) }
{
    let Some(source) = source_in(matches, "SOURCE") else {
        return Err(Usage::Words(String::from_str(alloc, NO_SOURCE)?));
    };
    let Some(inner) = text_if_given(alloc, matches, "INNER")? else {
        return Err(Usage::Words(String::from_str(alloc, NO_INNER)?));
    };
    Ok(Command::Compose {
        outer,
        source,
        inner,
        base,
        options: options_in(matches),
    })
}

// Whether SOURCE or INNER is given.
fn has_inner(matches: &ArgMatches<'_>) -> bool
    requires { HasValueIfGiven source_number (rows_of (found_of matches.now)) (codes "SOURCE") }
    ensures { result ≡ has_inner (rows_of (found_of matches.now)) }
{
    source_in(matches, "SOURCE").is_some() || has_text_in(matches, "INNER")
}

// What is left out of the map, and whether its debug id is written.
fn options_in(matches: &ArgMatches<'_>) -> WriteOptions
    requires prune { HasValueIfGiven parser.Bool (rows_of (found_of matches.now))
        (codes "prune") }
    requires no_content { HasValueIfGiven parser.Bool (rows_of (found_of matches.now))
        (codes "no-content") }
    requires keep_debug_id { HasValueIfGiven parser.Bool (rows_of (found_of matches.now))
        (codes "keep-debug-id") }
    ensures { GivesOptions (rows_of (found_of matches.now)) result }
{
    WriteOptions {
        prune: flag_in(matches, "prune"),
        no_content: flag_in(matches, "no-content"),
        keep_debug_id: flag_in(matches, "keep-debug-id"),
    }
}
