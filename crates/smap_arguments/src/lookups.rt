//! What the commands that look positions up are asked: `lookup`, `positions`, `mappings` and `raw`.
ghost use Rattle.std.specs.Prelude.{◌≡◌, IfOk, codes};
ghost use Rattle.clap.specs.Words.{found_of, rows_of};
ghost use Rattle.smap_arguments.specs.CommandLine.{named};
ghost use Rattle.smap_arguments.specs.Arguments.{GivesBase, HasArguments, NamedAsksFor};

use crate::values::{
    flag_in, form_in, interval_in, position_number_if_given, position_number_in, text_in,
};
use clap::ArgMatches;
use smap_command::{
    AnswerOptions, Command, Direction, Generated, LookupOptions, MapChoice, Mappings,
    MappingsOptions, Positions, USUAL_INTERVAL,
};
use std::alloc::{AllocError, Global};
use url::Url;

pub fn lookup_in(
    alloc: Global,
    matches: &ArgMatches<'_>,
    base: Option<Url>,
) -> Result<Command, AllocError>
    requires required { HasArguments (named (codes "lookup")) (rows_of (found_of matches.now)) }
    requires given { GivesBase (rows_of (found_of matches.now)) base }
    ensures asked { IfOk result (NamedAsksFor (codes "lookup") (rows_of (found_of matches.now))) }
{
    Ok(Command::Lookup {
        path: text_in(alloc, matches, "PATH")?,
        line: position_number_in(matches, "LINE"),
        column: position_number_in(matches, "COLUMN"),
        base,
        interval: interval_in(matches),
        after: flag_in(matches, "after"),
        options: LookupOptions {
            form: form_in(matches),
            explain: flag_in(matches, "explain"),
        },
    })
}

/// `lookup` with `--generated`.
pub fn generated_in(
    alloc: Global,
    matches: &ArgMatches<'_>,
    base: Option<Url>,
) -> Result<Command, AllocError>
    requires required { HasArguments (named (codes "lookup --generated"))
        (rows_of (found_of matches.now)) }
    requires given { GivesBase (rows_of (found_of matches.now)) base }
    ensures asked { IfOk result
        (NamedAsksFor (codes "lookup --generated") (rows_of (found_of matches.now))) }
{
    Ok(Command::Generated(Generated {
        map: MapChoice {
            path: text_in(alloc, matches, "PATH")?,
            base,
            interval: USUAL_INTERVAL,
        },
        source: text_in(alloc, matches, "SOURCE")?,
        line: position_number_in(matches, "LINE"),
        column: position_number_if_given(matches, "COLUMN"),
        after: flag_in(matches, "after"),
        options: LookupOptions {
            form: form_in(matches),
            explain: flag_in(matches, "explain"),
        },
    }))
}

pub fn positions_in(
    alloc: Global,
    matches: &ArgMatches<'_>,
    base: Option<Url>,
) -> Result<Command, AllocError>
    requires required { HasArguments (named (codes "positions")) (rows_of (found_of matches.now)) }
    requires given { GivesBase (rows_of (found_of matches.now)) base }
    ensures asked { IfOk result
        (NamedAsksFor (codes "positions") (rows_of (found_of matches.now))) }
{
    Ok(Command::Positions(Positions {
        map: MapChoice {
            path: text_in(alloc, matches, "MAP")?,
            base,
            interval: interval_in(matches),
        },
        options: AnswerOptions {
            direction: Direction::of(flag_in(matches, "after")),
            form: form_in(matches),
            context: None,
        },
    }))
}

pub fn mappings_in(
    alloc: Global,
    matches: &ArgMatches<'_>,
    base: Option<Url>,
) -> Result<Command, AllocError>
    requires required { HasArguments (named (codes "mappings")) (rows_of (found_of matches.now)) }
    requires given { GivesBase (rows_of (found_of matches.now)) base }
    ensures asked { IfOk result
        (NamedAsksFor (codes "mappings") (rows_of (found_of matches.now))) }
{
    Ok(Command::Mappings(Mappings {
        map: MapChoice {
            path: text_in(alloc, matches, "MAP")?,
            base,
            interval: USUAL_INTERVAL,
        },
        options: MappingsOptions {
            line: position_number_if_given(matches, "LINE"),
            form: form_in(matches),
        },
    }))
}

pub fn raw_in(matches: &ArgMatches<'_>) -> Command
    requires { HasArguments (named (codes "raw")) (rows_of (found_of matches.now)) }
    ensures asked { NamedAsksFor (codes "raw") (rows_of (found_of matches.now)) result }
{
    Command::Raw {
        line: position_number_in(matches, "LINE"),
        column: position_number_in(matches, "COLUMN"),
        interval: interval_in(matches),
    }
}
