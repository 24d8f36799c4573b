//! What `locate` is asked.
ghost use Rattle.std.specs.Prelude.{◌≡◌, IfErr, IfOk, codes};
ghost use Rattle.clap.specs.Words.{found_of, rows_of};
ghost use Rattle.smap_arguments.specs.CommandLine.{named};
ghost use Rattle.smap_arguments.specs.Arguments.{GivesBase, HasArguments, NamedAsksFor};
ghost use Rattle.smap_arguments.specs.Refusals.{IsNamedRefusal, ReportsLocate};

use crate::mistakes::{BASE_AND_PATHS, CONTEXT_ALONE};
use crate::pairs::maps_in;
use crate::usage::Usage;
use crate::values::{bytes_in, context_in, flag_in, form_in, interval_in, text_if_given};
use clap::ArgMatches;
use smap_command::{AnswerOptions, Command, Direction, Locate};
use std::alloc::Global;
use url::Url;

/// What `locate` is asked. It needs maps, with a base sources are not named by paths, and lines of sources are shown in JSON
/// alone.
pub fn locate_in(
    alloc: Global,
    matches: &ArgMatches<'_>,
    base: Option<Url>,
) -> Result<Command, Usage>
    requires required { HasArguments (named (codes "locate")) (rows_of (found_of matches.now)) }
    requires given { GivesBase (rows_of (found_of matches.now)) base }
    ensures asked { IfOk result (NamedAsksFor (codes "locate") (rows_of (found_of matches.now))) }
    ensures refused { IfErr result (IsNamedRefusal
        (ReportsLocate (rows_of (found_of matches.now)))) }
{
    let maps = maps_in(alloc, matches, "locate")?;
    let paths = flag_in(matches, "paths");
    if base.is_some() && paths {
        return Err(Usage::Words(String::from_str(alloc, BASE_AND_PATHS)?));
    }
    let context = context_in(matches);
    let form = form_in(matches);
    if context.is_some() && !form.is_json() {
        return Err(Usage::Words(String::from_str(alloc, CONTEXT_ALONE)?));
    }
    Ok(Command::Locate(Locate {
        maps,
        base,
        interval: interval_in(matches),
        list: text_if_given(alloc, matches, "LIST")?,
        paths,
        cache_bytes: bytes_in(matches, "cache", 0),
        names: flag_in(matches, "names"),
        options: AnswerOptions {
            direction: Direction::of(flag_in(matches, "after")),
            form,
            context,
        },
    }))
}
