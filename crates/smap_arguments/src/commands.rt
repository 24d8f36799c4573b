//! The command that the arguments ask for, read from what clap found in them.
ghost use Rattle.std.specs.Prelude.{◌≡◌, IfErr, IfOk};
ghost use Rattle.clap.specs.Words.{found_of, rows_of, subcommand_rows_of};
ghost use Rattle.smap_arguments.specs.CommandLine.{named, whole_name};
ghost use Rattle.smap_arguments.specs.Arguments.{GivesBase, HasArguments, HasCommand, NamedAsksFor};
ghost use Rattle.smap_arguments.specs.Arguments.{SubcommandAsksFor};
ghost use Rattle.smap_arguments.specs.Refusals.{IsNamedRefusal, SubcommandReports, ReportsRefusal};

use crate::checks::{check_in, explain_in, fit_in};
use crate::locate::locate_in;
use crate::lookups::{generated_in, lookup_in, mappings_in, positions_in, raw_in};
use crate::rewrite::rewrite_in;
use crate::sources::sources_in;
use crate::usage::Usage;
use crate::values::base_in;
use crate::written::{compose_in, show_in};
use clap::ArgMatches;
use smap_command::Command;
use std::alloc::Global;
use url::Url;

/// The command that the subcommand and its arguments ask for. A base that is no URL is refused first.
pub fn command_in(
    alloc: Global,
    matches: &ArgMatches<'_>,
    is_generated: bool,
) -> Result<Command, Usage>
    requires { HasCommand is_generated (subcommand_rows_of matches.now) }
    ensures asked { IfOk result (SubcommandAsksFor is_generated (subcommand_rows_of matches.now)) }
    ensures refused { IfErr result (IsNamedRefusal
        (SubcommandReports is_generated (subcommand_rows_of matches.now))) }
{
    let (word, matches) = matches.subcommand().unwrap();
    let base = base_in(alloc, matches)?;
    named_command(alloc, whole_name(is_generated, word), matches, base)
}

// How the command is called that this word names.
fn whole_name(is_generated: bool, word: &str) -> &str
    ensures { result.now ≡ whole_name is_generated word.now }
{
    if is_generated {
        "lookup --generated"
    } else {
        word
    }
}

// The command that is called so, as the arguments ask for it, over the base.
fn named_command(
    alloc: Global,
    name: &str,
    matches: &ArgMatches<'_>,
    base: Option<Url>,
) -> Result<Command, Usage>
    requires required { HasArguments (named name.now) (rows_of (found_of matches.now)) }
    requires given { GivesBase (rows_of (found_of matches.now)) base }
    ensures asked { IfOk result (NamedAsksFor name.now (rows_of (found_of matches.now))) }
    ensures refused { IfErr result (IsNamedRefusal
        (ReportsRefusal name.now (rows_of (found_of matches.now)))) }
{
    match name {
        "lookup" => Ok(lookup_in(alloc, matches, base)?),
        "lookup --generated" => Ok(generated_in(alloc, matches, base)?),
        "positions" => Ok(positions_in(alloc, matches, base)?),
        "mappings" => Ok(mappings_in(alloc, matches, base)?),
        "sources" => sources_in(alloc, matches, base),
        "rewrite" => rewrite_in(alloc, matches, base),
        "locate" => locate_in(alloc, matches, base),
        "check" => Ok(check_in(alloc, matches, base)?),
        "show" => Ok(show_in(alloc, matches, base)?),
        "compose" => compose_in(alloc, matches, base),
        "fit" => fit_in(alloc, matches),
        "explain" => Ok(explain_in(alloc, matches)?),
        _ => Ok(raw_in(matches)),
    }
}
