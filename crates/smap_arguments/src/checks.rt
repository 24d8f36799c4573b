//! What the commands that say whether something is right are asked: `check`, `fit` and `explain`.
ghost use Rattle.std.specs.Prelude.{◌≡◌, IfErr, IfOk, codes};
ghost use Rattle.clap.specs.Words.{found_of, rows_of};
ghost use Rattle.smap_arguments.specs.CommandLine.{named};
ghost use Rattle.smap_arguments.specs.Arguments.{GivesBase, HasArguments, NamedAsksFor};
ghost use Rattle.smap_arguments.specs.Refusals.{IsNamedRefusal, ReportsNoGenerated};

use crate::mistakes::NO_GENERATED;
use crate::usage::Usage;
use crate::values::{copied_texts, flag_in, form_in, interval_in, text_if_given, texts_in};
use clap::ArgMatches;
use smap_command::{CheckOptions, Command, Explain, Fit, FitOptions};
use std::alloc::{AllocError, Global};
use url::Url;

pub fn check_in(
    alloc: Global,
    matches: &ArgMatches<'_>,
    base: Option<Url>,
) -> Result<Command, AllocError>
    requires required { HasArguments (named (codes "check")) (rows_of (found_of matches.now)) }
    requires given { GivesBase (rows_of (found_of matches.now)) base }
    ensures asked { IfOk result (NamedAsksFor (codes "check") (rows_of (found_of matches.now))) }
{
    let (interval, explain) = (interval_in(matches), flag_in(matches, "explain"));
    let (first, others) = texts_in(matches, "PATH").split_first().unwrap();
    Ok(Command::Check {
        path: String::from_str(alloc, first)?,
        base,
        interval,
        options: CheckOptions {
            others: copied_texts(alloc, others)?,
            form: form_in(matches),
            explain,
        },
    })
}

/// The words of `fit` are pairs.
pub fn fit_in(alloc: Global, matches: &ArgMatches<'_>) -> Result<Command, Usage>
    requires { HasArguments (named (codes "fit")) (rows_of (found_of matches.now)) }
    ensures asked { IfOk result (NamedAsksFor (codes "fit") (rows_of (found_of matches.now))) }
    ensures refused { IfErr result (IsNamedRefusal
        (ReportsNoGenerated (rows_of (found_of matches.now)))) }
{
    let words = texts_in(matches, "MAP GENERATED");
    if words.len() % 2 == 1 {
        return Err(Usage::Words(String::from_str(alloc, NO_GENERATED)?));
    }
    Ok(Command::Fit(Fit {
        paths: copied_texts(alloc, words)?,
        options: FitOptions {
            form: form_in(matches),
            explain: flag_in(matches, "explain"),
        },
    }))
}

pub fn explain_in(alloc: Global, matches: &ArgMatches<'_>) -> Result<Command, AllocError>
    ensures asked { IfOk result (NamedAsksFor (codes "explain") (rows_of (found_of matches.now))) }
{
    Ok(Command::Explain(Explain {
        code: text_if_given(alloc, matches, "CODE")?,
    }))
}
