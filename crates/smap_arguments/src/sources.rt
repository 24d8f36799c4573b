//! What `sources` is asked.
ghost use Rattle.std.specs.Prelude.{◌≡◌, IfErr, IfOk, codes, string_bytes};
ghost use Rattle.clap.specs.Words.{found_of, rows_of};
ghost use Rattle.smap_arguments.specs.CommandLine.{named};
ghost use Rattle.smap_arguments.specs.Arguments.{GivesBase, GivesNumber, GivesOrder, GivesText, HasArguments, NamedAsksFor};
ghost use Rattle.smap_arguments.specs.Arguments.{has_listing};
ghost use Rattle.smap_arguments.specs.Refusals.{IsNamedRefusal, ReportsBadOrder, ReportsContentWithMore, ReportsSources};

use crate::mistakes::{BAD_ORDER, CONTENT_WITH_MORE, FIT_ALONE, SORT_ALONE};
use crate::usage::Usage;
use crate::values::{flag_in, form_in, has_text_in, source_in, text_if_given, text_in, word_in};
use clap::ArgMatches;
use smap_command::{Command, MapChoice, SourceContent, SourceOptions, Sources, USUAL_INTERVAL};
use std::alloc::Global;
use url::Url;

/// What `sources` is asked: to print all sources, or to write the content of one.
pub fn sources_in(
    alloc: Global,
    matches: &ArgMatches<'_>,
    base: Option<Url>,
) -> Result<Command, Usage>
    requires required { HasArguments (named (codes "sources")) (rows_of (found_of matches.now)) }
    requires given { GivesBase (rows_of (found_of matches.now)) base }
    ensures asked { IfOk result (NamedAsksFor (codes "sources") (rows_of (found_of matches.now))) }
    ensures refused { IfErr result (IsNamedRefusal
        (ReportsSources (rows_of (found_of matches.now)))) }
{
    let path = text_in(alloc, matches, "MAP")?;
    if let Some(source) = source_in(matches, "INDEX") {
        return content_in(alloc, matches, path, source);
    }
    let generated = text_if_given(alloc, matches, "GENERATED")?;
    let by_bytes = order_in(alloc, matches)?;
    if by_bytes && generated.is_none() {
        return Err(Usage::Words(String::from_str(alloc, SORT_ALONE)?));
    }
    let fit = flag_in(matches, "fit");
    if fit && generated.is_none() {
        return Err(Usage::Words(String::from_str(alloc, FIT_ALONE)?));
    }
    Ok(Command::Sources(Sources {
        map: MapChoice {
            path,
            base,
            interval: USUAL_INTERVAL,
        },
        generated,
        options: SourceOptions {
            by_bytes,
            fit,
            form: form_in(matches),
        },
    }))
}

// To write the content of this source, which nothing else may be asked with.
fn content_in(
    alloc: Global,
    matches: &ArgMatches<'_>,
    path: String,
    source: u32,
) -> Result<Command, Usage>
    requires required { HasArguments (named (codes "sources")) (rows_of (found_of matches.now)) }
    requires path { GivesText (rows_of (found_of matches.now)) (codes "MAP") (string_bytes path) }
    requires source { GivesNumber (rows_of (found_of matches.now)) (codes "INDEX") source }
    ensures asked { IfOk result (NamedAsksFor (codes "sources") (rows_of (found_of matches.now))) }
    ensures refused { IfErr result (IsNamedRefusal
        (ReportsContentWithMore (rows_of (found_of matches.now)))) }
{
    if flag_in(matches, "json") || flag_in(matches, "fit") || has_listing(matches) {
        return Err(Usage::Words(String::from_str(alloc, CONTENT_WITH_MORE)?));
    }
    Ok(Command::SourceContent(SourceContent { path, source }))
}

// Whether a base, an order or a generated file is given.
fn has_listing(matches: &ArgMatches<'_>) -> bool
    ensures { result ≡ has_listing (rows_of (found_of matches.now)) }
{
    has_text_in(matches, "URL") || has_text_in(matches, "BY") || has_text_in(matches, "GENERATED")
}

// Whether the sources that make most come first.
fn order_in(alloc: Global, matches: &ArgMatches<'_>) -> Result<bool, Usage>
    ensures given { IfOk result (GivesOrder (rows_of (found_of matches.now))) }
    ensures refused { IfErr result (IsNamedRefusal
        (ReportsBadOrder (rows_of (found_of matches.now)))) }
{
    word_in(alloc, matches, "BY", "bytes", BAD_ORDER)
}
