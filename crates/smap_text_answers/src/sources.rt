//! What a text is rewritten over, where folders, patterns and a list of maps are given beside files.
ghost use Rattle.std.specs.Prelude.{◌≡◌, ◌<◌, [], None, Some, length, map, option_copied, position, IfErr, IfOk, IfSome, OnOk};
ghost use Rattle.std.specs.Str.Lines.{lines};
ghost use Rattle.smap_replies.specs.Outcome.{OrMemory, failure_report, or_reported};
ghost use Rattle.smap_text_answers.specs.Private.Sources.{IsRuleRefusal};
ghost use Rattle.smap_text_answers.specs.Sources.{AddsList, GathersSources, NamesRules, ReadsList, excluded_line, is_of_any_url, rule_refusal};
ghost use Rattle.smap_replies.specs.Arguments.{argument_of};
ghost use Rattle.smap_store.specs.MapList.{PutsRule, rule_fault};

use crate::trace::table_of;
use smap_locations::{ListFault, Locations, is_rule};
use smap_replies::{
    Failure, FileReader, MapReader, file_bytes, list_refused_line, list_text, reason_of,
    refused_argument, refused_list, text_of,
};
use smap_store::{add_list, add_rule};
use smap_trace::Table;
use std::alloc::{AllocError, Global};

// Why a line of all URLs is refused: places are rewritten anywhere in a text, and times of day are such places.
const EXCLUDED: &str = "not together: *=FILE, --anywhere";

/// What a text is rewritten over: the maps of words, which are read first, and the files and folders of the others.
#[derive(Drop)]
pub struct MapSources {
    /// The maps of the files that are words of the command line, each under its URL.
    pub exact: Table,
    /// The rules that are such words, and the files and the rules of the list.
    pub locations: Locations,
}

/// What the arguments, each a URL and a path, and the list at a path name, with the sources of a map named by the path that
/// is its URL, where that is asked and there is no base. A path that ends in `/` is that of a folder, and a
/// URL that begins with `*` is a pattern. These rules of the arguments come first, of which the first that is refused ends
/// it; then the maps of their files are read; then the list is, whose number among the paths is that behind the arguments,
/// and its first line that is refused ends it. Where places are rewritten anywhere in a text, a line of all URLs is, before
/// any other.
pub fn sources_of<F: FileReader>(
    alloc: Global,
    maps: &MapReader<'_, F>,
    paths: bool,
    anywhere: bool,
    arguments: &[(String, String)],
    list: Option<&str>,
) -> Result<MapSources, Failure>
    ensures { GathersSources (F.gives maps.now.files.now) paths anywhere
        (option_copied maps.now.base) maps.now.interval (map argument_of arguments.now)
        (option_copied list.entry)
        (or_reported result) }
{
    let locations = rules_of(alloc, arguments)?;
    let exact = table_of(alloc, maps, paths, arguments, true)?;
    let sources = MapSources { exact, locations };
    match list {
        Some(list) => with_list(alloc, maps.files, anywhere, arguments.len(), list, sources),
        None => Ok(sources),
    }
}

// The rules among the arguments.
fn rules_of(alloc: Global, arguments: &[(String, String)]) -> Result<Locations, Failure>
    ensures { NamesRules (map argument_of arguments.now)
        (record { files = []; folders = []; patterns = [] })
        (or_reported result) }
{
    let mut locations = Locations::new(alloc);
    for (url, path) in arguments {
        if !is_rule(url, path) {
            continue;
        }
        name_rule(alloc, &mut locations, url, path)?;
    }
    Ok(locations)
}

// Names the rule of an argument.
fn name_rule(alloc: Global, locations: &mut Locations, url: &str, path: &str) -> Result<(), Failure>
    ensures faultless { OnOk result (rule_fault locations.old url.now path.now ≡ None) }
    ensures named { OnOk result (PutsRule locations.old url.now path.now locations.new) }
    ensures refused { IfErr result (λ failure. OrMemory
        (IsRuleRefusal locations.old url.now path.now)
        (failure_report failure)) }
{
    match add_rule(alloc, locations, url, path) {
        Ok(()) => Ok(()),
        Err(fault) => Err(refused_rule(alloc, fault, url, path)?),
    }
}

// Why the rule of an argument is refused.
fn refused_rule(
    alloc: Global,
    fault: ListFault,
    url: &str,
    path: &str,
) -> Result<Failure, AllocError>
    ensures { IfOk result (λ failure.
        failure_report failure ≡ rule_refusal fault url.now path.now) }
{
    let reason = reason_of(fault).ok_or(AllocError)?;
    refused_argument(alloc, reason, url, path)
}

// The sources with those that the list of this number and path names.
fn with_list<F: FileReader>(
    alloc: Global,
    files: &F,
    anywhere: bool,
    number: usize,
    list: &str,
    sources: MapSources,
) -> Result<MapSources, Failure>
    ensures { ReadsList (F.gives files.now) anywhere number (Some list.now)
        sources.exact sources.locations (or_reported result) }
{
    let bytes = file_bytes(alloc, files, number, list)?;
    with_lines(alloc, anywhere, list, bytes, sources)
}

// The sources with those that the lines of a list of these bytes name.
fn with_lines(
    alloc: Global,
    anywhere: bool,
    list: &str,
    bytes: Vec<u8>,
    sources: MapSources,
) -> Result<MapSources, Failure>
    ensures { AddsList anywhere list.now bytes.items sources.exact sources.locations
        (or_reported result) }
{
    let whole = text_of(alloc, list, bytes)?;
    let text = list_text(&whole);
    if let Some(number) = excluded_line(anywhere, text) {
        let line = list_refused_line(alloc, list, number, EXCLUDED)?;
        return Err(Failure::Misuse(line));
    }
    let MapSources {
        exact,
        mut locations,
    } = sources;
    match add_list(alloc, &mut locations, &exact, text) {
        Ok(()) => Ok(MapSources { exact, locations }),
        Err(refused) => Err(refused_list(alloc, list, refused)?),
    }
}

// The number, from 1, of the first line of all URLs, where it is excluded.
fn excluded_line(anywhere: bool, text: &str) -> Option<u64>
    ensures { result ≡ excluded_line anywhere text.now }
{
    if !anywhere {
        return None;
    }
    let index = any_url_line(text)?;
    Some(index as u64 + 1)
}

// The number, from 0, of the first line of all URLs.
fn any_url_line(text: &str) -> Option<usize>
    ensures first { result ≡ position is_of_any_url (lines text.now) }
    ensures within { IfSome result (λ index. index < length text.now) }
{
    text.lines().position(|line| is_of_any_url(line))
}

// Whether a line has the pattern of all URLs.
fn is_of_any_url(line: &str) -> bool
    ensures { result ≡ is_of_any_url line.now }
{
    line.starts_with("*\t")
}
