//! The files of inner maps, each under the name of a source of the outer map.
ghost use Rattle.std.specs.Prelude.{◌≡◌, ◌⊎◌, [], false, is_some, length, map, option_copied, Err, Some, IfOk};
ghost use Rattle.std.specs.Str.Lines.{lines};
ghost use Rattle.smap_map_answers.specs.ComposeAll.{NamesBytes, NamesEntry, NamesFirst, NamesInners, NamesLines, NamesList, NamesPair, NamesWords};
ghost use Rattle.smap_map_answers.specs.ComposeAll.{ReadsInner, ReadsInners, ReadsSource, pair_of, with_name};
ghost use Rattle.smap_codes.specs.Codes.{text_of};
ghost use Rattle.smap_codes.specs.declared.code.Code.TheVariants.{A2};
ghost use Rattle.smap_replies.specs.Lines.{argument_refused_line};
ghost use Rattle.smap_replies.specs.Outcome.{failure_report, misuse, out_of_memory, or_reported};
ghost use Rattle.smap_map_answers.specs.Private.OuterMap.{IsOuter};
ghost use Rattle.smap_map_answers.specs.Private.Inners.{inner_reported, inners_reported, map_reported, pair_seen};
ghost use Rattle.smap_replies.specs.Lists.{list_refusal};
ghost use Rattle.smap_replies.specs.Arguments.{argument_of, argument_text};
ghost use Rattle.smap_locations.specs.ByText.{value_under};
ghost use Rattle.smap_record.specs.Sources.{source_of};
ghost use Rattle.smap_locations.specs.ListLine.{line_entry};

use crate::composed_lines;
use crate::outer_map::OuterMap;
use smap_codes::Code;
use smap_command::USUAL_INTERVAL;
use smap_locations::{ListFault, ListRefusal, NamedPaths, entry_of_line};
use smap_record::{MapFile, SourceEntry};
use smap_replies::{
    Failure, FileReader, Standing, file_bytes, list_text, map_of, refused_argument, refused_list,
    text_of,
};
use std::alloc::{AllocError, Global};

/// The paths that the words and the lines of the list at a path name, each under the name of a source of the outer map,
/// which has so many. The list is the file of number 1.
pub fn named_inners<F: FileReader>(
    alloc: Global,
    reader: &F,
    outer: &OuterMap<'_>,
    words: &[(String, String)],
    list: Option<&str>,
) -> Result<NamedPaths, Failure>
    requires { IsOuter outer.now }
    ensures { NamesInners (F.gives reader.now) outer.now.map.now.stated.sources
        (map argument_of words.now) (option_copied list.entry) (or_reported result) }
{
    let named = named_words(alloc, outer, words)?;
    match list {
        Some(list) => named_list(alloc, reader, outer, named, list),
        None => Ok(named),
    }
}

// The paths that the words name.
fn named_words(
    alloc: Global,
    outer: &OuterMap<'_>,
    words: &[(String, String)],
) -> Result<NamedPaths, Failure>
    requires { IsOuter outer.now }
    ensures { NamesWords outer.now.map.now.stated.sources (map argument_of words.now) []
        (or_reported result) }
{
    let mut named = NamedPaths::new(alloc);
    for (name, path) in words {
        named = with_word(alloc, outer, named, name, path)?;
    }
    Ok(named)
}

// The paths with that of a word.
fn with_word(
    alloc: Global,
    outer: &OuterMap<'_>,
    named: NamedPaths,
    name: &str,
    path: &str,
) -> Result<NamedPaths, Failure>
    requires { IsOuter outer.now }
    ensures { NamesPair outer.now.map.now.stated.sources
        (misuse (argument_refused_line (argument_text name.now path.now) (text_of A2))) named
        name.now path.now (or_reported result) }
{
    if named.path_under(name.as_bytes()).is_some() {
        return Err(refused_argument(alloc, Code::A2.text(), name, path)?);
    }
    with_path(alloc, outer, named, name, path)
}

// The paths with those that a list names.
fn named_list<F: FileReader>(
    alloc: Global,
    reader: &F,
    outer: &OuterMap<'_>,
    named: NamedPaths,
    list: &str,
) -> Result<NamedPaths, Failure>
    requires { IsOuter outer.now }
    ensures { NamesList (F.gives reader.now) outer.now.map.now.stated.sources
        (Some list.now) named (or_reported result) }
{
    let bytes = file_bytes(alloc, reader, 1, list)?;
    named_bytes(alloc, outer, named, list, bytes)
}

// The paths with those that a list of these bytes names.
fn named_bytes(
    alloc: Global,
    outer: &OuterMap<'_>,
    named: NamedPaths,
    list: &str,
    bytes: Vec<u8>,
) -> Result<NamedPaths, Failure>
    requires { IsOuter outer.now }
    ensures { NamesBytes outer.now.map.now.stated.sources list.now bytes.items named
        (or_reported result) }
{
    let text = text_of(alloc, list, bytes)?;
    named_lines(alloc, outer, named, list, list_text(&text))
}

// The paths with those that the lines of a list name.
fn named_lines(
    alloc: Global,
    outer: &OuterMap<'_>,
    named: NamedPaths,
    list: &str,
    text: &str,
) -> Result<NamedPaths, Failure>
    requires { IsOuter outer.now }
    ensures { NamesLines outer.now.map.now.stated.sources list.now 1 (lines text.now) named
        (or_reported result) }
{
    let mut named = named;
    let mut number = 0;
    for line in text.lines() {
        number += 1;
        named = with_line(alloc, outer, named, list, number, line)?;
    }
    Ok(named)
}

// The paths with that of a line of a list.
fn with_line(
    alloc: Global,
    outer: &OuterMap<'_>,
    named: NamedPaths,
    list: &str,
    number: u64,
    line: &str,
) -> Result<NamedPaths, Failure>
    requires { IsOuter outer.now }
    ensures { NamesEntry outer.now.map.now.stated.sources list.now number
        (line_entry line.now) named (or_reported result) }
{
    match entry_of_line(line) {
        Ok(Some((name, _))) if named.path_under(name.as_bytes()).is_some() => {
            Err(refused_line(alloc, list, number, ListFault::Twice)?)
        }
        Ok(Some((name, path))) => with_path(alloc, outer, named, name, path),
        Ok(None) => Ok(named),
        Err(fault) => Err(refused_line(alloc, list, number, fault)?),
    }
}

// Why a line of a list is refused.
fn refused_line(
    alloc: Global,
    list: &str,
    line: u64,
    fault: ListFault,
) -> Result<Failure, AllocError>
    ensures { IfOk result (λ failure. failure_report failure
        ≡ list_refusal list.now (record { line = line; fault = fault })) }
{
    refused_list(alloc, list, ListRefusal { line, fault })
}

// The paths with one more under a name that has none yet, where a source of the outer map has that name.
fn with_path(
    alloc: Global,
    outer: &OuterMap<'_>,
    named: NamedPaths,
    name: &str,
    path: &str,
) -> Result<NamedPaths, Failure>
    requires outer_is_whole { IsOuter outer.now }
    requires is_first { is_some (value_under name.now named) ≡ false }
    ensures { (or_reported result ≡ Err out_of_memory)
        ⊎ NamesFirst outer.now.map.now.stated.sources named name.now path.now (or_reported result) }
{
    if !outer.has_source_called(name) {
        let text = composed_lines::no_source_named_text(alloc, outer.map, name)?;
        return Err(Failure::refusal(Code::C4, text));
    }
    let name = String::from_str(alloc, name)?;
    let path = String::from_str(alloc, path)?;
    let mut more = named;
    match more.add(name, path) {
        Ok(()) => Ok(more),
        Err(_) => Err(Failure::Memory),
    }
}

/// The maps of the sources of the outer map, where they have one.
pub fn read_inners<F: FileReader>(
    alloc: Global,
    reader: &F,
    outer: &OuterMap<'_>,
    named: &NamedPaths,
) -> Result<Vec<Option<MapFile>>, Failure>
    requires { IsOuter outer.now }
    ensures reads { (inners_reported result ≡ Err out_of_memory)
        ⊎ ReadsInners (F.gives reader.now) named.now outer.now.map.now.stated.sources []
        (inners_reported result) }
    ensures counted { IfOk result (λ inners. length inners.items
        ≡ length outer.now.map.now.stated.sources) }
{
    let mut inners = Vec::with_capacity(alloc, outer.count as usize)?;
    for i in 0..outer.count {
        let Some(source) = outer.map.source(i) else {
            continue;
        };
        let inner = read_source(alloc, reader, named, source)?;
        inners.push(inner)?;
    }
    Ok(inners)
}

// The map of a source, where it has one.
fn read_source<F: FileReader>(
    alloc: Global,
    reader: &F,
    named: &NamedPaths,
    source: &SourceEntry,
) -> Result<Option<MapFile>, Failure>
    ensures { ReadsSource (F.gives reader.now) (pair_of named.now (source_of source.now))
        (inner_reported result) }
{
    match pair_of(named, source) {
        Some((name, path)) => Ok(Some(read_inner(alloc, reader, name, path)?)),
        None => Ok(None),
    }
}

// The name of a source and the path of its map, where it has one.
fn pair_of<'a>(named: &'a NamedPaths, source: &'a SourceEntry) -> Option<(&'a str, &'a str)>
    ensures { pair_seen result ≡ pair_of named.now (source_of source.now) }
{
    pair_under(named, source.name.as_ref()?.text())
}

// This name and the path under it, where there is one.
fn pair_under<'a>(named: &'a NamedPaths, name: &'a str) -> Option<(&'a str, &'a str)>
    ensures { pair_seen result ≡ with_name name.now (value_under name.now named.now) }
{
    let path = named.path_under(name.as_bytes())?;
    Some((name, path.as_str()))
}

// The map that the file at this path is, of a source of this name.
fn read_inner<F: FileReader>(
    alloc: Global,
    reader: &F,
    name: &str,
    path: &str,
) -> Result<MapFile, Failure>
    ensures { ReadsInner (F.gives reader.now) name.now path.now (map_reported result) }
{
    let bytes = file_bytes(alloc, reader, 2, path)?;
    map_of(alloc, path, Standing::AtUrl(name), USUAL_INTERVAL, bytes)
}
