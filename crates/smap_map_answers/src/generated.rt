//! Looking an original place up in a map file: the generated places that come from it.
ghost use Rattle.std.specs.Prelude.{◌≡◌, ◌++◌, string_bytes, IfOk};
ghost use Rattle.std.specs.Char.{is_ascii_digit};
ghost use Rattle.std.specs.List.{list_all};
ghost use Rattle.smap_index.specs.Parts.{joined};
ghost use Rattle.smap_replies.specs.Map.{IsResult};
ghost use Rattle.smap_replies.specs.Outcome.{OrMemory, report_of};
ghost use Rattle.smap_replies.specs.Why.{ReportsChosen};
ghost use Rattle.smap_map_answers.specs.Generated.{asked_sources, bracketed, direction_of, generated_result};
ghost use Rattle.smap_map_answers.specs.Generated.{is_asked, is_called, is_in_brackets, mappings_from, mappings_of};
ghost use Rattle.smap_map_answers.specs.Generated.{alike_line, alike_lines, alike_source, alike_text, ends_alike};
ghost use Rattle.smap_map_answers.specs.Generated.{no_source_line, no_source_text, sources_result};

use smap_codes::Code;
use smap_command::Generated;
use smap_originals::{Asked, OriginalDirection, generated_for, generated_next};
use smap_printing::generated_text;
use smap_record::{MapFile, Mapping, source_name};
use smap_replies::{Failure, FileReader, Reply, read_chosen};
use smap_text::shown;
use std::alloc::{AllocError, Global};

// What stands before the names that end alike.
const ALIKE: &str = "  the names of sources that end alike:\n";

// What stands in their place, where there is none.
const NONE_ALIKE: &str = "  no name of a source ends alike: smap sources MAP prints all\n";

/// Looks an original place up in the map of the command. Where it is none, and that is asked, why is reported
/// too.
pub fn answer_generated<F: FileReader>(
    alloc: Global,
    reader: &F,
    asked: &Generated,
) -> Result<Reply, Failure>
    ensures { OrMemory (ReportsChosen (F.gives reader.now) asked.now.options.explain asked.now.map
        (IsResult (generated_result asked.now))) (report_of result) }
{
    let map = read_chosen(alloc, reader, &asked.map, asked.options.explain)?;
    generated_of(alloc, &map, asked)
}

// What a map says of an original place.
fn generated_of(alloc: Global, map: &MapFile, asked: &Generated) -> Result<Reply, Failure>
    ensures { OrMemory (IsResult (generated_result asked.now) map.now.stated) (report_of result) }
{
    let sources = asked_sources(alloc, map, &asked.source)?;
    reported(alloc, map, sources, asked)
}

// What is said of these sources.
fn reported(
    alloc: Global,
    map: &MapFile,
    sources: Vec<u32>,
    asked: &Generated,
) -> Result<Reply, Failure>
    ensures { OrMemory (λ report. report ≡ sources_result asked.now map.now.stated sources.items)
        (report_of result) }
{
    if sources.is_empty() {
        let text = no_source_text(alloc, map, &asked.source, asked.options.explain)?;
        return Err(Failure::refusal(Code::C4, text));
    }
    let found = mappings_from(alloc, map, &sources, asked)?;
    Ok(Reply::Bytes(generated_text(alloc, map, &found, asked.options.form)?))
}

// Standard error: no source of the map is asked by a text; and, where that is asked, the names that end alike.
fn no_source_text(
    alloc: Global,
    map: &MapFile,
    text: &str,
    explain: bool,
) -> Result<String, AllocError>
    ensures { IfOk result (λ lines. string_bytes lines
        ≡ no_source_text explain map.now.stated.sources text.now) }
{
    let mut lines = no_source_line(alloc, text)?;
    if explain {
        let alike = alike_lines(alloc, map, text)?;
        lines.push_str(alike_heading(&alike))?;
        lines.push_str(&alike)?;
    }
    Ok(lines)
}

// What stands before the names that end alike, or in their place.
#[tactic(auto, unfolding(crate::specs::Generated::alike_text))]
fn alike_heading(lines: &str) -> &'static str
    ensures { result.now ++ lines.now ≡ alike_text lines.now }
{
    if lines.is_empty() { NONE_ALIKE } else { ALIKE }
}

// The names of the sources that end alike, a line each. A map has far fewer sources than a number of 32 bits counts, so that
// the first refusal never comes.
fn alike_lines(alloc: Global, map: &MapFile, text: &str) -> Result<String, AllocError>
    ensures { IfOk result (λ lines. string_bytes lines
        ≡ alike_lines map.now.stated.sources text.now) }
{
    let Ok(count) = u32::try_from(map.sources()) else {
        return Err(AllocError);
    };
    let mut lines = String::new(alloc);
    for index in 0..count {
        let line = alike_source(alloc, map, text, index)?;
        lines.push_str(&line)?;
    }
    Ok(lines)
}

// The line for the source of this index, where its name ends alike, and else nothing.
fn alike_source(alloc: Global, map: &MapFile, text: &str, index: u32) -> Result<String, AllocError>
    ensures { IfOk result (λ line. string_bytes line
        ≡ alike_source map.now.stated.sources text.now index) }
{
    match source_name(map.source(index)) {
        Some(name) => alike_line(alloc, text, name),
        None => Ok(String::new(alloc)),
    }
}

fn alike_line(alloc: Global, text: &str, name: &str) -> Result<String, AllocError>
    ensures { IfOk result (λ line. string_bytes line ≡ alike_line text.now name.now) }
{
    if !ends_alike(name.as_bytes(), text.as_bytes()) {
        return Ok(String::new(alloc));
    }
    let name = shown(alloc, name)?;
    format!(in alloc; "  {name}\n")
}

// Whether one of two names ends with the other.
fn ends_alike(name: &[u8], text: &[u8]) -> bool
    ensures { result ≡ ends_alike name.now text.now }
{
    name.ends_with(text) || text.ends_with(name)
}

// Standard error: no source of the map is asked by this text.
fn no_source_line(alloc: Global, text: &str) -> Result<String, AllocError>
    ensures { IfOk result (λ line. string_bytes line ≡ no_source_line text.now) }
{
    let (code, text) = (Code::C4.text(), shown(alloc, text)?);
    format!(in alloc; "refused: {code} {text}\n")
}

// The indices of the sources that are asked by a text. A map has far fewer sources than a number of 32 bits counts, so that
// the first refusal never comes.
fn asked_sources(alloc: Global, map: &MapFile, text: &str) -> Result<Vec<u32>, AllocError>
    ensures { IfOk result (λ sources. sources.items
        ≡ asked_sources map.now.stated.sources text.now) }
{
    let Ok(count) = u32::try_from(map.sources()) else {
        return Err(AllocError);
    };
    let mut sources = Vec::new(alloc);
    for index in 0..count {
        if is_asked(alloc, map, text, index)? {
            sources.push(index)?;
        }
    }
    Ok(sources)
}

// Whether the source of this index is asked by a text.
fn is_asked(alloc: Global, map: &MapFile, text: &str, index: u32) -> Result<bool, AllocError>
    ensures { IfOk result (λ asked. asked ≡ is_asked map.now.stated.sources text.now index) }
{
    if is_in_brackets(text) {
        let bracketed = bracketed(alloc, index)?;
        return Ok(bracketed.as_str() == text);
    }
    match source_name(map.source(index)) {
        Some(name) => is_called(alloc, text, name),
        None => Ok(false),
    }
}

// Whether a name is a text, as it stands or as it is printed.
fn is_called(alloc: Global, text: &str, name: &str) -> Result<bool, AllocError>
    ensures { IfOk result (λ called. called ≡ is_called text.now name.now) }
{
    if name == text {
        return Ok(true);
    }
    let name = shown(alloc, name)?;
    Ok(name.as_str() == text)
}

/// An index in brackets.
pub fn bracketed(alloc: Global, index: u32) -> Result<String, AllocError>
    ensures { IfOk result (λ text. string_bytes text ≡ bracketed index) }
{
    format!(in alloc; "[{index}]")
}

// Whether a text is a number in brackets.
fn is_in_brackets(text: &str) -> bool
    ensures { result ≡ is_in_brackets text.now }
{
    let bytes = text.as_bytes();
    bytes.len() >= 3
        && bytes[0] == b'['
        && bytes[bytes.len() - 1] == b']'
        && is_number(&bytes[1..bytes.len() - 1])
}

// Whether all bytes are digits.
fn is_number(bytes: &[u8]) -> bool
    ensures { result ≡ list_all is_ascii_digit bytes.now }
{
    bytes.iter().all(|byte| byte.is_ascii_digit())
}

// The mappings of the original place in these sources, one source after another.
fn mappings_from(
    alloc: Global,
    map: &MapFile,
    sources: &[u32],
    asked: &Generated,
) -> Result<Vec<Mapping>, AllocError>
    ensures { IfOk result (λ found. found.items ≡ mappings_from asked.now.line asked.now.column
        asked.now.after (joined map.now.stated.parts) sources.now) }
{
    let mut found = Vec::new(alloc);
    for source in sources {
        let more = mappings_of(alloc, map, *source, asked)?;
        found.extend_from_slice(&more)?;
    }
    Ok(found)
}

// Those in one source.
fn mappings_of(
    alloc: Global,
    map: &MapFile,
    source: u32,
    asked: &Generated,
) -> Result<Vec<Mapping>, AllocError>
    ensures { IfOk result (λ found. found.items ≡ mappings_of asked.now.line asked.now.column
        asked.now.after (joined map.now.stated.parts) source) }
{
    match asked.column {
        None => generated_for(alloc, map, source, asked.line),
        Some(column) => {
            let place = Asked {
                source,
                line: asked.line,
                column,
                direction: direction_of(asked.after),
            };
            generated_next(alloc, map, &place)
        }
    }
}

fn direction_of(after: bool) -> OriginalDirection
    ensures { result ≡ direction_of after }
{
    if after {
        OriginalDirection::AtOrAfter
    } else {
        OriginalDirection::AtOrBefore
    }
}
