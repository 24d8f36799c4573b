//! Answers as lines of JSON, each with its LF.
ghost use Rattle.std.specs.Prelude.{◌≡◌, nat_eq, option_and_then, option_map, slice_get, true};
ghost use Rattle.std.specs.List.{after_first, before_first};
ghost use Rattle.serde_json.specs.Data.{boolean};
ghost use Rattle.serde_json.specs.Written.{compact_text, members_text};
ghost use Rattle.smap_record.specs.Sources.{source_of};
ghost use Rattle.smap_printing.specs.Functions.{pieces_text};
ghost use Rattle.smap_printing.specs.Json.{answer_value, bad_position_value, excerpt_value, found_value, json_line};
ghost use Rattle.smap_printing.specs.Json.{none_value, origin_members, unmapped_value, url_members};
ghost use Rattle.smap_record.specs.Written.{is_ignored_where};
ghost use Rattle.smap_printing.specs.Mappings.{bare_value, mapped_value, mapping_value};
ghost use Rattle.smap_printing.specs.Private.Members.{excerpt_member, ignored_member};

use crate::answer::{from_one, name_at};
use crate::context_form::put_context;
use crate::functions::{FunctionText, put_function_member};
use crate::map_text::put_json_text;
use crate::output::{Output, put_number};
use smap_record::{Answer, MapFile, Mapping, Origin, SourceEntry, is_ignored, source_name};

/// The generated line and column that were asked for, both from 1, and beside them a function and the URL, where there were
/// such.
#[derive(Clone, Copy)]
pub struct AskedPosition<'a> {
    pub line: u64,
    pub column: u64,
    pub function: Option<FunctionText<'a>>,
    pub url: Option<&'a str>,
}

#[tactic(auto, unfolding(json::specs::Print::escape_byte))]
pub fn put_bad_position<O: Output>(output: &mut O)
    ensures { O.Puts output.old output.new (json_line bad_position_value) }
{
    output.put(b"{\"answer\":\"bad position\"}\n");
}

/// Puts the line for what a map answers for a position, with so many lines around what was found, where they are asked for,
/// and with this excerpt of it.
pub fn put_answer_object<O: Output>(
    map: &MapFile,
    asked: AskedPosition<'_>,
    answer: &Answer,
    context: Option<u32>,
    excerpt: Option<&str>,
    output: &mut O,
)
    ensures { O.Puts output.old output.new (json_line
        (answer_value context (option_map (λ excerpt. excerpt.now) excerpt.entry)
        (option_map pieces_text asked.entry.function)
        (option_map (λ url. url.now) asked.entry.url) map.now.stated
        (record { line = asked.entry.line; column = asked.entry.column }) answer.now)) }
{
    match answer {
        Answer::Nothing => put_none(asked, output),
        Answer::Unmapped {
            column: generated_column,
        } => put_unmapped(asked, *generated_column, output),
        Answer::Found {
            column: generated_column,
            origin,
        } => put_found(
            map,
            asked,
            *generated_column,
            origin,
            context,
            excerpt,
            output,
        ),
    }
    output.put(b"\n");
}

// Puts that no mapping answers.
fn put_none<O: Output>(asked: AskedPosition<'_>, output: &mut O)
    ensures { O.Puts output.old output.new
        (compact_text (none_value (option_map pieces_text asked.entry.function)
        (option_map (λ url. url.now) asked.entry.url)
        (record { line = asked.entry.line; column = asked.entry.column }))) }
{
    put_number(b"{\"answer\":\"none\",\"column\":", asked.column, output);
    put_function_member(asked.function, output);
    put_number(b",\"line\":", asked.line, output);
    put_end(asked.url, output);
}

/// Puts the URL that was asked for, where one was, behind other members, and the end of the object.
pub fn put_end<O: Output>(url: Option<&str>, output: &mut O)
    ensures { O.Puts output.old output.new
        (members_text true (url_members (option_map (λ url. url.now) url.entry))) }
{
    match url {
        None => output.put(b"}"),
        Some(url) => {
            output.put(b",\"url\":");
            put_json_text(Some(url), output);
            output.put(b"}");
        }
    }
}

// Puts that the mapping that answers, which stands at this column, has no original.
fn put_unmapped<O: Output>(asked: AskedPosition<'_>, generated_column: u32, output: &mut O)
    ensures { O.Puts output.old output.new
        (compact_text (unmapped_value (option_map pieces_text asked.entry.function)
        (option_map (λ url. url.now) asked.entry.url)
        (record { line = asked.entry.line; column = asked.entry.column }) generated_column)) }
{
    put_number(
        b"{\"answer\":\"unmapped\",\"column\":",
        asked.column,
        output,
    );
    put_function_member(asked.function, output);
    put_number(b",\"generatedColumn\":", from_one(generated_column), output);
    put_number(b",\"line\":", asked.line, output);
    put_end(asked.url, output);
}

// Puts where the mapping that answers, which stands at this column, comes from.
fn put_found<O: Output>(
    map: &MapFile,
    asked: AskedPosition<'_>,
    generated_column: u32,
    origin: &Origin,
    context: Option<u32>,
    excerpt: Option<&str>,
    output: &mut O,
)
    ensures { O.Puts output.old output.new (compact_text
        (found_value context (option_map (λ excerpt. excerpt.now) excerpt.entry)
        (option_map pieces_text asked.entry.function)
        (option_map (λ url. url.now) asked.entry.url)
        (record { line = asked.entry.line; column = asked.entry.column }) generated_column
        origin.now
        (slice_get map.now.stated.sources origin.now.source)
        (option_and_then (slice_get map.now.stated.names) origin.now.name))) }
{
    let entry = map.source(origin.source);
    put_number(b"{\"answer\":\"found\",\"column\":", asked.column, output);
    put_context(entry, origin.line, context, output);
    put_excerpt(excerpt, output);
    put_function_member(asked.function, output);
    put_number(b",\"generatedColumn\":", from_one(generated_column), output);
    put_ignored(entry, output);
    put_number(b",\"line\":", asked.line, output);
    put_origin_members(entry, name_at(map, origin.name), origin, asked.url, output);
}

/// Puts whether a source is ignored, behind other members.
pub fn put_ignored<O: Output>(entry: Option<&SourceEntry>, output: &mut O)
    ensures { O.Puts output.old output.new (ignored_member
        (is_ignored_where (option_map (λ entry. source_of entry.now) entry.entry))) }
{
    output.put(b",\"ignored\":");
    output.put(bool_text(is_ignored(entry)));
}

// Puts the members that say where a mapping comes from, behind others, the URL that was asked for, where one was, and the
// end of the object.
fn put_origin_members<O: Output>(
    entry: Option<&SourceEntry>,
    name: Option<&str>,
    origin: &Origin,
    url: Option<&str>,
    output: &mut O,
)
    ensures { O.Puts output.old output.new (members_text true
        (origin_members origin.now (option_map (λ entry. source_of entry.now) entry.entry)
        (option_map (λ name. name.now) name.entry)
        (url_members (option_map (λ url. url.now) url.entry)))) }
{
    output.put(b",\"name\":");
    put_json_text(name, output);
    put_number(b",\"originalColumn\":", from_one(origin.column), output);
    put_number(b",\"originalLine\":", from_one(origin.line), output);
    output.put(b",\"source\":");
    put_json_text(source_name(entry), output);
    put_number(b",\"sourceIndex\":", u64::from(origin.source), output);
    put_end(url, output);
}

/// Puts the line for a mapping.
pub fn put_mapping_object<O: Output>(map: &MapFile, mapping: &Mapping, output: &mut O)
    ensures { O.Puts output.old output.new
        (json_line (mapping_value map.now.stated mapping.now)) }
{
    match mapping.origin {
        None => put_bare(mapping.line, mapping.column, output),
        Some(origin) => put_mapped(map, mapping.line, mapping.column, &origin, output),
    }
    output.put(b"\n");
}

// Puts that a mapping of this line and column has no original.
fn put_bare<O: Output>(line: u32, column: u32, output: &mut O)
    ensures { O.Puts output.old output.new (compact_text (bare_value line column)) }
{
    put_number(
        b"{\"answer\":\"unmapped\",\"generatedColumn\":",
        from_one(column),
        output,
    );
    put_number(b",\"generatedLine\":", from_one(line), output);
    output.put(b"}");
}

// Puts where a mapping of this line and column comes from.
fn put_mapped<O: Output>(map: &MapFile, line: u32, column: u32, origin: &Origin, output: &mut O)
    ensures { O.Puts output.old output.new (compact_text
        (mapped_value line column origin.now
        (slice_get map.now.stated.sources origin.now.source)
        (option_and_then (slice_get map.now.stated.names) origin.now.name))) }
{
    let entry = map.source(origin.source);
    put_number(
        b"{\"answer\":\"found\",\"generatedColumn\":",
        from_one(column),
        output,
    );
    put_number(b",\"generatedLine\":", from_one(line), output);
    put_ignored(entry, output);
    put_origin_members(entry, name_at(map, origin.name), origin, None, output);
}

/// A truth value as JSON.
pub fn bool_text(value: bool) -> &'static [u8]
    ensures { result.now ≡ compact_text (boolean value) }
{
    if value { b"true" } else { b"false" }
}

// Puts the member that holds an excerpt, where there is one.
fn put_excerpt<O: Output>(excerpt: Option<&str>, output: &mut O)
    ensures { O.Puts output.old output.new
        (excerpt_member (option_map (λ excerpt. excerpt.now) excerpt.entry)) }
{
    if let Some(excerpt) = excerpt {
        output.put(b",\"excerpt\":");
        put_lines(excerpt, output);
    }
}

// Puts the two lines of an excerpt.
fn put_lines<O: Output>(excerpt: &str, output: &mut O)
    ensures { O.Puts output.old output.new (compact_text (excerpt_value excerpt.now)) }
{
    let (line, caret) = lines_of(excerpt);
    output.put(b"[");
    put_json_text(Some(line), output);
    output.put(b",");
    put_json_text(Some(caret), output);
    output.put(b"]");
}

fn lines_of(excerpt: &str) -> (&str, &str)
    ensures line { result.0.now ≡ before_first (λ byte. nat_eq byte 10) excerpt.now }
    ensures caret { result.1.now ≡ after_first (λ byte. nat_eq byte 10) excerpt.now }
{
    match excerpt.split_once('\n') {
        Some(cut) => cut,
        None => (excerpt, ""),
    }
}
