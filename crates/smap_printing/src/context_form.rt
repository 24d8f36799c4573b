//! The lines of a source around a place, as JSON.
ghost use Rattle.std.specs.Prelude.{◌≡◌, ◌||◌, Some, false, option_copied, option_map, take};
ghost use Rattle.std.specs.List.{list_any};
ghost use Rattle.std.specs.Str.{chars};
ghost use Rattle.serde_json.specs.Data.{string};
ghost use Rattle.serde_json.specs.Written.{compact_text};
ghost use Rattle.smap_printing.specs.Context.{context_of, is_cut, lines_value, shown_line, source_context};
ghost use Rattle.smap_printing.specs.Private.Lines.{item_text, lines_text};
ghost use Rattle.smap_printing.specs.Private.Members.{context_member, cut_member};
ghost use Rattle.smap_record.specs.Sources.{source_of};
ghost use Rattle.smap_text.specs.Lines.{lines_behind, lines_of};

use crate::map_text::put_json_text;
use crate::output::Output;
use smap_record::SourceEntry;
use smap_text::{rest_from, shown_bytes, split_line};

/// Puts the member with the lines of a source around this one, from 0, up to so many on each side, where they are asked for
/// and the map has the line.
pub fn put_context<O: Output>(
    entry: Option<&SourceEntry>,
    line: u32,
    most: Option<u32>,
    output: &mut O,
)
    ensures { O.Puts output.old output.new (context_member (source_context most
        (option_map (λ entry. source_of entry.now) entry.entry) line)) }
{
    if let Some(most) = most {
        put_source_context(entry, line, most, output);
    }
}

// The same, where they are asked for.
fn put_source_context<O: Output>(entry: Option<&SourceEntry>, line: u32, most: u32, output: &mut O)
    ensures { O.Puts output.old output.new (context_member (source_context (Some most)
        (option_map (λ entry. source_of entry.now) entry.entry) line)) }
{
    match entry {
        Some(
            SourceEntry {
                content: Some(content),
                ..
            },
        ) => put_around(content, line, most, output),
        _ => {}
    }
}

// The same of a content.
fn put_around<O: Output>(content: &str, line: u32, most: u32, output: &mut O)
    ensures { O.Puts output.old output.new (context_member (context_of content.now line most)) }
{
    let first = line.saturating_sub(most);
    let Some(before) = rest_from(content, first) else {
        return;
    };
    let Some(rest) = rest_from(before, line - first) else {
        return;
    };
    let (text, behind) = split_line(rest);
    output.put(b",\"context\":{\"after\":");
    let after_cut = put_behind(behind, most, output);
    output.put(b",\"before\":");
    let before_cut = put_lines(before, line - first, output);
    let text_cut = is_cut(text);
    put_cut(after_cut, before_cut, text_cut, output);
    output.put(b",\"line\":");
    put_line(text, output);
    output.put(b"}");
}

// Puts that a line is cut, where one is: of those behind, of those before, or the line itself.
fn put_cut<O: Output>(behind: bool, before: bool, line: bool, output: &mut O)
    ensures { O.Puts output.old output.new (cut_member (behind || before || line)) }
{
    if behind || before || line {
        output.put(b",\"cut\":true");
    }
}

// Puts the list of the first lines of what follows a line's end, where the line has one, and says whether one of them is
// cut.
fn put_behind<O: Output>(behind: Option<&str>, most: u32, output: &mut O) -> bool
    ensures lines { O.Puts output.old output.new (compact_text (lines_value
        (take most (lines_behind (option_copied behind.entry))))) }
    ensures cut { result ≡ list_any is_cut (take most (lines_behind (option_copied behind.entry))) }
{
    match behind {
        Some(text) => put_lines(text, most, output),
        None => {
            output.put(b"[]");
            false
        }
    }
}

// Puts the list of the first lines of a text, at most so many, and says whether one of them is cut.
fn put_lines<O: Output>(text: &str, most: u32, output: &mut O) -> bool
    ensures lines { O.Puts output.old output.new (compact_text (lines_value
        (take most (lines_of (chars text.now))))) }
    ensures cut { result ≡ list_any is_cut (take most (lines_of (chars text.now))) }
{
    output.put(b"[");
    let cut = put_items(text, most, output);
    output.put(b"]");
    cut
}

// The same without the brackets.
fn put_items<O: Output>(text: &str, most: u32, output: &mut O) -> bool
    ensures lines { O.Puts output.old output.new
        (lines_text false (take most (lines_of (chars text.now)))) }
    ensures cut { result ≡ list_any is_cut (take most (lines_of (chars text.now))) }
{
    let mut rest = text;
    let mut cut = false;
    for number in 0..most {
        let (line, behind) = split_line(rest);
        put_item(number > 0, line, output);
        cut |= is_cut(line);
        match behind {
            Some(next) => rest = next,
            None => return cut,
        }
    }
    cut
}

// Puts a line of a list, behind a comma where others stand before it.
fn put_item<O: Output>(later: bool, line: &str, output: &mut O)
    ensures { O.Puts output.old output.new (item_text later (chars line.now)) }
{
    if later {
        output.put(b",");
    }
    put_line(line, output);
}

// Puts what shows of a line.
fn put_line<O: Output>(line: &str, output: &mut O)
    ensures { O.Puts output.old output.new (compact_text (string (shown_line (chars line.now)))) }
{
    put_json_text(Some(&line[..shown_bytes(line)]), output);
}

// Whether not all of a line shows.
fn is_cut(line: &str) -> bool
    ensures { result ≡ is_cut (chars line.now) }
{
    shown_bytes(line) < line.len()
}
