//! What is printed of the sources of a map.
ghost use Rattle.std.specs.Prelude.{◌≡◌, ◌++◌, option_copied, option_map, slice_get, false, IfOk};
ghost use Rattle.std.specs.List.{flat_map};
ghost use Rattle.serde_json.specs.Written.{members_text};
ghost use Rattle.smap_record.specs.Sources.{source_of};
ghost use Rattle.smap_printing.specs.Json.{json_line};
ghost use Rattle.smap_printing.specs.Lines.{ignored_text};
ghost use Rattle.smap_printing.specs.Private.Members.{row_front};
ghost use Rattle.smap_printing.specs.Sources.{IsSourcesText, bytes_text, has_content, no_content_text};
ghost use Rattle.smap_printing.specs.Sources.{misfits_in, misfits_line, misfits_value, printed_misfits};
ghost use Rattle.smap_printing.specs.Sources.{printed_row, printed_totals, row_line, row_members, row_value};
ghost use Rattle.smap_printing.specs.Sources.{totals_lines, totals_value};

use crate::growing_text::GrowingText;
use crate::json_form::{bool_text, put_ignored};
use crate::map_text::put_json_text;
use crate::output::{Output, put_number};
use crate::text_form::put_source;
use smap_command::{Form, SourceOptions};
use smap_fit::{SourceRow, fit_of, source_table};
use smap_record::{MapFile, SourceEntry, is_ignored, source_name};
use std::alloc::{AllocError, Global};

/// What is printed of the sources of a map, a line each as JSON or as text: its index, how many segments it has and, where
/// the generated text is given, how many bytes of it the source makes; and then how many come from none, and how many there
/// are. Where it is asked for, there is at last how many mappings do not fit that text.
pub fn sources_text(
    alloc: Global,
    map: &MapFile,
    generated: Option<&str>,
    options: SourceOptions,
) -> Result<Vec<u8>, AllocError>
    ensures { IfOk result (λ text. IsSourcesText options map.now.stated
        (option_copied generated.entry) text.items) }
{
    let table = source_table(alloc, map, generated, options.by_bytes)?;
    let misfits = misfits_in(alloc, map, generated, options.fit)?;
    let mut text = GrowingText::new(alloc);
    put_rows(map, &table.rows, options.form, &mut text);
    put_totals(table.unmapped, generated, options.form, &mut text);
    put_misfits(misfits, options.form, &mut text);
    text.text()
}

// How many mappings do not fit the generated text, where that is asked for and it is given.
fn misfits_in(
    alloc: Global,
    map: &MapFile,
    generated: Option<&str>,
    asked: bool,
) -> Result<Option<u64>, AllocError>
    ensures { IfOk result (λ misfits. misfits
        ≡ misfits_in asked map.now.stated (option_copied generated.entry)) }
{
    if !asked {
        return Ok(None);
    }
    let Some(text) = generated else {
        return Ok(None);
    };
    let fit = fit_of(alloc, map, text)?;
    Ok(Some(fit.misfits()))
}

// Puts the lines for rows of a map.
fn put_rows<O: Output>(map: &MapFile, rows: &[SourceRow], form: Form, output: &mut O)
    ensures { O.Puts output.old output.new (flat_map (printed_row form map.now.stated) rows.now) }
{
    for row in rows {
        put_row(map, row, form, output);
    }
}

// Puts the line for a row.
fn put_row<O: Output>(map: &MapFile, row: &SourceRow, form: Form, output: &mut O)
    ensures { O.Puts output.old output.new (printed_row form map.now.stated row.now) }
{
    let entry = map.source(row.source);
    if form.is_json() {
        put_row_object(entry, row, output)
    } else {
        put_row_line(entry, row, output)
    }
}

// Puts the line for a row of a source as text.
fn put_row_line<O: Output>(entry: Option<&SourceEntry>, row: &SourceRow, output: &mut O)
    ensures { O.Puts output.old output.new
        (row_line row.now (option_map (λ entry. source_of entry.now) entry.entry)) }
{
    output.put_decimal(u64::from(row.source));
    put_number(b" ", row.segments, output);
    put_bytes(row.bytes, output);
    output.put(b" ");
    put_source(source_name(entry), row.source, false, output);
    output.put(ignored_text(is_ignored(entry)));
    output.put(no_content_text(has_content(entry)));
    output.put(b"\n");
}

// Puts how many bytes a source makes, where that is known.
fn put_bytes<O: Output>(bytes: Option<u64>, output: &mut O)
    ensures { O.Puts output.old output.new (bytes_text bytes) }
{
    if let Some(bytes) = bytes {
        put_number(b" ", bytes, output);
    }
}

fn ignored_text(ignored: bool) -> &'static [u8]
    ensures { result.now ≡ ignored_text ignored }
{
    if ignored { b" ignored" } else { b"" }
}

fn no_content_text(held: bool) -> &'static [u8]
    ensures { result.now ≡ no_content_text held }
{
    if held { b"" } else { b" no content" }
}

// Whether the map has the content of a source.
fn has_content(entry: Option<&SourceEntry>) -> bool
    ensures { result ≡ has_content (option_map (λ entry. source_of entry.now) entry.entry) }
{
    entry.is_some_and(|entry| entry.content.is_some())
}

// Puts the line for a row of a source as JSON.
fn put_row_object<O: Output>(entry: Option<&SourceEntry>, row: &SourceRow, output: &mut O)
    ensures { O.Puts output.old output.new (json_line
        (row_value row.now (option_map (λ entry. source_of entry.now) entry.entry))) }
{
    put_front(row.bytes, output);
    put_members(entry, row, output);
    output.put(b"\n");
}

// Puts the beginning of the object of a source.
fn put_front<O: Output>(bytes: Option<u64>, output: &mut O)
    ensures { O.Puts output.old output.new (row_front bytes) }
{
    match bytes {
        Some(bytes) => {
            put_number(b"{\"bytes\":", bytes, output);
            output.put(b",");
        }
        None => output.put(b"{"),
    }
}

// Puts what is said of each source, and the end of its object.
fn put_members<O: Output>(entry: Option<&SourceEntry>, row: &SourceRow, output: &mut O)
    ensures { O.Puts output.old output.new (members_text false
        (row_members row.now (option_map (λ entry. source_of entry.now) entry.entry))) }
{
    output.put(b"\"content\":");
    output.put(bool_text(has_content(entry)));
    put_ignored(entry, output);
    put_number(b",\"segments\":", row.segments, output);
    output.put(b",\"source\":");
    put_json_text(source_name(entry), output);
    put_number(b",\"sourceIndex\":", u64::from(row.source), output);
    output.put(b"}");
}

// Puts how many bytes come from no source, and how many there are, where the generated text is given.
fn put_totals<O: Output>(unmapped: u64, generated: Option<&str>, form: Form, output: &mut O)
    ensures { O.Puts output.old output.new
        (printed_totals form unmapped (option_copied generated.entry)) }
{
    if let Some(text) = generated {
        let total = text.len() as u64;
        if form.is_json() {
            put_totals_object(unmapped, total, output)
        } else {
            put_totals_lines(unmapped, total, output)
        }
    }
}

fn put_totals_lines<O: Output>(unmapped: u64, total: u64, output: &mut O)
    ensures { O.Puts output.old output.new (totals_lines unmapped total) }
{
    put_number(b"unmapped ", unmapped, output);
    put_number(b"\ntotal ", total, output);
    output.put(b"\n");
}

fn put_totals_object<O: Output>(unmapped: u64, total: u64, output: &mut O)
    ensures { O.Puts output.old output.new (json_line (totals_value unmapped total)) }
{
    put_number(b"{\"total\":", total, output);
    put_number(b",\"unmapped\":", unmapped, output);
    output.put(b"}");
    output.put(b"\n");
}

// Puts how many mappings do not fit, where that is known.
fn put_misfits<O: Output>(misfits: Option<u64>, form: Form, output: &mut O)
    ensures { O.Puts output.old output.new (printed_misfits form misfits) }
{
    if let Some(misfits) = misfits {
        if form.is_json() {
            put_misfits_object(misfits, output)
        } else {
            put_misfits_line(misfits, output)
        }
    }
}

fn put_misfits_line<O: Output>(misfits: u64, output: &mut O)
    ensures { O.Puts output.old output.new (misfits_line misfits) }
{
    put_number(b"misfits ", misfits, output);
    output.put(b"\n");
}

fn put_misfits_object<O: Output>(misfits: u64, output: &mut O)
    ensures { O.Puts output.old output.new (json_line (misfits_value misfits)) }
{
    put_number(b"{\"misfits\":", misfits, output);
    output.put(b"}");
    output.put(b"\n");
}
