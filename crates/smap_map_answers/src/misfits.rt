//! Why a map does not fit its generated file.
ghost use Rattle.std.specs.Prelude.{◌≡◌, option_map, string_bytes, IfOk};
ghost use Rattle.std.specs.Str.{chars};
ghost use Rattle.smap_map_answers.specs.Misfits.{best_cause, better_text, cause_of, column_within, columns_cause, distance};
ghost use Rattle.smap_map_answers.specs.Misfits.{excerpt_lines, first_text, is_still};
ghost use Rattle.smap_map_answers.specs.Misfits.{lines_cause, misfits_text, move_text, place_excerpt, place_line};
ghost use Rattle.smap_map_answers.specs.Misfits.{plural, shift_text};

use smap_fit::{BestShift, Fit, Move, Shift, code_of};
use smap_record::Mapping;
use smap_text::{excerpt, line_at, units};
use std::alloc::{AllocError, Global};

/// Where the first mappings stand that do not fit a text, in each way, and with which shift of all fewest do not.
pub fn misfits_text(
    alloc: Global,
    text: &str,
    fit: &Fit,
    best: &BestShift,
) -> Result<String, AllocError>
    ensures { IfOk result (λ shown. string_bytes shown ≡ misfits_text text.now fit.now best.now) }
{
    let past = first_text(alloc, "past the text", text, fit.first_past)?;
    let inside = first_text(alloc, "inside a word", text, fit.first_inside)?;
    let better = better_text(alloc, best)?;
    format!(in alloc; "{past}{inside}{better}")
}

// The first mapping that does not fit in this way, if there is one, and the line about it.
fn first_text(
    alloc: Global,
    way: &str,
    text: &str,
    mapping: Option<Mapping>,
) -> Result<String, AllocError>
    ensures { IfOk result (λ shown. string_bytes shown ≡ first_text way.now text.now mapping) }
{
    let Some(mapping) = mapping else {
        return Ok(String::new(alloc));
    };
    let line = place_line(alloc, way, &mapping)?;
    let shown = excerpt_lines(alloc, text, &mapping)?;
    format!(in alloc; "{line}{shown}")
}

fn place_line(alloc: Global, way: &str, mapping: &Mapping) -> Result<String, AllocError>
    ensures { IfOk result (λ shown. string_bytes shown ≡ place_line way.now mapping.now) }
{
    let line = u64::from(mapping.line) + 1;
    let column = u64::from(mapping.column) + 1;
    format!(in alloc; "  first {way}: {line}:{column}\n")
}

// The excerpt that shows where a mapping stands, or the end of its line, if there is that line.
fn excerpt_lines(alloc: Global, text: &str, mapping: &Mapping) -> Result<String, AllocError>
    ensures { IfOk result (λ shown. string_bytes shown
        ≡ excerpt_lines (place_excerpt text.now mapping.now)) }
{
    match place_excerpt(alloc, text, mapping)? {
        Some(shown) => format!(in alloc; "{shown}\n"),
        None => Ok(String::new(alloc)),
    }
}

fn place_excerpt(alloc: Global, text: &str, mapping: &Mapping) -> Result<Option<String>, AllocError>
    ensures { IfOk result (λ shown. option_map string_bytes shown
        ≡ place_excerpt text.now mapping.now) }
{
    let code = code_of(text);
    let Some(line) = line_at(code, mapping.line) else {
        return Ok(None);
    };
    let column = column_within(line, mapping.column);
    excerpt(alloc, code, mapping.line, column)
}

// A column of a line, or its end where that is before it.
fn column_within(line: &str, column: u32) -> u32
    ensures { result ≡ column_within (chars line.now) column }
{
    let end = units(line);
    if end < u64::from(column) {
        end as u32
    } else {
        column
    }
}

// The shift with which fewest mappings do not fit, if one is better than none, and what usually causes it.
fn better_text(alloc: Global, best: &BestShift) -> Result<String, AllocError>
    ensures { IfOk result (λ shown. string_bytes shown ≡ better_text best.now) }
{
    if is_still(&best.shift) {
        return String::from_str(
            alloc,
            "  no shift of all mappings fits better: it may be the map of another file, or of another build\n",
        );
    }
    let shift = shift_text(alloc, &best.shift)?;
    let (misfits, cause) = (best.misfits, best_cause(best));
    format!(in alloc; "  moved {shift}, {misfits} do not fit: {cause}\n")
}

fn shift_text(alloc: Global, shift: &Shift) -> Result<String, AllocError>
    ensures { IfOk result (λ shown. string_bytes shown ≡ shift_text shift.now) }
{
    if distance(shift.columns) == 0 {
        return move_text(alloc, shift.lines, " line", " down", " up");
    }
    let columns = move_text(alloc, shift.columns, " column", " right", " left")?;
    if distance(shift.lines) == 0 {
        return Ok(columns);
    }
    let lines = move_text(alloc, shift.lines, " line", " down", " up")?;
    format!(in alloc; "{lines}, {columns}")
}

fn move_text(
    alloc: Global,
    by: Move,
    noun: &str,
    on: &str,
    back: &str,
) -> Result<String, AllocError>
    ensures { IfOk result (λ shown. string_bytes shown ≡ move_text noun.now on.now back.now by) }
{
    match by {
        Move::On(far) => {
            let many = plural(far);
            format!(in alloc; "{far}{noun}{many}{on}")
        }
        Move::Back(far) => {
            let many = plural(far);
            format!(in alloc; "{far}{noun}{many}{back}")
        }
    }
}

fn plural(number: u32) -> &'static str
    ensures { result.now ≡ plural number }
{
    if number == 1 { "" } else { "s" }
}

// Whether no line and no column is moved.
fn is_still(shift: &Shift) -> bool
    ensures { result ≡ is_still shift.now }
{
    distance(shift.lines) == 0 && distance(shift.columns) == 0
}

fn distance(by: Move) -> u32
    ensures { result ≡ distance by }
{
    match by {
        Move::On(by) | Move::Back(by) => by,
    }
}

// What usually causes it, where all fit that are moved so.
fn best_cause(best: &BestShift) -> &'static str
    ensures { result.now ≡ best_cause best.now }
{
    if best.misfits == 0 {
        cause_of(&best.shift)
    } else {
        "it may be the map of another file, or of another build"
    }
}

// What usually causes it that all are moved so.
fn cause_of(shift: &Shift) -> &'static str
    ensures { result.now ≡ cause_of shift.now }
{
    if distance(shift.columns) == 0 {
        lines_cause(shift.lines)
    } else {
        columns_cause(shift.columns)
    }
}

fn lines_cause(by: Move) -> &'static str
    ensures { result.now ≡ lines_cause by }
{
    match by {
        Move::On(_) => {
            "lines that the build did not write, such as a banner, may stand at the top of the text"
        }
        Move::Back(_) => "lines may have been taken from the top of the text",
    }
}

fn columns_cause(by: Move) -> &'static str
    ensures { result.now ≡ columns_cause by }
{
    match by {
        Move::On(_) => "other text, such as a wrapper, may stand before the lines",
        Move::Back(_) => "the columns of the map may count from 1",
    }
}
