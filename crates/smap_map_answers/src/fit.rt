//! Whether maps can be those of their generated files.
ghost use Rattle.std.specs.Prelude.{◌≡◌, ◌+◌, ◌*◌, ◌<◌, ◌^◌, ◌&&◌, false, not, option_copied, option_map, string_bytes, IfOk};
ghost use Rattle.serde_json.specs.View.{view};
ghost use Rattle.smap_map_answers.specs.Fit.{FitsAll, FitsPair, FitsText, IsFitReported, IsWhyTold, fit_line, fit_value};
ghost use Rattle.smap_map_answers.specs.Fit.{fits_line, misfits_line, place_value};
ghost use Rattle.smap_command.specs.Options.{is_json};
ghost use Rattle.smap_fit.specs.Fit.{fits};
ghost use Rattle.smap_printing.specs.Json.{json_line};
ghost use Rattle.smap_record.specs.Written.{value_of_text};
ghost use Rattle.smap_replies.specs.Outcome.{OrMemory, reply_report, report_of};
ghost use Rattle.smap_replies.specs.Streams.{sinks_seen};

use crate::check_lines::object_line;
use crate::misfits::misfits_text;
use serde_json::{Value, json};
use smap_codes::Code;
use smap_command::{FitOptions, Form};
use smap_fit::{Fit, best_shift, fit_of};
use smap_io::ByteSink;
use smap_record::{MapFile, Mapping};
use smap_replies::{DONE, Failure, FileReader, MapReader, Reply, read_map, read_text, report};
use smap_text::shown;
use std::alloc::{AllocError, Global};

// A map and its generated file.
#[derive(Clone, Copy)]
struct Pair<'a> {
    // Its number, from 0.
    number: usize,
    // The path of the map.
    map: &'a str,
    generated: &'a str,
}

/// Says of each map of the command whether it can be that of its generated file. A pair is read, reported and let go before
/// the next is read, also where a file is refused or can't be read, or memory runs out. Gives the greatest status of all,
/// which is 1 for a map that does not fit. Where standard output fails, nothing more is read. The caller gives a standard
/// output that has not failed. The code of the first refusal that is reported on standard error is put into `first`, where
/// that has none.
pub fn answer_fit<F: FileReader, W: ByteSink, E: ByteSink>(
    alloc: Global,
    reader: &F,
    asked: &smap_command::Fit,
    output: &mut W,
    errors: &mut E,
    first: &mut Option<Code>,
) -> u8
    requires output_works { (W.seen output.old).failed ≡ false }
    ensures { FitsAll (F.gives reader.now) asked.now result
        (sinks_seen (W.seen output.old) (E.seen errors.old) first.old)
        (sinks_seen (W.seen output.new) (E.seen errors.new) first.new) }
{
    let paths = asked.paths.as_slice();
    let mut status = DONE;
    for number in 0..paths.len() / 2 {
        let (at, behind) = (2 * number, 2 * number + 1);
        let pair = Pair {
            number,
            map: &paths[at],
            generated: &paths[behind],
        };
        let outcome = fitted_pair(alloc, reader, pair, asked.options);
        status = status.max(report(&outcome, output, errors, first));
        if output.failed() {
            break;
        }
    }
    status
}

// What is said of a pair.
fn fitted_pair<F: FileReader>(
    alloc: Global,
    reader: &F,
    pair: Pair<'_>,
    options: FitOptions,
) -> Result<Reply, Failure>
    requires { 2 * pair.number + 1 < 2 ^ 64 }
    ensures { OrMemory (FitsPair (F.gives reader.now) options pair.entry.number
        (pair.entry.map.now, pair.entry.generated.now)) (report_of result) }
{
    let map = read_map(
        alloc,
        &MapReader::usual(reader, None),
        2 * pair.number,
        pair.map,
    )?;
    fitted_map(alloc, reader, &map, pair, options)
}

// What is said of its map.
fn fitted_map<F: FileReader>(
    alloc: Global,
    reader: &F,
    map: &MapFile,
    pair: Pair<'_>,
    options: FitOptions,
) -> Result<Reply, Failure>
    requires { 2 * pair.number + 1 < 2 ^ 64 }
    ensures { OrMemory (FitsText (F.gives reader.now) options pair.entry.number
        (pair.entry.map.now, pair.entry.generated.now) map.now.stated) (report_of result) }
{
    let text = read_text(alloc, reader, 2 * pair.number + 1, pair.generated)?;
    let reply = fit_reply(alloc, map, &text, pair, options)?;
    Ok(reply)
}

// What is said of a map and a text, which are called so.
fn fit_reply(
    alloc: Global,
    map: &MapFile,
    text: &str,
    pair: Pair<'_>,
    options: FitOptions,
) -> Result<Reply, AllocError>
    ensures { IfOk result (λ reply. IsFitReported options pair.entry.map.now
        pair.entry.generated.now text.now map.now.stated (reply_report reply)) }
{
    let fit = fit_of(alloc, map, text)?;
    let why = why_text(alloc, map, text, &fit, options.explain)?;
    let line = fit_line(
        alloc,
        pair.map,
        pair.generated,
        fit,
        why.as_deref(),
        options.form,
    )?;
    if fit.fits() {
        Ok(Reply::Text(line))
    } else {
        Ok(Reply::Refused(line))
    }
}

// Why a map does not fit a text, where that is asked and it does not.
fn why_text(
    alloc: Global,
    map: &MapFile,
    text: &str,
    fit: &Fit,
    explain: bool,
) -> Result<Option<String>, AllocError>
    ensures { IfOk result (λ why. IsWhyTold (explain && not (fits fit.now)) text.now
        map.now.stated fit.now (option_map string_bytes why)) }
{
    if !explain || fit.fits() {
        return Ok(None);
    }
    let best = best_shift(alloc, map, text)?;
    Ok(Some(misfits_text(alloc, text, fit, &best)?))
}

fn fit_line(
    alloc: Global,
    map: &str,
    generated: &str,
    fit: Fit,
    why: Option<&str>,
    form: Form,
) -> Result<String, AllocError>
    ensures { IfOk result (λ line. string_bytes line
        ≡ fit_line (is_json form) map.now generated.now fit (option_copied why.entry)) }
{
    if form.is_json() {
        return fit_object(alloc, map, generated, fit, why);
    }
    let mut line = if fit.fits() {
        fits_line(alloc, map, fit)?
    } else {
        misfits_line(alloc, map, generated, fit)?
    };
    line.push_str(why.unwrap_or(""))?;
    Ok(line)
}

// The line as JSON.
fn fit_object(
    alloc: Global,
    map: &str,
    generated: &str,
    fit: Fit,
    why: Option<&str>,
) -> Result<String, AllocError>
    ensures { IfOk result (λ line. string_bytes line
        ≡ json_line (fit_value map.now generated.now fit (option_copied why.entry))) }
{
    let value = fit_value(alloc, map, generated, fit, why)?;
    let text = value.to_string(alloc)?;
    let line = object_line(text)?;
    Ok(line)
}

fn fits_line(alloc: Global, map: &str, fit: Fit) -> Result<String, AllocError>
    ensures { IfOk result (λ line. string_bytes line ≡ fits_line map.now fit) }
{
    let map = shown(alloc, map)?;
    let Fit {
        mappings,
        compared,
        same,
        ..
    } = fit;
    format!(in alloc; "{map}: fits, {mappings} mappings, {same} same of {compared}\n")
}

fn misfits_line(alloc: Global, map: &str, generated: &str, fit: Fit) -> Result<String, AllocError>
    ensures { IfOk result (λ line. string_bytes line
        ≡ misfits_line map.now generated.now fit) }
{
    let map = shown(alloc, map)?;
    let generated = shown(alloc, generated)?;
    let Fit {
        mappings,
        past,
        inside,
        ..
    } = fit;
    let of = format!(in alloc; "{inside} inside a word, of {mappings} mappings\n")?;
    format!(in alloc; "{map}: does not fit {generated}: {past} past the text, {of}")
}

fn fit_value(
    alloc: Global,
    map: &str,
    generated: &str,
    fit: Fit,
    why: Option<&str>,
) -> Result<Value, AllocError>
    ensures { IfOk result (λ value. view value
        ≡ fit_value map.now generated.now fit (option_copied why.entry)) }
{
    let fits = fit.fits();
    let explanation = text_value(alloc, why)?;
    let first_inside = place_value(alloc, fit.first_inside)?;
    let first_past = place_value(alloc, fit.first_past)?;
    json!(in alloc; {
        "compared": fit.compared,
        "explanation": explanation,
        "firstInside": first_inside,
        "firstPast": first_past,
        "fits": fits,
        "generated": generated,
        "inside": fit.inside,
        "map": map,
        "mappings": fit.mappings,
        "outside": fit.outside,
        "past": fit.past,
        "same": fit.same
    })
}

// A text, or null where there is none.
fn text_value(alloc: Global, text: Option<&str>) -> Result<Value, AllocError>
    ensures { IfOk result (λ value. view value ≡ value_of_text (option_copied text.entry)) }
{
    match text {
        Some(text) => Value::try_from_str(alloc, text),
        None => Ok(Value::Null),
    }
}

// Where a mapping stands, by its line and column from 1; null where there is none.
fn place_value(alloc: Global, mapping: Option<Mapping>) -> Result<Value, AllocError>
    ensures { IfOk result (λ value. view value ≡ place_value mapping) }
{
    match mapping {
        Some(mapping) => json!(in alloc; {
            "column": u64::from(mapping.column) + 1,
            "line": u64::from(mapping.line) + 1
        }),
        None => Ok(Value::Null),
    }
}
