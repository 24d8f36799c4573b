//! What is reported where rewriting over files and folders of maps ends.
ghost use Rattle.std.specs.Prelude.{◌≡◌, string_bytes, IfOk};
ghost use Rattle.smap_text_answers.specs.RewriteFrom.{Hints, HintsCounts, ReportsSummary, SumsUp, has_passed};
ghost use Rattle.smap_text_answers.specs.Lines.{counted_text};
ghost use Rattle.smap_text_answers.specs.RewriteFrom.{is_as_it_was, is_silent, maps_text, none_mapped_line, none_mapped_text, passed_text};
ghost use Rattle.smap_text_answers.specs.RewriteFrom.{summary_line, trace_text};
ghost use Rattle.smap_text_answers.specs.Request.{request_seen};
ghost use Rattle.smap_trace.specs.NotesSeen.{notes_seen};

use crate::request::TextRequest;
use crate::storing::StoreEnd;
use smap_io::ByteSink;
use smap_replies::{DONE, FAILED, FileReader, NO_MEMORY, print_error};
use smap_trace::{RewriteCounts, UrlNotes};
use std::alloc::{AllocError, Global};

// What takes the places that were passed over, some of which stand beside frames.
const PASSED: &str = "smap rewrite --anywhere takes places anywhere in a line\n";

/// Reports what was done, where that is asked, or that memory ran out for it; and gives the status of that.
pub fn sum_up<F: FileReader, E: ByteSink>(
    alloc: Global,
    request: &TextRequest<'_, '_, F>,
    end: &StoreEnd<RewriteCounts>,
    errors: &mut E,
) -> u8
    ensures { SumsUp end.now request.now.options.now.summary
        request.now.options.now.anywhere result
        (E.seen errors.old) (E.seen errors.new) }
{
    if !request.options.summary {
        return DONE;
    }
    match end.result {
        Ok(counts) => report_summary(alloc, end, request.options.anywhere, &counts, errors),
        Err(_) => DONE,
    }
}

// Reports what was done, or that memory ran out, and gives the status of that.
fn report_summary<E: ByteSink>(
    alloc: Global,
    end: &StoreEnd<RewriteCounts>,
    anywhere: bool,
    counts: &RewriteCounts,
    errors: &mut E,
) -> u8
    ensures { ReportsSummary (summary_line end.now anywhere counts.now) result
        (E.seen errors.old) (E.seen errors.new) }
{
    match summary_line(alloc, end, anywhere, counts) {
        Ok(line) => {
            print_error(errors, line.as_bytes());
            DONE
        }
        Err(_) => {
            print_error(errors, NO_MEMORY.as_bytes());
            FAILED
        }
    }
}

// Standard error: what was done.
fn summary_line(
    alloc: Global,
    end: &StoreEnd<RewriteCounts>,
    anywhere: bool,
    counts: &RewriteCounts,
) -> Result<String, AllocError>
    ensures { IfOk result (λ text. string_bytes text ≡ summary_line end.now anywhere counts.now) }
{
    let (trace, maps) = (trace_text(alloc, counts)?, maps_text(alloc, end)?);
    let passed = passed_text(alloc, anywhere, counts)?;
    format!(in alloc; "ok {trace} {maps}{passed}\n")
}

// What was in the trace, for one line.
fn trace_text(alloc: Global, counts: &RewriteCounts) -> Result<String, AllocError>
    ensures { IfOk result (λ text. string_bytes text ≡ trace_text counts.now) }
{
    let RewriteCounts { summary, long, .. } = *counts;
    let (lines, frames, mapped, hidden) = (
        summary.lines,
        summary.frames,
        summary.mapped,
        summary.hidden,
    );
    format!(in alloc; "lines {lines} frames {frames} mapped {mapped} hidden {hidden} long {long}")
}

// How many maps were read, for one line, and how many were not.
fn maps_text(alloc: Global, end: &StoreEnd<RewriteCounts>) -> Result<String, AllocError>
    ensures { IfOk result (λ text. string_bytes text ≡ maps_text end.now) }
{
    let (maps, missing, refused) = (end.maps, end.missing, end.refused);
    format!(in alloc; "maps {maps} missing {missing} refused {refused}")
}

// How many places were passed, for the end of the line, where not all places are rewritten.
fn passed_text(alloc: Global, anywhere: bool, counts: &RewriteCounts) -> Result<String, AllocError>
    ensures { IfOk result (λ text. string_bytes text ≡ passed_text anywhere counts.now) }
{
    if anywhere {
        return Ok(String::new(alloc));
    }
    let passed = counts.passed;
    format!(in alloc; " passed {passed}")
}

/// Tells a terminal, where nothing else was said up to this status, how many frames there were where none was replaced, and
/// what takes the places that were passed over; and gives the status of that.
pub fn hint<F: FileReader, E: ByteSink>(
    alloc: Global,
    request: &TextRequest<'_, '_, F>,
    end: &StoreEnd<RewriteCounts>,
    notes: &UrlNotes,
    said: u8,
    errors: &mut E,
) -> u8
    ensures { Hints (request_seen request.now) end.now (notes_seen notes.now) said result
        (E.seen errors.old) (E.seen errors.new) }
{
    if !is_silent(request, notes, said) {
        return DONE;
    }
    match end.result {
        Ok(counts) => hint_counts(alloc, request, &counts, errors),
        Err(_) => DONE,
    }
}

// Whether nothing else was said up to this status.
fn is_silent<F: FileReader>(request: &TextRequest<'_, '_, F>, notes: &UrlNotes, said: u8) -> bool
    ensures { result ≡ is_silent (request_seen request.now) (notes_seen notes.now) said }
{
    let options = request.options;
    let is_silent = !options.summary && (!options.explain || notes.notes.is_empty());
    request.hint && is_silent && said == DONE
}

// Tells of a text that has these counts, and gives the status of that.
fn hint_counts<F: FileReader, E: ByteSink>(
    alloc: Global,
    request: &TextRequest<'_, '_, F>,
    counts: &RewriteCounts,
    errors: &mut E,
) -> u8
    ensures { HintsCounts (request_seen request.now) counts.now result
        (E.seen errors.old) (E.seen errors.new) }
{
    if is_as_it_was(request, counts) {
        return report_none_mapped(alloc, request.options.anywhere, counts, errors);
    }
    if has_passed(counts) {
        print_error(errors, PASSED.as_bytes());
    }
    DONE
}

// Whether a text came out as it went in, and has something in which that may be a mistake.
fn is_as_it_was<F: FileReader>(request: &TextRequest<'_, '_, F>, counts: &RewriteCounts) -> bool
    ensures { result ≡ is_as_it_was (request_seen request.now) counts.now }
{
    let summary = counts.summary;
    let is_same = summary.lines > 0 && summary.mapped == 0 && summary.hidden == 0;
    !request.options.explain && is_same && (summary.frames > 0 || !has_passed(counts))
}

// Whether places were passed over.
fn has_passed(counts: &RewriteCounts) -> bool
    ensures { result ≡ has_passed counts.now }
{
    counts.passed > 0
}

// Reports that no frame was replaced, or that memory ran out, and gives the status of that.
fn report_none_mapped<E: ByteSink>(
    alloc: Global,
    anywhere: bool,
    counts: &RewriteCounts,
    errors: &mut E,
) -> u8
    ensures { ReportsSummary (none_mapped_text anywhere counts.now) result
        (E.seen errors.old) (E.seen errors.new) }
{
    match none_mapped_text(alloc, anywhere, counts) {
        Ok(text) => {
            print_error(errors, text.as_bytes());
            DONE
        }
        Err(_) => {
            print_error(errors, NO_MEMORY.as_bytes());
            FAILED
        }
    }
}

// Standard error: how many frames there were, or places anywhere, and what takes those that were passed over.
fn none_mapped_text(
    alloc: Global,
    anywhere: bool,
    counts: &RewriteCounts,
) -> Result<String, AllocError>
    ensures { IfOk result (λ text. string_bytes text ≡ none_mapped_text anywhere counts.now) }
{
    let mut text = none_mapped_line(alloc, anywhere, counts)?;
    if has_passed(counts) {
        text.push_str(PASSED)?;
    }
    Ok(text)
}

// Standard error: how many frames there were, or places anywhere.
fn none_mapped_line(
    alloc: Global,
    anywhere: bool,
    counts: &RewriteCounts,
) -> Result<String, AllocError>
    ensures { IfOk result (λ text. string_bytes text ≡ none_mapped_line anywhere counts.now) }
{
    let (frames, counted) = (counts.summary.frames, counted_text(anywhere));
    format!(in alloc; "0 of {frames}{counted} mapped; --explain says why\n")
}

/// What is counted, for one line.
pub fn counted_text(anywhere: bool) -> &'static str
    ensures { result.now ≡ counted_text anywhere }
{
    if anywhere { " places" } else { " frames" }
}
