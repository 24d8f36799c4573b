//! What is said at the end of the URLs that a text named.
ghost use Rattle.std.specs.Prelude.{◌≡◌, ◌+◌, ◌++◌, false, length, map, option_copied, take, string_bytes, IfOk};
ghost use Rattle.smap_replies.specs.Arguments.{argument_of};
ghost use Rattle.smap_text.specs.Shown.{shown};
ghost use Rattle.smap_text_answers.specs.Request.{fit_number, request_seen};
ghost use Rattle.smap_text_answers.specs.UrlLines.{AreAllLines, AreUrlLines, IsUrlLine, TellsUrls};
ghost use Rattle.smap_text_answers.specs.NothingLine.{nothing_line};
ghost use Rattle.smap_text_answers.specs.UrlLines.{counts_text, frames_text, places_text};
ghost use Rattle.smap_trace.specs.NotesSeen.{note_seen, notes_seen};

mod ends;
mod nothing;

use crate::loader::FileLoader;
use crate::text_over_store::TextRun;
use crate::told::ToldLines;
use crate::url_lines::ends::end_of;
use crate::url_lines::nothing::nothing_line;
use smap_anywhere::PlaceNotes;
use smap_io::ByteSink;
use smap_replies::{DONE, FAILED, FileReader, NO_MEMORY, print_error};
use smap_text::shown_byte;
use smap_trace::{RewriteCounts, UrlNote};
use std::alloc::{AllocError, Global};

// How many bytes of a URL are printed.
const MOST_URL_BYTES: usize = 1024;

/// Reports what became of the URLs that were noted, or why there is none, or that memory ran out, and gives the status of
/// that.
pub fn tell_urls<F: FileReader, E: ByteSink>(
    run: &TextRun<'_, '_, '_, F>,
    notes: &PlaceNotes,
    counts: &RewriteCounts,
    errors: &mut E,
) -> u8
    ensures { let request = run.now.request.now in
        TellsUrls (F.gives request.maps.now.files.now) request.options.now.paths
        (option_copied request.maps.now.base) request.maps.now.interval
        (length request.arguments.now + 1) (fit_number (request_seen request))
        (map argument_of request.arguments.now)
        run.now.sources.now.locations request.options.now.anywhere
        (nothing_line request.options.now.anywhere (map argument_of request.arguments.now) counts.now)
        (notes_seen notes.now.named) (notes_seen notes.now.others) result
        (E.seen errors.old) (E.seen errors.new) }
{
    match lines_of(run, notes, counts, errors) {
        Ok(text) => {
            print_error(errors, &text);
            DONE
        }
        Err(_) => {
            print_error(errors, NO_MEMORY.as_bytes());
            FAILED
        }
    }
}

// The lines of all URLs that were noted, or that there is none, where memory was enough.
fn lines_of<F: FileReader, E: ByteSink>(
    run: &TextRun<'_, '_, '_, F>,
    notes: &PlaceNotes,
    counts: &RewriteCounts,
    errors: &mut E,
) -> Result<Vec<u8>, AllocError>
    ensures same { errors.new ≡ errors.old }
    ensures enough { IfOk result (λ _. (notes.now.named.is_short ≡ false) ×
        (notes.now.others.is_short ≡ false)) }
    ensures lines { let request = run.now.request.now in IfOk result (λ text.
        AreAllLines (F.gives request.maps.now.files.now) request.options.now.paths
        (option_copied request.maps.now.base) request.maps.now.interval
        (length request.arguments.now + 1) (fit_number (request_seen request))
        (map argument_of request.arguments.now)
        run.now.sources.now.locations request.options.now.anywhere
        (nothing_line request.options.now.anywhere (map argument_of request.arguments.now) counts.now)
        (map note_seen notes.now.named.notes.items
        ++ map note_seen notes.now.others.notes.items)
        text.items) }
{
    if notes.named.is_short || notes.others.is_short {
        return Err(AllocError);
    }
    let request = run.request;
    let number = request.arguments.len() + 1;
    let mut told = ToldLines::new(run.alloc);
    let loader = FileLoader::new(
        request.maps,
        request.options.paths,
        number,
        request.fit_number(),
        errors,
        None,
        &mut told,
    );
    all_lines(
        run,
        &loader,
        counts,
        &notes.named.notes,
        &notes.others.notes,
    )
}

// The lines of all of these, or that there is none.
#[tactic(auto, using(crate::proofs::UrlLinesLaws::lines_all, crate::proofs::UrlLinesLaws::lines_none))]
fn all_lines<F: FileReader, E: ByteSink>(
    run: &TextRun<'_, '_, '_, F>,
    loader: &FileLoader<'_, '_, '_, F, E>,
    counts: &RewriteCounts,
    notes: &[UrlNote],
    others: &[UrlNote],
) -> Result<Vec<u8>, AllocError>
    ensures { let request = run.now.request.now in IfOk result (λ text.
        AreAllLines (F.gives loader.now.maps.now.files.now) loader.now.paths
        (option_copied loader.now.maps.now.base) loader.now.maps.now.interval loader.now.number loader.now.fit
        (map argument_of request.arguments.now) run.now.sources.now.locations
        request.options.now.anywhere
        (nothing_line request.options.now.anywhere (map argument_of request.arguments.now) counts.now)
        (map note_seen notes.now ++ map note_seen others.now) text.items) }
{
    let count = notes.len() + others.len();
    if count == 0 {
        let request = run.request;
        return nothing_line(
            run.alloc,
            request.options.anywhere,
            request.arguments,
            counts,
        );
    }
    lines_of_both(run, loader, notes, others)
}

// The lines of all of these, one after another.
fn lines_of_both<F: FileReader, E: ByteSink>(
    run: &TextRun<'_, '_, '_, F>,
    loader: &FileLoader<'_, '_, '_, F, E>,
    notes: &[UrlNote],
    others: &[UrlNote],
) -> Result<Vec<u8>, AllocError>
    ensures { let request = run.now.request.now in IfOk result (λ text.
        AreUrlLines (F.gives loader.now.maps.now.files.now) loader.now.paths
        (option_copied loader.now.maps.now.base) loader.now.maps.now.interval loader.now.number loader.now.fit
        (map argument_of request.arguments.now) run.now.sources.now.locations
        request.options.now.anywhere
        (map note_seen notes.now ++ map note_seen others.now) text.items) }
{
    let mut text = lines_by(run, loader, notes)?;
    let more = lines_by(run, loader, others)?;
    text.extend_from_slice(&more)?;
    Ok(text)
}

// The lines of all of these.
fn lines_by<F: FileReader, E: ByteSink>(
    run: &TextRun<'_, '_, '_, F>,
    loader: &FileLoader<'_, '_, '_, F, E>,
    notes: &[UrlNote],
) -> Result<Vec<u8>, AllocError>
    ensures { let request = run.now.request.now in IfOk result (λ text.
        AreUrlLines (F.gives loader.now.maps.now.files.now) loader.now.paths
        (option_copied loader.now.maps.now.base) loader.now.maps.now.interval loader.now.number loader.now.fit
        (map argument_of request.arguments.now) run.now.sources.now.locations
        request.options.now.anywhere (map note_seen notes.now) text.items) }
{
    let mut text = Vec::new(run.alloc);
    for note in notes {
        let line = line_of(run, loader, note)?;
        text.extend_from_slice(&line)?;
    }
    Ok(text)
}

// The line of a URL.
fn line_of<F: FileReader, E: ByteSink>(
    run: &TextRun<'_, '_, '_, F>,
    loader: &FileLoader<'_, '_, '_, F, E>,
    note: &UrlNote,
) -> Result<Vec<u8>, AllocError>
    ensures { let request = run.now.request.now in IfOk result (λ line.
        IsUrlLine (F.gives loader.now.maps.now.files.now) loader.now.paths
        (option_copied loader.now.maps.now.base) loader.now.maps.now.interval loader.now.number loader.now.fit
        (map argument_of request.arguments.now) run.now.sources.now.locations
        request.options.now.anywhere (note_seen note.now) line.items) }
{
    let (alloc, request) = (run.alloc, run.request);
    let end = end_of(
        alloc,
        loader,
        request.arguments,
        &run.sources.locations,
        note,
    )?;
    let counts = counts_text(alloc, request.options.anywhere, note.frames, note.mapped)?;
    let mut line = shown_url(alloc, &note.url)?;
    line.extend_from_slice(counts.as_bytes())?;
    line.extend_from_slice(&end)?;
    line.push(b'\n')?;
    Ok(line)
}

// A URL as it prints, or the beginning of a long one.
#[tactic(auto, unfolding(smap_text::specs::Shown::shown))]
fn shown_url(alloc: Global, url: &[u8]) -> Result<Vec<u8>, AllocError>
    ensures { IfOk result (λ text. text.items ≡ shown (take 1024 url.now)) }
{
    url.iter()
        .take(MOST_URL_BYTES)
        .map(|byte| shown_byte(*byte))
        .collect(alloc)
}

// How many frames name a URL, or places anywhere, and how many of them were replaced.
fn counts_text(alloc: Global, anywhere: bool, count: u64, mapped: u64) -> Result<String, AllocError>
    ensures { IfOk result (λ text. string_bytes text ≡ counts_text anywhere count mapped) }
{
    let named = if anywhere {
        places_text(count)
    } else {
        frames_text(count)
    };
    format!(in alloc; ": {count}{named}{mapped} mapped, ")
}

// What so many frames are called, for one line.
fn frames_text(count: u64) -> &'static str
    ensures { result.now ≡ frames_text count }
{
    if count == 1 { " frame, " } else { " frames, " }
}

// What so many places are called, for one line.
fn places_text(count: u64) -> &'static str
    ensures { result.now ≡ places_text count }
{
    if count == 1 { " place, " } else { " places, " }
}
