//! Rewriting the stack trace on standard input over files and folders of maps, which are read when it names them.
ghost use Rattle.std.specs.Prelude.{◌≡◌, ◌<◌, ◌^◌, Ok, false, option_copied};
ghost use Rattle.smap_replies.specs.Outcome.{or_reported};
ghost use Rattle.smap_replies.specs.Streams.{streams_seen};
ghost use Rattle.smap_text_answers.specs.Told.{told_seen};
ghost use Rattle.smap_text_answers.specs.Request.{fit_number, request_seen};
ghost use Rattle.smap_text_answers.specs.RewriteFrom.{RewritesCompared, RewritesFrom, RewritesSources};
ghost use Rattle.smap_text_answers.specs.Fitting.{Compares};
ghost use Rattle.smap_text_answers.specs.Private.Fitting.{compared};
ghost use Rattle.smap_text_answers.specs.Sources.{GathersSources};

use crate::dotted::tell_patterns;
use crate::ending::{hint, sum_up};
use crate::fitting::compare_words;
use crate::request::TextRequest;
use crate::required::require;
use crate::saying::{say_told, say_urls};
use crate::sources::{MapSources, sources_of};
use crate::storing::{StoreRun, finish, over_store};
use crate::text_over_store::{Rewriting, TextRun};
use crate::told::ToldLines;
use smap_anywhere::PlaceNotes;
use smap_codes::Code;
use smap_io::{ByteSink, ByteSource};
use smap_replies::{Failure, FileReader, report};
use smap_trace::Table;
use std::alloc::Global;

/// Reads the maps that are words of the command line, and rewrites the text on standard input over them and over those
/// that it names itself, and gives the exit status: the greatest of all that was reported. The code of the first refusal
/// is put into `first`, where that has none. The caller gives devices that have not failed, and takes less than 2^63 bytes.
pub fn rewrite_from<F: FileReader, R: ByteSource, W: ByteSink, E: ByteSink>(
    alloc: Global,
    request: &TextRequest<'_, '_, F>,
    input: &mut R,
    output: &mut W,
    errors: &mut E,
    first: &mut Option<Code>,
) -> u8
    requires input_works { (R.seen input.old).failed ≡ false }
    requires output_works { (W.seen output.old).failed ≡ false }
    requires limit { (request_seen request.now).limit_bytes < 2 ^ 63 }
    ensures { RewritesFrom (F.gives request.now.maps.now.files.now)
        (F.causes request.now.maps.now.files.now)
        (option_copied request.now.maps.now.base) request.now.maps.now.interval
        (request_seen request.now) result
        (streams_seen (R.seen input.old) (W.seen output.old) (E.seen errors.old) first.old)
        (streams_seen (R.seen input.new) (W.seen output.new) (E.seen errors.new) first.new) }
{
    match sources_for(alloc, request) {
        Ok(sources) => rewrite_sources(alloc, request, &sources, input, output, errors, first),
        Err(failure) => report(&Err(failure), output, errors, first),
    }
}

// The same over the maps that were gathered, of which those of words are compared first.
fn rewrite_sources<F: FileReader, R: ByteSource, W: ByteSink, E: ByteSink>(
    alloc: Global,
    request: &TextRequest<'_, '_, F>,
    sources: &MapSources,
    input: &mut R,
    output: &mut W,
    errors: &mut E,
    first: &mut Option<Code>,
) -> u8
    requires input_works { (R.seen input.old).failed ≡ false }
    requires output_works { (W.seen output.old).failed ≡ false }
    requires limit { (request_seen request.now).limit_bytes < 2 ^ 63 }
    ensures { RewritesSources (F.gives request.now.maps.now.files.now)
        (F.causes request.now.maps.now.files.now)
        (option_copied request.now.maps.now.base) request.now.maps.now.interval
        (request_seen request.now) (Ok sources.now) result
        (streams_seen (R.seen input.old) (W.seen output.old) (E.seen errors.old) first.old)
        (streams_seen (R.seen input.new) (W.seen output.new) (E.seen errors.new) first.new) }
{
    match compared_for(alloc, request, &sources.exact) {
        Ok(told) => {
            rewrite_compared(alloc, request, sources, told, input, output, errors, first)
        }
        Err(failure) => report(&Err(failure), output, errors, first),
    }
}

// What comparing the maps of words comes to.
fn compared_for<F: FileReader>(
    alloc: Global,
    request: &TextRequest<'_, '_, F>,
    exact: &Table,
) -> Result<ToldLines, Failure>
    ensures { Compares (F.gives request.now.maps.now.files.now)
        (fit_number (request_seen request.now)) exact.now (request_seen request.now).arguments
        (compared result) }
{
    let fit = request.fit_number();
    compare_words(alloc, request.maps.files, fit, exact, request.arguments)
}

// The same after this was told of the maps of words.
fn rewrite_compared<F: FileReader, R: ByteSource, W: ByteSink, E: ByteSink>(
    alloc: Global,
    request: &TextRequest<'_, '_, F>,
    sources: &MapSources,
    told: ToldLines,
    input: &mut R,
    output: &mut W,
    errors: &mut E,
    first: &mut Option<Code>,
) -> u8
    requires input_works { (R.seen input.old).failed ≡ false }
    requires output_works { (W.seen output.old).failed ≡ false }
    requires limit { (request_seen request.now).limit_bytes < 2 ^ 63 }
    ensures { RewritesCompared (F.gives request.now.maps.now.files.now)
        (F.causes request.now.maps.now.files.now)
        (option_copied request.now.maps.now.base) request.now.maps.now.interval
        (request_seen request.now) sources.now (Ok (told_seen told)) result
        (streams_seen (R.seen input.old) (W.seen output.old) (E.seen errors.old) first.old)
        (streams_seen (R.seen input.new) (W.seen output.new) (E.seen errors.new) first.new) }
{
    tell_patterns(request.arguments, errors);
    let store = StoreRun {
        maps: request.maps,
        paths: request.options.paths,
        arguments: request.arguments,
        fit: request.fit_number(),
        cache_bytes: request.cache_bytes(),
        sources,
    };
    let mut work = Rewriting {
        alloc,
        request,
        notes: PlaceNotes::new(alloc),
        told: ToldLines::new(alloc),
    };
    let end = over_store(&store, told, &mut work, input, output, errors, first);
    let missing_ok = request.options.missing_ok;
    let ended = finish(&end, missing_ok, output, errors, first);
    let listed = say_told(alloc, &end, &work.told, errors);
    let fitted = say_told(alloc, &end, &end.told, errors);
    let summed = sum_up(alloc, request, &end, errors);
    let run = TextRun {
        alloc,
        request,
        sources,
    };
    let said = say_urls(&run, &end, &work.notes, errors);
    let needed = require(alloc, request, &end, output, errors, first);
    let status = ended
        .max(listed)
        .max(fitted)
        .max(summed)
        .max(said)
        .max(needed);
    let hinted = hint(alloc, request, &end, &work.notes.named, status, errors);
    status.max(hinted)
}

// What a text is rewritten over.
fn sources_for<F: FileReader>(
    alloc: Global,
    request: &TextRequest<'_, '_, F>,
) -> Result<MapSources, Failure>
    ensures { let seen = request_seen request.now in
        GathersSources (F.gives request.now.maps.now.files.now) seen.paths seen.anywhere
        (option_copied request.now.maps.now.base) request.now.maps.now.interval seen.arguments
        seen.list (or_reported result) }
{
    let options = request.options;
    let list = options.list.as_deref();
    sources_of(
        alloc,
        request.maps,
        options.paths,
        options.anywhere,
        request.arguments,
        list,
    )
}
