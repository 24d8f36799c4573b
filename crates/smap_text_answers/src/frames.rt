//! Rewriting the frames of a text.
ghost use Rattle.std.specs.Prelude.{◌≡◌, ◌<◌, ◌^◌, false};
ghost use Rattle.smap_lines.specs.RunEnds.{RunEnds};
ghost use Rattle.smap_text_answers.specs.Told.{nothing_told};
ghost use Rattle.smap_text_answers.specs.Request.{request_seen};
ghost use Rattle.smap_text_answers.specs.RewriteFrom.{EndsText, asked_by};
ghost use Rattle.smap_text_answers.specs.StoreRun.{store_of};
ghost use Rattle.smap_anywhere.specs.Anywhere.{AreNone};
ghost use Rattle.smap_trace.specs.NotesSeen.{notes_seen};
ghost use Rattle.smap_trace.specs.Noted.{nothing_noted};
ghost use Rattle.smap_trace.specs.Rewriting.{Looked, RewritesNamed, RewritesNamedFront};

use crate::sources::MapSources;
use crate::text_over_store::TextRun;
use smap_anywhere::{LineCounter, MapUrls, PlaceNotes};
use smap_io::{ByteSink, ByteSource};
use smap_replies::FileReader;
use smap_store::{MapCache, MapLoader, StoredMaps};
use smap_trace::{
    Beside, Maps, PlaceCounter, RewriteCounts, RewriteFault, TraceOptions, UrlNotes, rewrite_over,
};

/// Rewrites the frames of a text over a store of maps, beside which places are counted.
pub fn rewrite_frames<F: FileReader, L: MapLoader, R: ByteSource, W: ByteSink>(
    run: &TextRun<'_, '_, '_, F>,
    cache: &mut MapCache,
    loader: &mut L,
    notes: &mut PlaceNotes,
    input: &mut R,
    output: &mut W,
) -> Result<RewriteCounts, RewriteFault>
    requires frames { run.now.request.now.options.now.anywhere ≡ false }
    requires unnamed { run.now.request.now.options.now.names ≡ false }
    requires unnoted { AreNone notes.old }
    requires input_works { (R.seen input.old).failed ≡ false }
    requires output_works { (W.seen output.old).failed ≡ false }
    requires limit { (request_seen run.now.request.now).limit_bytes < 2 ^ 63 }
    ensures { EndsText R.seen W.seen (F.gives run.now.request.now.maps.now.files.now)
        L.Loads L.MayLoad (request_seen run.now.request.now)
        run.now.sources.now input.old input.new output.old output.new
        (store_of run.now.sources.now cache.old loader.old)
        (store_of run.now.sources.now cache.new loader.new)
        (notes_seen notes.new.named) (notes_seen notes.new.others)
        nothing_told result }
{
    let alloc = run.alloc;
    let MapSources { exact, locations } = run.sources;
    let Ok(urls) = MapUrls::new(alloc, exact, locations) else {
        return Err(RewriteFault::Memory);
    };
    let Ok(mut places) = LineCounter::new(alloc, &urls, run.request.arguments) else {
        return Err(RewriteFault::Memory);
    };
    let mut stored = StoredMaps {
        alloc,
        exact,
        locations,
        cache,
        loader,
    };
    let named = &mut notes.named;
    frames_over(run, &mut stored, &mut places, named, input, output)
}

/// Rewrites the frames of a text over any maps, beside which places are counted.
pub fn frames_over<F: FileReader, M: Maps, P: PlaceCounter, R: ByteSource, W: ByteSink>(
    run: &TextRun<'_, '_, '_, F>,
    maps: &mut M,
    places: &mut P,
    notes: &mut UrlNotes,
    input: &mut R,
    output: &mut W,
) -> Result<RewriteCounts, RewriteFault>
    requires unnoted { notes_seen notes.old ≡ nothing_noted }
    requires input_works { (R.seen input.old).failed ≡ false }
    requires output_works { (W.seen output.old).failed ≡ false }
    requires limit { (request_seen run.now.request.now).limit_bytes < 2 ^ 63 }
    ensures ends { RunEnds R.seen W.seen input.old input.new output.old output.new
        (λ before after counts. RewritesNamed M.Finds M.found M.names
        (asked_by (request_seen run.now.request.now) (P.count places.old)) before after
        maps.old maps.new counts (notes_seen notes.new))
        (RewritesNamedFront (M.Gives maps.old) (M.GivesNames maps.old) M.names_any
        (request_seen run.now.request.now).hide
        (request_seen run.now.request.now).limit_bytes) result }
    ensures looked { Looked M.Finds maps.old maps.new }
{
    let request = run.request;
    let options = TraceOptions {
        hiding: request.hiding(),
        most: request.limit_bytes(),
        is_noted: request.options.explain,
        most_passed: request.most_passed(),
    };
    let mut beside = Beside { notes, places };
    rewrite_over(run.alloc, input, output, maps, &options, &mut beside)
}
