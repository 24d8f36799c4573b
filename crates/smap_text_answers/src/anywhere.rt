//! Rewriting the places of a text, wherever they stand in it.
ghost use Rattle.std.specs.Prelude.{◌≡◌, ◌<◌, ◌^◌, false, true};
ghost use Rattle.smap_lines.specs.RunEnds.{RunEnds};
ghost use Rattle.smap_text_answers.specs.Places.{RewritesPlacesOver};
ghost use Rattle.smap_text_answers.specs.Told.{nothing_told};
ghost use Rattle.smap_text_answers.specs.Request.{request_seen};
ghost use Rattle.smap_text_answers.specs.RewriteFrom.{EndsText, places_by};
ghost use Rattle.smap_text_answers.specs.StoreRun.{store_of};
ghost use Rattle.smap_anywhere.specs.Anywhere.{AreNone, RewritesAnywhereFrontOver};
ghost use Rattle.smap_anywhere.specs.NamedParts.{found_by, gives_by, replacing};
ghost use Rattle.smap_trace.specs.NotesSeen.{notes_seen};
ghost use Rattle.smap_trace.specs.Rewriting.{Looked};

use crate::sources::MapSources;
use crate::text_over_store::TextRun;
use smap_anywhere::{MapUrls, PlaceNotes, PlaceOptions, rewrite_anywhere};
use smap_io::{ByteSink, ByteSource};
use smap_pairs::KnownUrls;
use smap_replies::FileReader;
use smap_store::{MapCache, MapLoader, StoredMaps};
use smap_trace::{Maps, RewriteCounts, RewriteFault, TextNote};

/// Rewrites the places of a text, wherever they stand in it, over a store of maps.
pub fn rewrite_places<F: FileReader, L: MapLoader, R: ByteSource, W: ByteSink>(
    run: &TextRun<'_, '_, '_, F>,
    cache: &mut MapCache,
    loader: &mut L,
    notes: &mut PlaceNotes,
    input: &mut R,
    output: &mut W,
) -> Result<RewriteCounts, RewriteFault>
    requires anywhere { run.now.request.now.options.now.anywhere ≡ true }
    requires unnamed { run.now.request.now.options.now.names ≡ false }
    requires unnoted { AreNone notes.old }
    requires input_works { (R.seen input.old).failed ≡ false }
    requires output_works { (W.seen output.old).failed ≡ false }
    requires limit { (request_seen run.now.request.now).limit_bytes < 2 ^ 63 }
    ensures { EndsText R.seen W.seen (F.gives run.now.request.now.maps.now.files.now)
        L.Loads L.MayLoad (request_seen run.now.request.now)
        run.now.sources.now input.old input.new output.old output.new
        (store_of run.now.sources.now cache.old loader.old)
        (store_of run.now.sources.now cache.new loader.new)
        (notes_seen notes.new.named) (notes_seen notes.new.others)
        nothing_told result }
{
    let alloc = run.alloc;
    let MapSources { exact, locations } = run.sources;
    let Ok(urls) = MapUrls::new(alloc, exact, locations) else {
        return Err(RewriteFault::Memory);
    };
    let mut stored = StoredMaps {
        alloc,
        exact,
        locations,
        cache,
        loader,
    };
    places_over(run, &urls, &mut stored, notes, input, output)
}

/// Rewrites the places of a text, wherever they stand in it, over any maps, whose URLs are known.
pub fn places_over<F: FileReader, K: KnownUrls, M: Maps, R: ByteSource, W: ByteSink>(
    run: &TextRun<'_, '_, '_, F>,
    urls: &K,
    maps: &mut M,
    notes: &mut PlaceNotes,
    input: &mut R,
    output: &mut W,
) -> Result<RewriteCounts, RewriteFault>
    requires unnoted { AreNone notes.old }
    requires input_works { (R.seen input.old).failed ≡ false }
    requires output_works { (W.seen output.old).failed ≡ false }
    requires limit { (request_seen run.now.request.now).limit_bytes < 2 ^ 63 }
    ensures ends { RunEnds R.seen W.seen input.old input.new output.old output.new
        (λ before after counts. RewritesPlacesOver (replacing M.names_any) M.Finds
        (found_by M.names_any M.found M.names)
        (places_by M.names_any (K.known urls.now) (request_seen run.now.request.now)) before after
        maps.old maps.new counts (notes_seen notes.new.named) (notes_seen notes.new.others))
        (RewritesAnywhereFrontOver (replacing M.names_any)
        (gives_by M.names_any (M.Gives maps.old) (M.GivesNames maps.old))
        (places_by M.names_any (K.known urls.now) (request_seen run.now.request.now))) result }
    ensures looked { Looked M.Finds maps.old maps.new }
{
    let request = run.request;
    let options = PlaceOptions {
        known: urls,
        most_bytes: request.limit_bytes(),
        is_noted: request.options.explain,
    };
    match rewrite_anywhere(run.alloc, input, output, maps, &options, notes) {
        Ok(summary) => Ok(RewriteCounts {
            summary,
            long: 0,
            passed: 0,
            text: TextNote::none(),
        }),
        Err(fault) => Err(fault),
    }
}
