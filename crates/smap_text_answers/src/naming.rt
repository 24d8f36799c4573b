//! Rewriting a text with the written names of functions.
ghost use Rattle.std.specs.Prelude.{◌≡◌, ◌<◌, ◌^◌, ◌+◌, false, true, length};
ghost use Rattle.smap_anywhere.specs.Anywhere.{AreNone};
ghost use Rattle.smap_text_answers.specs.Names.{told_at_end};
ghost use Rattle.smap_text_answers.specs.Told.{told_seen};
ghost use Rattle.smap_text_answers.specs.Private.Naming.{EndsNamed, named_over};
ghost use Rattle.smap_text_answers.specs.Request.{request_seen};
ghost use Rattle.smap_text_answers.specs.RewriteFrom.{EndsText, asked_of, places_asked};
ghost use Rattle.smap_text_answers.specs.StoreRun.{store_of};
ghost use Rattle.smap_trace.specs.NotesSeen.{notes_seen};

use crate::anywhere::places_over;
use crate::frames::frames_over;
use crate::namer::FileNamer;
use crate::request::TextRequest;
use crate::sources::MapSources;
use crate::text_over_store::TextRun;
use crate::told::ToldLines;
use smap_anywhere::{LineCounter, MapUrls, PlaceNotes};
use smap_io::{ByteSink, ByteSource};
use smap_replies::FileReader;
use smap_store::{MapCache, MapLoader, NamedMaps, NamesCache, NamesLoader, StoredMaps};
use smap_trace::{RewriteCounts, RewriteFault};

/// Rewrites a text over a store of maps, its frames or its places, with the names of functions that the generated files
/// beside the maps declare; and puts into `told` what is to be told of them.
pub fn rewrite_named<F: FileReader, L: MapLoader, R: ByteSource, W: ByteSink>(
    run: &TextRun<'_, '_, '_, F>,
    cache: &mut MapCache,
    loader: &mut L,
    notes: &mut PlaceNotes,
    told: &mut ToldLines,
    input: &mut R,
    output: &mut W,
) -> Result<RewriteCounts, RewriteFault>
    requires named { run.now.request.now.options.now.names ≡ true }
    requires unnoted { AreNone notes.old }
    requires input_works { (R.seen input.old).failed ≡ false }
    requires output_works { (W.seen output.old).failed ≡ false }
    requires limit { (request_seen run.now.request.now).limit_bytes < 2 ^ 63 }
    ensures { EndsText R.seen W.seen (F.gives run.now.request.now.maps.now.files.now)
        L.Loads L.MayLoad (request_seen run.now.request.now)
        run.now.sources.now input.old input.new output.old output.new
        (store_of run.now.sources.now cache.old loader.old)
        (store_of run.now.sources.now cache.new loader.new)
        (notes_seen notes.new.named) (notes_seen notes.new.others)
        (told_seen told.new) result }
{
    let request = run.request;
    let Ok(mut names) = NamesCache::new(run.alloc, request.names_bytes()) else {
        return Err(RewriteFault::Memory);
    };
    let mut namer = FileNamer::new(
        run.alloc,
        request.maps.files,
        request.arguments.len() + 2,
        request.arguments,
        &run.sources.locations,
    );
    let result = rewrite_beside_names(
        run, cache, loader, &mut names, &mut namer, notes, input, output,
    );
    *told = told_at_end(&names, namer.told);
    result
}

// What is told, where memory may have run out for what was remembered.
pub fn told_at_end(names: &NamesCache, told: ToldLines) -> ToldLines
    ensures { told_seen result ≡ told_at_end names.now (told_seen told) }
{
    let ToldLines { text, is_short } = told;
    ToldLines {
        text,
        is_short: is_short || names.shortages > 0,
    }
}

// The text over a store of maps beside which declarations are listed. (It is generic in what loads and lists them, as
// `rewrite_text` is.)
fn rewrite_beside_names<F: FileReader, L: MapLoader, N: NamesLoader, R: ByteSource, W: ByteSink>(
    run: &TextRun<'_, '_, '_, F>,
    cache: &mut MapCache,
    loader: &mut L,
    names: &mut NamesCache,
    namer: &mut N,
    notes: &mut PlaceNotes,
    input: &mut R,
    output: &mut W,
) -> Result<RewriteCounts, RewriteFault>
    requires unnoted { AreNone notes.old }
    requires input_works { (R.seen input.old).failed ≡ false }
    requires output_works { (W.seen output.old).failed ≡ false }
    requires limit { (request_seen run.now.request.now).limit_bytes < 2 ^ 63 }
    ensures { EndsNamed R.seen W.seen L.Loads L.MayLoad N.Names N.MayName
        run.now.request.now.options.now.anywhere
        (places_asked true (request_seen run.now.request.now) run.now.sources.now)
        (asked_of (request_seen run.now.request.now) run.now.sources.now)
        input.old input.new output.old output.new
        (named_over run.now.sources.now cache.old loader.old names.old namer.old)
        (named_over run.now.sources.now cache.new loader.new names.new namer.new)
        (notes_seen notes.new.named) (notes_seen notes.new.others) result }
{
    if run.request.options.anywhere {
        rewrite_named_places(run, cache, loader, names, namer, notes, input, output)
    } else {
        rewrite_named_frames(run, cache, loader, names, namer, notes, input, output)
    }
}

// Its places.
fn rewrite_named_places<F: FileReader, L: MapLoader, N: NamesLoader, R: ByteSource, W: ByteSink>(
    run: &TextRun<'_, '_, '_, F>,
    cache: &mut MapCache,
    loader: &mut L,
    names: &mut NamesCache,
    namer: &mut N,
    notes: &mut PlaceNotes,
    input: &mut R,
    output: &mut W,
) -> Result<RewriteCounts, RewriteFault>
    requires anywhere { run.now.request.now.options.now.anywhere ≡ true }
    requires unnoted { AreNone notes.old }
    requires input_works { (R.seen input.old).failed ≡ false }
    requires output_works { (W.seen output.old).failed ≡ false }
    requires limit { (request_seen run.now.request.now).limit_bytes < 2 ^ 63 }
    ensures { EndsNamed R.seen W.seen L.Loads L.MayLoad N.Names N.MayName
        run.now.request.now.options.now.anywhere
        (places_asked true (request_seen run.now.request.now) run.now.sources.now)
        (asked_of (request_seen run.now.request.now) run.now.sources.now)
        input.old input.new output.old output.new
        (named_over run.now.sources.now cache.old loader.old names.old namer.old)
        (named_over run.now.sources.now cache.new loader.new names.new namer.new)
        (notes_seen notes.new.named) (notes_seen notes.new.others) result }
{
    let alloc = run.alloc;
    let MapSources { exact, locations } = run.sources;
    let Ok(urls) = MapUrls::new(alloc, exact, locations) else {
        return Err(RewriteFault::Memory);
    };
    let maps = StoredMaps {
        alloc,
        exact,
        locations,
        cache,
        loader,
    };
    let mut named = NamedMaps { maps, names, namer };
    places_over(run, &urls, &mut named, notes, input, output)
}

// Its frames.
fn rewrite_named_frames<F: FileReader, L: MapLoader, N: NamesLoader, R: ByteSource, W: ByteSink>(
    run: &TextRun<'_, '_, '_, F>,
    cache: &mut MapCache,
    loader: &mut L,
    names: &mut NamesCache,
    namer: &mut N,
    notes: &mut PlaceNotes,
    input: &mut R,
    output: &mut W,
) -> Result<RewriteCounts, RewriteFault>
    requires frames { run.now.request.now.options.now.anywhere ≡ false }
    requires unnoted { AreNone notes.old }
    requires input_works { (R.seen input.old).failed ≡ false }
    requires output_works { (W.seen output.old).failed ≡ false }
    requires limit { (request_seen run.now.request.now).limit_bytes < 2 ^ 63 }
    ensures { EndsNamed R.seen W.seen L.Loads L.MayLoad N.Names N.MayName
        run.now.request.now.options.now.anywhere
        (places_asked true (request_seen run.now.request.now) run.now.sources.now)
        (asked_of (request_seen run.now.request.now) run.now.sources.now)
        input.old input.new output.old output.new
        (named_over run.now.sources.now cache.old loader.old names.old namer.old)
        (named_over run.now.sources.now cache.new loader.new names.new namer.new)
        (notes_seen notes.new.named) (notes_seen notes.new.others) result }
{
    let alloc = run.alloc;
    let MapSources { exact, locations } = run.sources;
    let Ok(urls) = MapUrls::new(alloc, exact, locations) else {
        return Err(RewriteFault::Memory);
    };
    let Ok(mut places) = LineCounter::new(alloc, &urls, run.request.arguments) else {
        return Err(RewriteFault::Memory);
    };
    let maps = StoredMaps {
        alloc,
        exact,
        locations,
        cache,
        loader,
    };
    let mut named = NamedMaps { maps, names, namer };
    let urls = &mut notes.named;
    frames_over(run, &mut named, &mut places, urls, input, output)
}
