//! Answering places and the functions beside them over files and folders of maps, with the written names of functions.
ghost use Rattle.std.specs.Prelude.{◌≡◌, false, true};
ghost use Rattle.smap_text_answers.specs.Locate.{EndsLocating};
ghost use Rattle.smap_text_answers.specs.Private.NamedLocator.{EndsAnswered};
ghost use Rattle.smap_text_answers.specs.Private.Naming.{named_over};
ghost use Rattle.smap_text_answers.specs.StoreRun.{store_of};
ghost use Rattle.smap_text_answers.specs.Told.{told_seen};

use crate::locating::{LocateRun, names_bytes};
use crate::named_locator::NamedLocator;
use crate::namer::FileNamer;
use crate::naming::told_at_end;
use crate::sources::MapSources;
use crate::told::ToldLines;
use smap_command::AnswerOptions;
use smap_io::{ByteSink, ByteSource};
use smap_lines::{LineCounts, LineFault, MOST_TEXT_BYTES, edit_lines};
use smap_replies::FileReader;
use smap_store::{MapCache, MapLoader, NamedMaps, NamesCache, NamesLoader, StoredMaps};
use std::alloc::Global;

/// Answers the lines of a text over a store of maps, with the names of functions that the generated files beside the maps
/// declare; and puts into `told` what is to be told of them.
pub fn locate_named<F: FileReader, L: MapLoader, R: ByteSource, W: ByteSink>(
    run: &LocateRun<'_, '_, F>,
    cache: &mut MapCache,
    loader: &mut L,
    told: &mut ToldLines,
    input: &mut R,
    output: &mut W,
) -> Result<LineCounts, LineFault>
    requires named { run.now.asked.now.names ≡ true }
    requires input_works { (R.seen input.old).failed ≡ false }
    requires output_works { (W.seen output.old).failed ≡ false }
    ensures { EndsLocating R.seen W.seen (F.gives run.now.files.now) L.Loads L.MayLoad
        run.now.asked.now run.now.sources.now input.old input.new output.old output.new
        (store_of run.now.sources.now cache.old loader.old)
        (store_of run.now.sources.now cache.new loader.new) (told_seen told.new) result }
{
    let asked = run.asked;
    let Ok(mut names) = NamesCache::new(run.alloc, names_bytes(asked)) else {
        return Err(LineFault::Memory);
    };
    let mut namer = FileNamer::new(
        run.alloc,
        run.files,
        asked.maps.len() + 2,
        &asked.maps,
        &run.sources.locations,
    );
    let result = answer_named_lines(
        run.alloc,
        asked.options,
        run.sources,
        cache,
        loader,
        &mut names,
        &mut namer,
        input,
        output,
    );
    *told = told_at_end(&names, namer.told);
    result
}

// The lines over a store of maps beside which declarations are listed. (It is generic in what loads and lists them, as
// `answer_text` is.)
fn answer_named_lines<L: MapLoader, N: NamesLoader, R: ByteSource, W: ByteSink>(
    alloc: Global,
    options: AnswerOptions,
    sources: &MapSources,
    cache: &mut MapCache,
    loader: &mut L,
    names: &mut NamesCache,
    namer: &mut N,
    input: &mut R,
    output: &mut W,
) -> Result<LineCounts, LineFault>
    requires input_works { (R.seen input.old).failed ≡ false }
    requires output_works { (W.seen output.old).failed ≡ false }
    ensures { EndsAnswered R.seen W.seen L.Loads L.MayLoad N.Names N.MayName options
        input.old input.new output.old output.new
        (named_over sources.now cache.old loader.old names.old namer.old)
        (named_over sources.now cache.new loader.new names.new namer.new) result }
{
    let MapSources { exact, locations } = sources;
    let maps = StoredMaps {
        alloc,
        exact,
        locations,
        cache,
        loader,
    };
    let mut locator = NamedLocator {
        maps: NamedMaps { maps, names, namer },
        options,
    };
    edit_lines(alloc, input, output, &mut locator, MOST_TEXT_BYTES)
}
