//! Answering the places on standard input over files and folders of maps.
ghost use Rattle.std.specs.Prelude.{◌≡◌, false};
ghost use Rattle.smap_replies.specs.Streams.{streams_seen};
ghost use Rattle.smap_text_answers.specs.Locate.{EndsLocating, RunsLocate, all_bytes, map_bytes, names_bytes};
ghost use Rattle.smap_text_answers.specs.StoreRun.{store_of};
ghost use Rattle.smap_text_answers.specs.Told.{nothing_told, told_seen};

use crate::dotted::tell_patterns;
use crate::loader::FileLoader;
use crate::locating_named::locate_named;
use crate::locator::Locator;
use crate::saying::say_told;
use crate::sources::{MapSources, sources_of};
use crate::storing::{StoreRun, StoreWork, finish, over_store};
use crate::told::ToldLines;
use smap_codes::Code;
use smap_command::{Locate, USUAL_CACHE_BYTES};
use smap_io::{ByteSink, ByteSource};
use smap_lines::{LineCounts, LineFault, MOST_TEXT_BYTES, edit_lines};
use smap_replies::{FileReader, MapReader, report};
use smap_store::{MapCache, MapLoader, StoredMaps};
use std::alloc::Global;

/// Reads the maps that are words of the command line, and answers the places on the lines of standard input over them and
/// over those that they name, each by a line in their order, and gives the exit status: the greatest of all that was
/// reported. The code of the first refusal is put into `first`, where that has none. The caller gives devices that have not
/// failed.
pub fn answer_locate<F: FileReader, R: ByteSource, W: ByteSink, E: ByteSink>(
    alloc: Global,
    reader: &F,
    asked: &Locate,
    input: &mut R,
    output: &mut W,
    errors: &mut E,
    first: &mut Option<Code>,
) -> u8
    requires input_works { (R.seen input.old).failed ≡ false }
    requires output_works { (W.seen output.old).failed ≡ false }
    ensures { RunsLocate (F.gives reader.now) (F.causes reader.now) asked.now result
        (streams_seen (R.seen input.old) (W.seen output.old) (E.seen errors.old) first.old)
        (streams_seen (R.seen input.new) (W.seen output.new) (E.seen errors.new) first.new) }
{
    let maps = MapReader {
        files: reader,
        base: asked.base.as_ref(),
        interval: asked.interval,
    };
    let list = asked.list.as_deref();
    match sources_of(alloc, &maps, asked.paths, false, &asked.maps, list) {
        Ok(sources) => {
            let arguments: &[(String, String)] = &asked.maps;
            tell_patterns(arguments, errors);
            let store = StoreRun {
                maps: &maps,
                paths: asked.paths,
                arguments,
                fit: None,
                cache_bytes: map_bytes(asked),
                sources: &sources,
            };
            let mut work = Locating {
                alloc,
                files: reader,
                asked,
                told: ToldLines::new(alloc),
            };
            let told = ToldLines::new(alloc);
            let end = over_store(&store, told, &mut work, input, output, errors, first);
            let ended = finish(&end, false, output, errors, first);
            let listed = say_told(alloc, &end, &work.told, errors);
            ended.max(listed)
        }
        Err(failure) => report(&Err(failure), output, errors, first),
    }
}

// How many bytes of files are kept as maps.
fn map_bytes(asked: &Locate) -> u64
    ensures { result ≡ map_bytes asked.now }
{
    all_bytes(asked).saturating_sub(names_bytes(asked))
}

// How many bytes of files are kept as declarations: a quarter of all, where they are listed.
pub fn names_bytes(asked: &Locate) -> u64
    ensures { result ≡ names_bytes asked.now }
{
    if asked.names { all_bytes(asked) / 4 } else { 0 }
}

// How many bytes of files are kept.
fn all_bytes(asked: &Locate) -> u64
    ensures { result ≡ all_bytes asked.now }
{
    asked.cache_bytes.unwrap_or(USUAL_CACHE_BYTES)
}

// Answering the lines of a text over a store of maps, with what is to be told of names.
#[derive(Drop)]
struct Locating<'a, Q: FileReader> {
    alloc: Global,
    files: &'a Q,
    asked: &'a Locate,
    told: ToldLines,
}

impl<Q: FileReader> StoreWork for Locating<'_, Q> {
    ghost use Rattle.std.specs.Prelude.{◌≡◌};
    ghost use Rattle.smap_text_answers.specs.Locate.{LocatesText, LocatesTextFront};
    ghost use Rattle.smap_text_answers.specs.Told.{nothing_told, told_seen};

    type Counts = LineCounts;

    ghost Ready = { λ work. told_seen work.told ≡ nothing_told };

    ghost Whole = { λ work later sources Finds before after old new counts.
        LocatesText (Q.gives work.files.now) work.asked.now sources Finds before after old new counts (told_seen later.told) };

    ghost Front = { λ work sources. LocatesTextFront (Q.gives work.files.now) work.asked.now sources };

    fn run<F: FileReader, E: ByteSink, R: ByteSource, W: ByteSink>(
        &mut self,
        sources: &MapSources,
        cache: &mut MapCache,
        loader: &mut FileLoader<'_, '_, '_, F, E>,
        input: &mut R,
        output: &mut W,
    ) -> Result<LineCounts, LineFault> {
        let run = LocateRun {
            alloc: self.alloc,
            files: self.files,
            asked: self.asked,
            sources,
        };
        answer_text(&run, cache, loader, &mut self.told, input, output)
    }
}

/// What is asked, and what places are answered over.
#[derive(Drop)]
pub struct LocateRun<'s, 'a, F: FileReader> {
    pub alloc: Global,
    pub files: &'a F,
    pub asked: &'a Locate,
    pub sources: &'s MapSources,
}

// Answers the lines of a text over this store of maps. (It is generic in what loads them, as `rewrite_text` is.)
fn answer_text<F: FileReader, L: MapLoader, R: ByteSource, W: ByteSink>(
    run: &LocateRun<'_, '_, F>,
    cache: &mut MapCache,
    loader: &mut L,
    told: &mut ToldLines,
    input: &mut R,
    output: &mut W,
) -> Result<LineCounts, LineFault>
    requires untold { told_seen told.old ≡ nothing_told }
    requires input_works { (R.seen input.old).failed ≡ false }
    requires output_works { (W.seen output.old).failed ≡ false }
    ensures { EndsLocating R.seen W.seen (F.gives run.now.files.now) L.Loads L.MayLoad
        run.now.asked.now run.now.sources.now input.old input.new output.old output.new
        (store_of run.now.sources.now cache.old loader.old)
        (store_of run.now.sources.now cache.new loader.new) (told_seen told.new) result }
{
    if run.asked.names {
        locate_named(run, cache, loader, told, input, output)
    } else {
        locate_text(run, cache, loader, input, output)
    }
}

// The same where no functions are asked for.
fn locate_text<F: FileReader, L: MapLoader, R: ByteSource, W: ByteSink>(
    run: &LocateRun<'_, '_, F>,
    cache: &mut MapCache,
    loader: &mut L,
    input: &mut R,
    output: &mut W,
) -> Result<LineCounts, LineFault>
    requires unnamed { run.now.asked.now.names ≡ false }
    requires input_works { (R.seen input.old).failed ≡ false }
    requires output_works { (W.seen output.old).failed ≡ false }
    ensures { EndsLocating R.seen W.seen (F.gives run.now.files.now) L.Loads L.MayLoad
        run.now.asked.now run.now.sources.now input.old input.new output.old output.new
        (store_of run.now.sources.now cache.old loader.old)
        (store_of run.now.sources.now cache.new loader.new) nothing_told result }
{
    let MapSources { exact, locations } = run.sources;
    let mut locator = Locator {
        maps: StoredMaps {
            alloc: run.alloc,
            exact,
            locations,
            cache,
            loader,
        },
        options: run.asked.options,
    };
    edit_lines(run.alloc, input, output, &mut locator, MOST_TEXT_BYTES)
}
