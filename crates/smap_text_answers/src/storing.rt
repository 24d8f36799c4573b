//! A run over a store of maps, which are read when a text names them.
ghost use Rattle.std.specs.Prelude.{◌≡◌, ◌+◌, Option, Result, false, length, option_copied};
ghost use Rattle.smap_lines.specs.Editing.{DevicesSeen};
ghost use Rattle.smap_lines.specs.RunEnds.{RunEnds, is_write_fault};
ghost use Rattle.smap_lines.specs.declared.fault.LineFault.{LineFault};
ghost use Rattle.smap_replies.specs.Streams.{sinks_seen, streams_seen};
ghost use Rattle.smap_store.specs.Stored.{FindsIn, GivesIn, StoredSeen};
ghost use Rattle.smap_text_answers.specs.Loader.{LoaderSeen, loader_seen};
ghost use Rattle.smap_text_answers.specs.StoreRun.{EndsStore, Finding, Giving, IsOverStore, LoadsOf, MayLoadOf, ReportsShortage, map_status, store_of};
ghost use Rattle.smap_text_answers.specs.Told.{told_seen};
ghost use Rattle.smap_text_answers.specs.declared.sources.MapSources.{MapSources};
ghost use Rattle.smap_trace.specs.Rewriting.{Looked};

use crate::loader::FileLoader;
use crate::sources::MapSources;
use crate::told::ToldLines;
use smap_codes::Code;
use smap_io::{ByteSink, ByteSource};
use smap_lines::LineFault;
use smap_replies::{
    DONE, FAILED, Failure, FileReader, MapReader, NO_MEMORY, Reply, print_error, report,
};
use smap_store::MapCache;

/// What is made of a text over a store of maps.
pub trait StoreWork {
    // What is counted of the text.
    type Counts;

    // What it must be before that.
    ghost Ready: { Self → Type 0 };

    // What the text became, by how the maps of these sources are looked for, and what was counted of it.
    ghost Whole: { Self → (later : Self) → MapSources → Finding →
        (before after : DevicesSeen) → (old new : StoredSeen LoaderSeen) → Self.Counts → Type 0 };

    // What it became up to a fault, by which maps each URL may have.
    ghost Front: { Self → MapSources → Giving →
        (before after : DevicesSeen) → LineFault → Type 0 };

    fn run<F: FileReader, E: ByteSink, R: ByteSource, W: ByteSink>(
        &mut self,
        sources: &MapSources,
        cache: &mut MapCache,
        loader: &mut FileLoader<'_, '_, '_, F, E>,
        input: &mut R,
        output: &mut W,
    ) -> Result<Self::Counts, LineFault>
        requires ready { Ready self.old }
        requires input_works { (R.seen input.old).failed ≡ false }
        requires output_works { (W.seen output.old).failed ≡ false }
        ensures ends { RunEnds R.seen W.seen input.old input.new output.old output.new
            (λ before after. Whole self.old self.new sources.now
            (FindsIn (LoadsOf F.gives F.causes loader.old)) before after
            (store_of sources.now cache.old (loader_seen E.seen loader.old))
            (store_of sources.now cache.new (loader_seen E.seen loader.new)))
            (Front self.old sources.now (GivesIn (MayLoadOf F.gives loader.old)
            (store_of sources.now cache.old (loader_seen E.seen loader.old)))) result }
        ensures looked { Looked (FindsIn (LoadsOf F.gives F.causes loader.old))
            (store_of sources.now cache.old (loader_seen E.seen loader.old))
            (store_of sources.now cache.new (loader_seen E.seen loader.new)) }
        ensures same_errors { loader.new.errors.ghost_name ≡ loader.old.errors.ghost_name }
        ensures same_told { loader.new.told.ghost_name ≡ loader.old.told.ghost_name };
}

/// Which maps are read for a text, and how.
#[derive(Drop)]
pub struct StoreRun<'s, 'm, 'r, F: FileReader> {
    pub maps: &'m MapReader<'r, F>,
    // Whether, without a base, the sources of a map whose URL is a path are named by paths that go on from its folder.
    pub paths: bool,
    // Pairs of a URL and a path, whose files were read before.
    pub arguments: &'m [(String, String)],
    // Where maps are compared with their generated files, the number under which these are read.
    pub fit: Option<usize>,
    // How many bytes of files are kept as maps.
    pub cache_bytes: u64,
    pub sources: &'s MapSources,
}

/// What a run over a store came to.
#[derive(Drop)]
pub struct StoreEnd<C> {
    // What was in the text, or why it was not read to its end.
    pub result: Result<C, LineFault>,
    // The greatest status of what was reported of maps.
    pub status: u8,
    // The same, of all but files that are not there.
    pub present_status: u8,
    // How many maps were read, those of words too.
    pub maps: u64,
    // How many URLs had no map, refused maps aside.
    pub missing: u64,
    // How many maps were refused.
    pub refused: u64,
    // Whether a map was lost of which its file does not say so.
    pub lost: bool,
    // What is told of maps that were not compared.
    pub told: ToldLines,
    // How often there was not enough memory to keep what was found for a URL.
    pub shortages: u64,
}

/// Does this to the text over the maps of words and of what the text names.
pub fn over_store<F: FileReader, T: StoreWork, R: ByteSource, W: ByteSink, E: ByteSink>(
    run: &StoreRun<'_, '_, '_, F>,
    told: ToldLines,
    work: &mut T,
    input: &mut R,
    output: &mut W,
    errors: &mut E,
    first: &mut Option<Code>,
) -> StoreEnd<T::Counts>
    requires ready { T.Ready work.old }
    requires input_works { (R.seen input.old).failed ≡ false }
    requires output_works { (W.seen output.old).failed ≡ false }
    ensures over { IsOverStore (T.Whole work.old work.new run.now.sources.now)
        (T.Front work.old run.now.sources.now) (F.gives run.now.maps.now.files.now)
        (F.causes run.now.maps.now.files.now) run.now.paths (option_copied run.now.maps.now.base) run.now.maps.now.interval
        (length run.now.arguments.now + 1) run.now.fit run.now.cache_bytes (told_seen told)
        run.now.sources.now result
        (streams_seen (R.seen input.old) (W.seen output.old) (E.seen errors.old) first.old)
        (streams_seen (R.seen input.new) (W.seen output.new) (E.seen errors.new) first.new) }
    ensures output_failure { (W.seen output.new).failed ≡ is_write_fault result.result }
{
    let sources = run.sources;
    let mut told = told;
    let mut cache = MapCache::new(run.cache_bytes);
    let number = run.arguments.len() + 1;
    let mut loader = FileLoader::new(
        run.maps, run.paths, number, run.fit, errors, *first, &mut told,
    );
    let result = work.run(sources, &mut cache, &mut loader, input, output);
    let (status, present_status) = (loader.status, loader.present_status);
    let (refused, lost) = (loader.refused, loader.lost);
    *first = loader.code;
    StoreEnd {
        result,
        status,
        present_status,
        maps: cache.read().saturating_add(sources.exact.count() as u64),
        missing: cache.missing().saturating_sub(refused),
        refused,
        lost,
        told,
        shortages: cache.shortages(),
    }
}

/// Reports what a run came to, and that memory ran out for some maps, where it did; and gives the exit status. Files that
/// are not there count for that, where they are not to be passed over.
pub fn finish<C, W: ByteSink, E: ByteSink>(
    end: &StoreEnd<C>,
    missing_ok: bool,
    output: &mut W,
    errors: &mut E,
    first: &mut Option<Code>,
) -> u8
    requires output_works { (W.seen output.old).failed ≡ is_write_fault end.now.result }
    ensures { EndsStore end.now missing_ok result
        (sinks_seen (W.seen output.old) (E.seen errors.old) first.old)
        (sinks_seen (W.seen output.new) (E.seen errors.new) first.new) }
{
    match &end.result {
        Ok(_) => {
            let reported = report(&Ok(Reply::Printed), output, errors, first);
            let short = report_shortage(end.shortages, errors);
            map_status(end, missing_ok).max(reported).max(short)
        }
        Err(fault) => {
            let reported = report(&Err(Failure::Fault(*fault)), output, errors, first);
            map_status(end, missing_ok).max(reported)
        }
    }
}

// The greatest status of what was reported of maps; or of all but files that are not there, where these are passed over.
fn map_status<C>(end: &StoreEnd<C>, missing_ok: bool) -> u8
    ensures { result ≡ map_status end.now missing_ok }
{
    if missing_ok {
        end.present_status
    } else {
        end.status
    }
}

// Reports that memory ran out for some maps, where it did, and gives the status of that.
fn report_shortage<E: ByteSink>(shortages: u64, errors: &mut E) -> u8
    ensures { ReportsShortage shortages result (E.seen errors.old) (E.seen errors.new) }
{
    if shortages == 0 {
        return DONE;
    }
    print_error(errors, NO_MEMORY.as_bytes());
    FAILED
}
