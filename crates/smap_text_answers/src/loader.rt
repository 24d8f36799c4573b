//! The maps that are read when a text names them.
ghost use Rattle.std.specs.Prelude.{◌≡◌, ◌⊎◌, cond, max, option_copied, IfErr, IfOk};
ghost use Rattle.smap_store.specs.Loaded.{loaded_seen};
ghost use Rattle.smap_text_answers.specs.Fitting.{Fits, FitsNot};
ghost use Rattle.smap_text_answers.specs.Told.{said_by, told_seen};
ghost use Rattle.smap_text_answers.specs.Loader.{FailsBy, IsLoaded, IsMissing, IsReportFor, Notes, is_lost, is_no_file, is_of_url, loader_at_first, loader_seen};
ghost use Rattle.smap_replies.specs.Outcome.{failure_report};
ghost use Rattle.smap_trace.specs.declared.maps.NoMap.TheVariants.{Memory, Unnamed};

use crate::fitting::{Fitting, fitting_of, refused_misfit};
use crate::lines;
use crate::standing::standing_loaded;
use crate::told::ToldLines;
use smap_codes::Code;
use smap_io::{ByteSink, ReadFailure};
use smap_record::MapRefusal;
use smap_replies::{
    DONE, Failure, FileReader, MapReader, REFUSED, UnreadCause, file_failed_line, print_error,
    read_standing, refusal_of,
};
use smap_store::{LoadedMap, MapLoader};
use smap_trace::NoMap;
use std::alloc::{AllocError, Global};

// How many maps that can't be had are reported.
const MOST_REPORTED: u64 = 100;

/// Reads maps from files, and reports each that can't be had by a line on standard error: of the first 100 of them.
#[derive(Drop)]
pub struct FileLoader<'m, 'r, 'e, F: FileReader, E: ByteSink> {
    pub maps: &'m MapReader<'r, F>,
    /// Whether, without a base, the sources of a map whose URL is a path are named by paths that go on from its folder.
    pub paths: bool,
    /// The number under which the files are read, which comes after those of the command's own.
    pub number: usize,
    /// Where maps are compared with their generated files, the number under which these are read.
    pub fit: Option<usize>,
    pub errors: &'e mut E,
    /// The greatest status of what was reported, or would have been.
    pub status: u8,
    /// The same, of all but files that are not there.
    pub present_status: u8,
    /// The code of the first refusal that was reported.
    pub code: Option<Code>,
    /// How many maps could not be had.
    pub reported: u64,
    /// How many of them were refused.
    pub refused: u64,
    /// Whether one was lost of which its file does not say so: memory ran out, or the URL of a source was too long.
    pub lost: bool,
    /// What is told of maps that were not compared.
    pub told: &'e mut ToldLines,
}

/// A map that came from a file, and what is told of it, without its LF.
#[derive(Drop)]
pub(crate) struct LoadedFile {
    pub(crate) loaded: LoadedMap,
    pub(crate) told: Option<String>,
}

impl<'m, 'r, 'e, F: FileReader, E: ByteSink> FileLoader<'m, 'r, 'e, F, E> {
    // What has read nothing yet, after a first refusal with this code, and after this was told.
    pub(crate) fn new(
        maps: &'m MapReader<'r, F>,
        paths: bool,
        number: usize,
        fit: Option<usize>,
        errors: &'e mut E,
        code: Option<Code>,
        told: &'e mut ToldLines,
    ) -> FileLoader<'m, 'r, 'e, F, E>
        ensures maps { result.maps ≡ maps.entry }
        ensures paths { result.paths ≡ paths }
        ensures number { result.number ≡ number }
        ensures fit { result.fit ≡ fit }
        ensures same_errors { result.errors.ghost_name ≡ errors.entry.ghost_name }
        ensures errors { result.errors.now ≡ errors.old }
        ensures same_told { result.told.ghost_name ≡ told.entry.ghost_name }
        ensures told { result.told.now ≡ told.old }
        ensures seen { loader_seen E.seen result ≡ loader_at_first (E.seen errors.old) code
            (told_seen told.old) }
    {
        FileLoader {
            maps,
            paths,
            number,
            fit,
            errors,
            status: DONE,
            present_status: DONE,
            code,
            reported: 0,
            refused: 0,
            lost: false,
            told,
        }
    }

    // The map of a URL from the file at a path, with what is told of it, or why there is none.
    pub(crate) fn load_at(&self, alloc: Global, url: &[u8], path: &str) -> Result<LoadedFile, NoMap>
        ensures read { IfOk result (λ file.
            IsLoaded (F.gives self.now.maps.now.files.now) self.now.paths
            (option_copied self.now.maps.now.base) self.now.maps.now.interval self.now.number
            url.now path.now file.loaded.map.stated file.loaded.file_bytes
            × Fits (F.gives self.now.maps.now.files.now) self.now.fit path.now
            file.loaded.map.stated (said_by file.told)) }
        ensures failed { IfErr result (λ why.
            FailsBy (F.gives self.now.maps.now.files.now) self.now.paths
            (option_copied self.now.maps.now.base) self.now.maps.now.interval self.now.number
            self.now.fit why url.now path.now) }
    {
        match self.read_at(alloc, url, path) {
            Ok(loaded) => self.compared(alloc, path, loaded),
            Err(why) => Err(why),
        }
    }

    // The same, before it is compared with its generated file.
    fn read_at(&self, alloc: Global, url: &[u8], path: &str) -> Result<LoadedMap, NoMap>
        ensures read { IfOk result (λ loaded.
            IsLoaded (F.gives self.now.maps.now.files.now) self.now.paths
            (option_copied self.now.maps.now.base) self.now.maps.now.interval self.now.number
            url.now path.now loaded.map.stated loaded.file_bytes) }
        ensures failed { IfErr result (λ why.
            FailsBy (F.gives self.now.maps.now.files.now) self.now.paths
            (option_copied self.now.maps.now.base) self.now.maps.now.interval self.now.number
            self.now.fit why url.now path.now) }
    {
        match self.maps.files.read_file(alloc, self.number, path) {
            Ok(bytes) => {
                let file_bytes = bytes.len() as u64;
                let standing = standing_loaded(self.maps.base, self.paths, url);
                match read_standing(alloc, standing, self.maps.interval, bytes) {
                    Ok(map) => Ok(LoadedMap { map, file_bytes }),
                    Err(MapRefusal::Memory) => Err(NoMap::Memory),
                    Err(refusal) => Err(NoMap::Refused(refusal)),
                }
            }
            Err(ReadFailure::Device) => Err(NoMap::Unread),
            Err(ReadFailure::Memory) => Err(NoMap::Memory),
        }
    }

    // The map of the file at a path, where it fits its generated file, with what is told of it; a URL whose map does not
    // has none.
    fn compared(&self, alloc: Global, path: &str, loaded: LoadedMap) -> Result<LoadedFile, NoMap>
        ensures same { IfOk result (λ file. loaded_seen file.loaded ≡ loaded_seen loaded) }
        ensures fits { IfOk result (λ file. Fits (F.gives self.now.maps.now.files.now) self.now.fit
            path.now loaded.map.stated (said_by file.told)) }
        ensures not { IfErr result (λ why. (why ≡ Memory) ⊎ ((why ≡ Unnamed) ×
            FitsNot (F.gives self.now.maps.now.files.now) self.now.fit path.now
            loaded.map.stated)) }
    {
        let Some(number) = self.fit else {
            return Ok(LoadedFile { loaded, told: None });
        };
        match fitting_of(alloc, self.maps.files, number, path, &loaded.map) {
            Ok(Fitting::Usable(told)) => Ok(LoadedFile { loaded, told }),
            Ok(Fitting::Misfit) => Err(NoMap::Unnamed),
            Err(_) => Err(NoMap::Memory),
        }
    }

    // Reports why a map can't be had from the file at a path, and counts that.
    fn note(&mut self, why: NoMap, path: &str, failure: &Failure)
        ensures noted { Notes (F.causes self.old.maps.now.files.now) (loader_seen E.seen self.old)
            why path.now (failure_report failure.now) (loader_seen E.seen self.new) }
        ensures maps { self.new.maps ≡ self.old.maps }
        ensures paths { self.new.paths ≡ self.old.paths }
        ensures number { self.new.number ≡ self.old.number }
        ensures fit { self.new.fit ≡ self.old.fit }
        ensures errors { self.new.errors.ghost_name ≡ self.old.errors.ghost_name }
        ensures told { self.new.told.ghost_name ≡ self.old.told.ghost_name }
    {
        let status = failure.status();
        self.status = self.status.max(status);
        let is_missing = self.is_missing(why, path);
        self.present_status = status_beside(is_missing, self.present_status, status);
        if status == REFUSED {
            self.refused = self.refused.saturating_add(1);
        }
        if self.reported < MOST_REPORTED {
            print_error(self.errors, failure.bytes());
            self.code = self.code.or(failure.code());
        }
        self.reported = self.reported.saturating_add(1);
        self.lost = self.lost || is_lost(why);
    }

    // Whether a map can't be had since there is no file at a path: that is asked anew.
    fn is_missing(&self, why: NoMap, path: &str) -> bool
        ensures { IsMissing (F.causes self.now.maps.now.files.now) why path.now result }
    {
        match why {
            NoMap::Unread => is_no_file(self.maps.files.unread_cause(path)),
            NoMap::Unnamed | NoMap::Refused(_) | NoMap::Memory => false,
        }
    }
}

// The greater of a status and another, which counts where a file is not missing.
fn status_beside(is_missing: bool, status: u8, other: u8) -> u8
    ensures { result ≡ cond is_missing status (max status other) }
{
    if is_missing {
        status
    } else {
        status.max(other)
    }
}

// Whether there is no file.
fn is_no_file(cause: UnreadCause) -> bool
    ensures { result ≡ is_no_file cause }
{
    matches!(cause, UnreadCause::Missing)
}

impl<F: FileReader, E: ByteSink> MapLoader for FileLoader<'_, '_, '_, F, E> {
    ghost use Rattle.std.specs.Prelude.{option_copied};
    ghost use Rattle.smap_text_answers.specs.Loader.{IsSameLoader, Loads, MayLoad, loader_seen};
    ghost use Rattle.smap_text_answers.specs.Laws.Loader.{given_load, same_load, some_load};

    ghost MayLoad = { λ loader. MayLoad (F.gives loader.maps.now.files.now) loader.paths (option_copied loader.maps.now.base)
        loader.maps.now.interval loader.number loader.fit };

    ghost Loads = { λ loader url path came after. Loads (F.gives loader.maps.now.files.now) (F.causes loader.maps.now.files.now) loader.paths (option_copied loader.maps.now.base)
        loader.maps.now.interval loader.number loader.fit (loader_seen E.seen loader) url path came (loader_seen E.seen after)
        × IsSameLoader loader after };

    fn load(&mut self, alloc: Global, url: &[u8], path: &str) -> Result<LoadedMap, NoMap> {
        match self.load_at(alloc, url, path) {
            Ok(LoadedFile { loaded, told }) => {
                self.told.tell_any(told);
                Ok(loaded)
            }
            Err(why) => {
                let told = unloaded_for(alloc, path, why);
                self.note(told.why, path, &told.failure);
                Err(told.why)
            }
        }
    }

    ghost some = { λ loader. some_load (F.gives loader.maps.now.files.now) loader.paths (option_copied loader.maps.now.base)
        loader.maps.now.interval loader.number loader.fit };

    ghost given = { λ loader after url path came loads. given_load (F.gives loader.maps.now.files.now) loader.paths (option_copied loader.maps.now.base)
        loader.maps.now.interval loader.number loader.fit (F.causes loader.maps.now.files.now) _ _ url path came loads.0 };

    ghost same = { λ loader after url path other other_path came more loads may. same_load F.gives loader after loads.1 other other_path more may };
}

// Whether a map is lost of which its file does not say so: memory ran out, or the URL of a source was too long.
fn is_lost(why: NoMap) -> bool
    ensures { result ≡ is_lost why }
{
    match why {
        NoMap::Memory => true,
        NoMap::Refused(refusal) => is_of_url(refusal),
        NoMap::Unnamed | NoMap::Unread => false,
    }
}

// Whether resolving a source gave a URL that is too long.
fn is_of_url(refusal: MapRefusal) -> bool
    ensures { result ≡ is_of_url refusal }
{
    matches!(refusal, MapRefusal::Url)
}

// Why no map came from a file, and how that is reported.
#[derive(Drop)]
struct Unloaded {
    why: NoMap,
    failure: Failure,
}

// That no map came from the file at a path, for this; or for want of memory, where there is none to say so.
fn unloaded_for(alloc: Global, path: &str, why: NoMap) -> Unloaded
    ensures why { (result.why ≡ why) ⊎ (result.why ≡ Memory) }
    ensures reported { IsReportFor result.why path.now (failure_report result.failure) }
{
    match failure_for(alloc, path, why) {
        Ok(failure) => Unloaded { why, failure },
        Err(_) => Unloaded {
            why: NoMap::Memory,
            failure: no_memory_for(alloc, path),
        },
    }
}

// How it is reported; not here, where memory ran out.
fn failure_for(alloc: Global, path: &str, why: NoMap) -> Result<Failure, AllocError>
    ensures { IfOk result (λ failure. IsReportFor why path.now (failure_report failure)) }
{
    match why {
        NoMap::Unread => Ok(Failure::Unreadable(file_failed_line(alloc, path)?)),
        NoMap::Refused(refusal) => refusal_of(alloc, path, refusal),
        NoMap::Unnamed => refused_misfit(alloc, path),
        NoMap::Memory => Err(AllocError),
    }
}

// That memory ran out: by a line that names the file at a path, if there is memory for that.
fn no_memory_for(alloc: Global, path: &str) -> Failure
    ensures { IsReportFor Memory path.now (failure_report result) }
{
    match lines::map_memory_line(alloc, path) {
        Ok(line) => Failure::Unreadable(line),
        Err(_) => Failure::Memory,
    }
}
