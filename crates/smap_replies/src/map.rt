//! Reading the map that a file is.
ghost use Rattle.std.specs.Prelude.{◌≡◌, option_copied, IfErr, IfOk, Ok};
ghost use Rattle.smap_command.specs.Limits.{usual_interval};
ghost use Rattle.smap_replies.specs.Files.{IsUnread};
ghost use Rattle.smap_replies.specs.Map.{IsStated, Never, ReportsMap, StatesChosen};
ghost use Rattle.smap_replies.specs.Outcome.{OrMemory, failure_report};
ghost use Rattle.smap_replies.specs.Why.{ReportsChosen};

use crate::files::FileReader;
use crate::outcome::Failure;
use crate::why::{file_bytes_explained, read_map_explained};
use smap_command::{MapChoice, USUAL_INTERVAL};
use smap_record::{MapFile, Url};
use std::alloc::Global;

/// How the map files of a command are read.
#[derive(Drop)]
pub struct MapReader<'a, F: FileReader> {
    /// What reads the files.
    pub files: &'a F,
    /// The URL against which sources are resolved, where one is given.
    pub base: Option<&'a Url>,
    /// The interval at which the checkpoints of a map stand.
    pub interval: u32,
}

impl<'a, F: FileReader> MapReader<'a, F> {
    /// At this base, where one is given, with checkpoints at the usual interval.
    pub fn usual(files: &'a F, base: Option<&'a Url>) -> MapReader<'a, F>
        ensures files { result.files ≡ files.entry }
        ensures base { result.base ≡ base.entry }
        ensures interval { result.interval ≡ usual_interval }
    {
        MapReader {
            files,
            base,
            interval: USUAL_INTERVAL,
        }
    }
}

/// The map that a command chooses, which is the first of its files. Where it is none, and `explain` asks for that, why is
/// reported too.
pub fn read_chosen<F: FileReader>(
    alloc: Global,
    reader: &F,
    chosen: &MapChoice,
    explain: bool,
) -> Result<MapFile, Failure>
    ensures read { IfOk result (λ map. StatesChosen (F.gives reader.now) chosen.now map.stated) }
    ensures refused { IfErr result (λ failure. OrMemory
        (ReportsChosen (F.gives reader.now) explain chosen.now Never) (failure_report failure)) }
{
    let maps = MapReader {
        files: reader,
        base: chosen.base.as_ref(),
        interval: chosen.interval,
    };
    read_map_explained(alloc, &maps, 0, &chosen.path, explain)
}

/// The map that the file of this number and path is.
pub fn read_map<F: FileReader>(
    alloc: Global,
    maps: &MapReader<'_, F>,
    number: usize,
    path: &str,
) -> Result<MapFile, Failure>
    ensures read { IfOk result (λ map. IsStated (F.gives maps.now.files.now) number path.now
        (option_copied maps.now.base) maps.now.interval map.stated) }
    ensures refused { IfErr result (λ failure. OrMemory
        (ReportsMap (F.gives maps.now.files.now) number path.now
        (option_copied maps.now.base) maps.now.interval Never) (failure_report failure)) }
{
    read_map_explained(alloc, maps, number, path, false)
}

/// The bytes of the file of this number and path.
pub fn file_bytes<F: FileReader>(
    alloc: Global,
    reader: &F,
    number: usize,
    path: &str,
) -> Result<Vec<u8>, Failure>
    ensures read { IfOk result (λ bytes. F.gives reader.now number path.now (Ok bytes.items)) }
    ensures unread { IfErr result (λ failure. OrMemory
        (IsUnread (F.gives reader.now) number path.now)
        (failure_report failure)) }
{
    file_bytes_explained(alloc, reader, number, path, false)
}
