//! Reading a map with its debug id, where that is asked for.
ghost use Rattle.std.specs.Prelude.{◌≡◌, option_copied, option_map, string_bytes, IfErr, IfOk};
ghost use Rattle.smap_map_answers.specs.WithId.{IsStatedWithId, id_where};
ghost use Rattle.smap_record.specs.DebugId.{debug_id_of};
ghost use Rattle.smap_record.specs.MapFile.{IsMapOf};
ghost use Rattle.smap_record.specs.Record.{record_of};
ghost use Rattle.smap_replies.specs.Map.{Never, ReportsFound, ReportsMap, refusal_result};
ghost use Rattle.smap_replies.specs.Outcome.{OrMemory, failure_report};

use smap_command::Url;
use smap_record::MapFile;
use smap_replies::{Failure, FileReader, MapReader, Standing, file_bytes, map_of, refusal_of};
use std::alloc::Global;

/// The map that the file of this number and path is, with its debug id, where that is asked for and it has one.
pub fn read_map_with_id<F: FileReader>(
    alloc: Global,
    maps: &MapReader<'_, F>,
    number: usize,
    path: &str,
    asked: bool,
) -> Result<(MapFile, Option<String>), Failure>
    ensures read { IfOk result (λ read. IsStatedWithId (F.gives maps.now.files.now) number path.now
        (option_copied maps.now.base) maps.now.interval asked (option_map string_bytes read.1)
        read.0.stated) }
    ensures refused { IfErr result (λ failure. OrMemory
        (ReportsMap (F.gives maps.now.files.now) number path.now
        (option_copied maps.now.base) maps.now.interval Never) (failure_report failure)) }
{
    let bytes = file_bytes(alloc, maps.files, number, path)?;
    map_with_id(alloc, path, maps.base, maps.interval, bytes, asked)
}

/// The map that the bytes of the file at this path are, with its debug id, where that is asked for and it has one.
pub fn map_with_id(
    alloc: Global,
    path: &str,
    base: Option<&Url>,
    interval: u32,
    bytes: Vec<u8>,
    asked: bool,
) -> Result<(MapFile, Option<String>), Failure>
    ensures read { IfOk result (λ read.
        IsMapOf (record_of bytes.items (option_copied base.entry) interval) interval read.0) }
    ensures id { IfOk result (λ read.
        option_map string_bytes read.1 ≡ id_where asked bytes.items) }
    ensures refused { IfErr result (λ failure. OrMemory (ReportsFound (refusal_result path.now)
        (record_of bytes.items (option_copied base.entry) interval) Never)
        (failure_report failure)) }
{
    if asked {
        map_and_id(alloc, path, base, interval, &bytes)
    } else {
        let map = map_of(alloc, path, Standing::At(base), interval, bytes)?;
        Ok((map, None))
    }
}

// Both.
fn map_and_id(
    alloc: Global,
    path: &str,
    base: Option<&Url>,
    interval: u32,
    bytes: &[u8],
) -> Result<(MapFile, Option<String>), Failure>
    ensures read { IfOk result (λ read.
        IsMapOf (record_of bytes.now (option_copied base.entry) interval) interval read.0) }
    ensures id { IfOk result (λ read. option_map string_bytes read.1 ≡ debug_id_of bytes.now) }
    ensures refused { IfErr result (λ failure. OrMemory (ReportsFound (refusal_result path.now)
        (record_of bytes.now (option_copied base.entry) interval) Never)
        (failure_report failure)) }
{
    match MapFile::read_with_id(alloc, bytes, base, interval, None) {
        Ok(read) => Ok(read),
        Err(refused) => Err(refusal_of(alloc, path, refused)?),
    }
}
