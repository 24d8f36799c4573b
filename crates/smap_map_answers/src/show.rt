//! Writing what a map file states as one regular map.
ghost use Rattle.std.specs.Prelude.{[], option_copied};
ghost use Rattle.smap_replies.specs.Map.{IsResult};
ghost use Rattle.smap_replies.specs.Outcome.{OrMemory, reply_report, report_of};
ghost use Rattle.smap_map_answers.specs.Show.{ReportsShown, show_result, show_with_result, shown_result};
ghost use Rattle.smap_map_answers.specs.Written.{left_out_of, written_of};
ghost use Rattle.smap_compose.specs.Composition.{all_composed};
ghost use Rattle.smap_compose.specs.LeftOut.{left_of};
ghost use Rattle.smap_mappings.specs.Exact.{GivesOr};

use crate::with_id::read_map_with_id;
use crate::written::{left_out_of, line_of, written};
use smap_codes::Code;
use smap_command::{Url, WriteOptions};
use smap_compose::{ComposeRefusal, Composed, compose_all};
use smap_record::{MapFile, WriteRefusal};
use smap_replies::{Failure, FileReader, MapReader, Reply, refused_by};
use std::alloc::Global;

/// Reads the map that the file at this path is, at the base, and writes what it states as one regular map, without what the
/// options leave out, and with its debug id, where they keep that.
pub fn answer_show<F: FileReader>(
    alloc: Global,
    reader: &F,
    path: &str,
    base: Option<&Url>,
    options: WriteOptions,
) -> Result<Reply, Failure>
    ensures { OrMemory (ReportsShown (F.gives reader.now) path.now (option_copied base.entry)
        options) (report_of result) }
{
    let maps = MapReader::usual(reader, base);
    let (map, id) = read_map_with_id(alloc, &maps, 0, path, options.keep_debug_id)?;
    shown_map(alloc, map, id.as_deref(), options)
}

// The map as a line, or why it is not written.
fn shown_map(
    alloc: Global,
    map: MapFile,
    id: Option<&str>,
    options: WriteOptions,
) -> Result<Reply, Failure>
    ensures { OrMemory (IsResult (shown_result options (option_copied id.entry)) map.stated)
        (report_of result) }
{
    if options.leaves_out() {
        left_map(alloc, map, id, options)
    } else {
        written_map(alloc, &map, id)
    }
}

// The written map as a line, or that its mappings text would be too long.
fn written_map(alloc: Global, map: &MapFile, id: Option<&str>) -> Result<Reply, Failure>
    ensures { OrMemory (IsResult (show_result (option_copied id.entry)) map.now.stated)
        (report_of result) }
{
    match map.write(alloc) {
        Ok(bytes) => Ok(Reply::Bytes(line_of(alloc, bytes, id)?)),
        Err(WriteRefusal::TextTooLong) => Err(refused_by(alloc, Code::O1)?),
        Err(WriteRefusal::Memory) => Err(Failure::Memory),
    }
}

// What the options leave of the map as a line, or why it is not written.
fn left_map(
    alloc: Global,
    map: MapFile,
    id: Option<&str>,
    options: WriteOptions,
) -> Result<Reply, Failure>
    ensures { OrMemory (IsResult (show_with_result options (option_copied id.entry)) map.stated)
        (report_of result) }
{
    match line_left(alloc, map, id, options) {
        Ok(reply) => Ok(reply),
        Err(ComposeRefusal::TooLarge) => Err(refused_by(alloc, Code::O1)?),
        Err(_) => Err(Failure::Memory),
    }
}

// What the options leave of a map, as a line. The map goes before it is written.
fn line_left(
    alloc: Global,
    map: MapFile,
    id: Option<&str>,
    options: WriteOptions,
) -> Result<Reply, ComposeRefusal>
    ensures { GivesOr ComposeRefusal.Memory reply_report result
        (written_of options (option_copied id.entry) (all_composed map.stated [])) }
{
    let left = left_of_map(alloc, map, options)?;
    Ok(written(alloc, left, id)?)
}

fn left_of_map(
    alloc: Global,
    map: MapFile,
    options: WriteOptions,
) -> Result<Composed, ComposeRefusal>
    ensures { GivesOr ComposeRefusal.Memory (λ left. left) result
        (left_of (left_out_of options) (all_composed map.stated [])) }
{
    compose_all(alloc, &map, &[], left_out_of(options))
}
