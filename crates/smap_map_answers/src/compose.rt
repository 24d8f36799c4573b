//! Composing the maps of files.
ghost use Rattle.std.specs.Prelude.{◌≡◌, MatchResult, option_copied};
ghost use Rattle.smap_map_answers.specs.Compose.{ReportsComposed, compose_refusal_result, compose_result};
ghost use Rattle.smap_replies.specs.Map.{IsResult};
ghost use Rattle.smap_replies.specs.Outcome.{OrMemory, reply_report, report_of};
ghost use Rattle.smap_map_answers.specs.Written.{left_out_of, written_of};
ghost use Rattle.smap_compose.specs.Composition.{composed_of};
ghost use Rattle.smap_compose.specs.LeftOut.{left_of};
ghost use Rattle.smap_mappings.specs.Exact.{GivesOr};

use crate::warning::warn;
use crate::with_id::map_with_id;
use crate::written::{left_out_of, written};
use smap_command::{USUAL_INTERVAL, WriteOptions};
use smap_compose::{ComposeRefusal, Composed, compose_with};
use smap_io::ByteSink;
use smap_record::MapFile;
use smap_replies::{
    Failure, FileReader, MapReader, Reply, Standing, file_bytes, map_of, refused_by,
};
use std::alloc::Global;

/// Reads the maps that the files at the two paths are, the outer one first, and composes the first with that of its source
/// of this number, from 0, without what the options leave out, and with the debug id of the first, where they keep that.
/// Where the outer map is refused, the other file is read all the same: one that can't be read is reported before that.
/// Where the outer map has the content of that source, and the inner map does not fit it, standard error is warned.
pub fn answer_compose<F: FileReader, E: ByteSink>(
    alloc: Global,
    maps: &MapReader<'_, F>,
    outer: &str,
    source: u32,
    inner: &str,
    options: WriteOptions,
    errors: &mut E,
) -> Result<Reply, Failure>
    ensures { ReportsComposed (F.gives maps.now.files.now) options outer.now source inner.now
        (option_copied maps.now.base) (E.seen errors.old) (E.seen errors.new) (report_of result) }
{
    let bytes = file_bytes(alloc, maps.files, 0, outer)?;
    let keeps = options.keep_debug_id;
    let outer_map = map_with_id(alloc, outer, maps.base, USUAL_INTERVAL, bytes, keeps);
    let bytes = file_bytes(alloc, maps.files, 1, inner)?;
    let (outer_map, id) = outer_map?;
    let inner_map = map_of(alloc, inner, Standing::At(maps.base), USUAL_INTERVAL, bytes)?;
    warn(alloc, &outer_map, source, &inner_map, errors)?;
    composed_two(alloc, outer_map, id.as_deref(), source, inner_map, options)
}

// The composed map, or why the maps are not composed.
fn composed_two(
    alloc: Global,
    outer: MapFile,
    id: Option<&str>,
    source: u32,
    inner: MapFile,
    options: WriteOptions,
) -> Result<Reply, Failure>
    ensures { OrMemory (IsResult (compose_result options (option_copied id.entry) outer.stated
        source) inner.stated) (report_of result) }
{
    reported(
        alloc,
        composed_line(alloc, outer, id, source, inner, options),
    )
}

// The composed map as a line. Both maps go before it is written.
fn composed_line(
    alloc: Global,
    outer: MapFile,
    id: Option<&str>,
    source: u32,
    inner: MapFile,
    options: WriteOptions,
) -> Result<Reply, ComposeRefusal>
    ensures { GivesOr ComposeRefusal.Memory reply_report result
        (written_of options (option_copied id.entry)
        (composed_of outer.stated source inner.stated)) }
{
    let composed = composed(alloc, outer, source, inner, options)?;
    Ok(written(alloc, composed, id)?)
}

// The composed map, without what the options leave out.
fn composed(
    alloc: Global,
    outer: MapFile,
    source: u32,
    inner: MapFile,
    options: WriteOptions,
) -> Result<Composed, ComposeRefusal>
    ensures { GivesOr ComposeRefusal.Memory (λ composed. composed) result
        (left_of (left_out_of options) (composed_of outer.stated source inner.stated)) }
{
    compose_with(alloc, &outer, source, &inner, left_out_of(options))
}

/// The composed map, or why maps are not composed.
pub fn reported(alloc: Global, made: Result<Reply, ComposeRefusal>) -> Result<Reply, Failure>
    ensures { MatchResult made (λ reply. report_of result ≡ reply_report reply)
        (λ refusal. OrMemory (λ report. report ≡ compose_refusal_result refusal)
        (report_of result)) }
{
    match made {
        Ok(reply) => Ok(reply),
        Err(ComposeRefusal::Memory) => Err(Failure::Memory),
        Err(refusal) => Err(refused_by(alloc, refusal.code())?),
    }
}
