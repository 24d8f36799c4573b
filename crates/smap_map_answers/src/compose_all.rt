//! Composing the map of a file with those of several of its sources.
ghost use Rattle.std.specs.Prelude.{◌≡◌, ◌≤◌, ◌⊎◌, Err, length, map, option_copied, option_map, string_bytes, IfOk};
ghost use Rattle.smap_map_answers.specs.ComposeAll.{GathersInners, ReportsAllComposed, ReportsInners};
ghost use Rattle.smap_replies.specs.Outcome.{out_of_memory, reply_report, report_of};
ghost use Rattle.smap_map_answers.specs.Private.Inners.{inners_reported, inners_stated};
ghost use Rattle.smap_replies.specs.Arguments.{argument_of};
ghost use Rattle.smap_map_answers.specs.Written.{left_out_of, written_of};
ghost use Rattle.smap_compose.specs.Composition.{all_composed};
ghost use Rattle.smap_compose.specs.Inners.{stated_inners};
ghost use Rattle.smap_compose.specs.LeftOut.{left_of};
ghost use Rattle.smap_mappings.specs.Exact.{GivesOr};

use crate::compose::reported;
use crate::inners::{named_inners, read_inners};
use crate::outer_map::OuterMap;
use crate::warning::warn_all;
use crate::with_id::read_map_with_id;
use crate::written::{left_out_of, written};
use smap_command::{ComposeAll, WriteOptions};
use smap_compose::{ComposeRefusal, Composed, compose_all};
use smap_io::ByteSink;
use smap_record::MapFile;
use smap_replies::{Failure, FileReader, MapReader, Reply};
use std::alloc::{AllocError, Global};

/// Reads the map that the file of number 0 is, then the list of number 1, where there is one, then the maps of sources,
/// which have the number 2, and composes them, without what the options leave out, and with the debug id of the first, where
/// they keep that. Where the outer map has the content of a source, and the map of that does not fit it, standard error is
/// warned.
pub fn answer_compose_all<F: FileReader, E: ByteSink>(
    alloc: Global,
    reader: &F,
    asked: &ComposeAll,
    errors: &mut E,
) -> Result<Reply, Failure>
    ensures { ReportsAllComposed (F.gives reader.now) asked.now
        (E.seen errors.old) (E.seen errors.new) (report_of result) }
{
    let maps = MapReader::usual(reader, asked.base.as_ref());
    let keeps = asked.options.keep_debug_id;
    let (outer, id) = read_map_with_id(alloc, &maps, 0, &asked.outer, keeps)?;
    composed_with(alloc, reader, asked, outer, id.as_deref(), errors)
}

// The outer map composed with those of its sources.
fn composed_with<F: FileReader, E: ByteSink>(
    alloc: Global,
    reader: &F,
    asked: &ComposeAll,
    outer: MapFile,
    id: Option<&str>,
    errors: &mut E,
) -> Result<Reply, Failure>
    ensures { ReportsInners (F.gives reader.now) asked.now.options
        (map argument_of asked.now.inners.items) (option_map string_bytes asked.now.list)
        (option_copied id.entry) outer.stated
        (E.seen errors.old) (E.seen errors.new) (report_of result) }
{
    let inners = gathered_inners(alloc, reader, asked, &outer)?;
    warn_all(alloc, &outer, &inners, errors)?;
    reported(alloc, all_line(alloc, outer, inners, id, asked.options))
}

// The maps of the sources of the outer map, where they have one.
fn gathered_inners<F: FileReader>(
    alloc: Global,
    reader: &F,
    asked: &ComposeAll,
    outer: &MapFile,
) -> Result<Vec<Option<MapFile>>, Failure>
    ensures gathered { (inners_reported result ≡ Err out_of_memory)
        ⊎ GathersInners (F.gives reader.now) outer.now.stated.sources
        (map argument_of asked.now.inners.items) (option_map string_bytes asked.now.list)
        (inners_reported result) }
    ensures counted { IfOk result (λ inners. length inners.items
        ≡ length outer.now.stated.sources) }
{
    let outer = OuterMap::new(alloc, outer)?;
    let named = named_inners(alloc, reader, &outer, &asked.inners, asked.list.as_deref())?;
    read_inners(alloc, reader, &outer, &named)
}

// The composed map as a line. All maps go before it is written.
fn all_line(
    alloc: Global,
    outer: MapFile,
    inners: Vec<Option<MapFile>>,
    id: Option<&str>,
    options: WriteOptions,
) -> Result<Reply, ComposeRefusal>
    requires { length inners.items ≤ length outer.stated.sources }
    ensures { GivesOr ComposeRefusal.Memory reply_report result
        (written_of options (option_copied id.entry)
        (all_composed outer.stated (inners_stated inners.items))) }
{
    let composed = composed_all(alloc, outer, inners, options)?;
    Ok(written(alloc, composed, id)?)
}

// The composed map, without what the options leave out.
fn composed_all(
    alloc: Global,
    outer: MapFile,
    inners: Vec<Option<MapFile>>,
    options: WriteOptions,
) -> Result<Composed, ComposeRefusal>
    requires { length inners.items ≤ length outer.stated.sources }
    ensures { GivesOr ComposeRefusal.Memory (λ composed. composed) result
        (left_of (left_out_of options) (all_composed outer.stated (inners_stated inners.items))) }
{
    let lent = lent_inners(alloc, &inners)?;
    compose_all(alloc, &outer, &lent, left_out_of(options))
}

// The maps, lent.
fn lent_inners<'a>(
    alloc: Global,
    inners: &'a [Option<MapFile>],
) -> Result<Vec<Option<&'a MapFile>>, AllocError>
    ensures { IfOk result (λ lent. stated_inners lent.items ≡ inners_stated inners.now) }
{
    let mut lent = Vec::with_capacity(alloc, inners.len())?;
    for inner in inners {
        lent.push(inner.as_ref())?;
    }
    Ok(lent)
}
