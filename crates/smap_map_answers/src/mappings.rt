//! Printing the mappings of a map file.
ghost use Rattle.std.specs.Prelude.{◌≡◌, false, option_copied};
ghost use Rattle.smap_map_answers.specs.Mappings.{MappingsReports, PrintingReports, tells_id};
ghost use Rattle.smap_replies.specs.Outcome.{report_of};
ghost use Rattle.smap_printing.specs.Mappings.{text_with_id};

use crate::with_id::read_map_with_id;
use smap_command::{Mappings, MappingsOptions};
use smap_io::ByteSink;
use smap_printing::print_mappings;
use smap_record::MapFile;
use smap_replies::{Failure, FileReader, MapReader, Reply};
use std::alloc::Global;

/// Reads the map of the command, and prints those of its mappings that the options ask for on standard output; behind all
/// of them, as JSON, its debug id, where it has one. The caller gives an output that has not failed.
pub fn answer_mappings<F: FileReader, W: ByteSink>(
    alloc: Global,
    reader: &F,
    asked: &Mappings,
    output: &mut W,
) -> Result<Reply, Failure>
    requires output_works { (W.seen output.old).failed ≡ false }
    ensures { MappingsReports (F.gives reader.now) asked.now (W.seen output.old) (W.seen output.new)
        (report_of result) }
{
    let maps = MapReader {
        files: reader,
        base: asked.map.base.as_ref(),
        interval: asked.map.interval,
    };
    let tells = tells_id(asked.options);
    let (map, id) = read_map_with_id(alloc, &maps, 0, &asked.map.path, tells)?;
    printed_mappings(alloc, &map, id.as_deref(), asked.options, output)
}

// Whether the debug id of the map is told.
fn tells_id(options: MappingsOptions) -> bool
    ensures { result ≡ tells_id options }
{
    options.form.is_json() && options.line.is_none()
}

// Prints the mappings of this map and, behind them, a debug id, where one is given.
fn printed_mappings<W: ByteSink>(
    alloc: Global,
    map: &MapFile,
    id: Option<&str>,
    options: MappingsOptions,
    output: &mut W,
) -> Result<Reply, Failure>
    requires output_works { (W.seen output.old).failed ≡ false }
    ensures { PrintingReports (text_with_id options (option_copied id.entry) map.now.stated)
        (W.seen output.old) (W.seen output.new)
        (report_of result) }
{
    match print_mappings(alloc, map, id, options, output) {
        Ok(()) => Ok(Reply::Printed),
        Err(fault) => Err(Failure::Fault(fault)),
    }
}
