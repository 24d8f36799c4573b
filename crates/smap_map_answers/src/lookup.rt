//! Looking a position up in a map file.
ghost use Rattle.std.specs.Prelude.{◌≡◌, option_copied, string_bytes, IfOk};
ghost use Rattle.smap_map_answers.specs.Lookup.{about_text, lookup_print};
ghost use Rattle.smap_replies.specs.Map.{IsLine};
ghost use Rattle.smap_replies.specs.Outcome.{OrMemory, report_of};
ghost use Rattle.smap_replies.specs.Why.{ReportsMapWhy};

use smap_command::{Direction, LookupOptions};
use smap_printing::{lookup_as_json, lookup_text};
use smap_record::{MapFile, Meter, ReadyMap};
use smap_replies::{Failure, FileReader, MapReader, Reply, read_map_explained};
use smap_verdicts::nearest_text;
use std::alloc::{AllocError, Global};

/// Looks a generated line and column, both from 0, up in the map that the file at this path is. Where it is none, and that
/// is asked, why is reported too.
pub fn answer_lookup<F: FileReader>(
    alloc: Global,
    maps: &MapReader<'_, F>,
    path: &str,
    position: (u32, u32),
    direction: Direction,
    options: LookupOptions,
) -> Result<Reply, Failure>
    ensures { OrMemory (ReportsMapWhy (F.gives maps.now.files.now) options.explain 0 path.now
        (option_copied maps.now.base) maps.now.interval
        (IsLine (lookup_print direction options position.0 position.1)))
        (report_of result) }
{
    let map = read_map_explained(alloc, maps, 0, path, options.explain)?;
    let map = ReadyMap::for_few(alloc, map);
    let (line, column) = position;
    let text = lookup_print(alloc, &map, line, column, direction, options)?;
    Ok(Reply::Bytes(text))
}

// What is printed for what a map answers for a position.
fn lookup_print(
    alloc: Global,
    map: &ReadyMap,
    line: u32,
    column: u32,
    direction: Direction,
    options: LookupOptions,
) -> Result<Vec<u8>, AllocError>
    ensures { IfOk result (λ text. text.items
        ≡ lookup_print direction options line column map.now.stated) }
{
    if options.form.is_json() {
        return lookup_as_json(alloc, map, line, column, direction);
    }
    let mut text = lookup_text(alloc, map, line, column, direction)?;
    if options.explain {
        text.extend_from_slice(about_text(alloc, map.map(), line, column)?.as_bytes())?;
    }
    Ok(text)
}

// Which mappings stand nearest to a position.
fn about_text(alloc: Global, map: &MapFile, line: u32, column: u32) -> Result<String, AllocError>
    ensures { IfOk result (λ text. string_bytes text ≡ about_text line column map.now.stated) }
{
    let mut meter = Meter::new(alloc);
    nearest_text(alloc, map.neighbours(line, column, &mut meter), line)
}
