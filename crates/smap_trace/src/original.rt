//! Where a place of a generated program comes from.
ghost use Rattle.std.specs.Prelude.{◌≡◌, option_map};
ghost use Rattle.smap_record.specs.Sources.{source_of};
ghost use Rattle.smap_trace.specs.Private.Remembered.{known_name, location_from, origin_at};
ghost use Rattle.smap_trace.specs.Rewritten.{name_in, original_at};
ghost use Rattle.smap_trace.specs.SightSeen.{original_seen};

use smap_lines::has_control;
use smap_record::{Answer, Meter, ReadyMap, SourceEntry, is_ignored, source_name};
use std::alloc::Global;

/// Where a place comes from: a source, by its name, where it has one that can be printed, and whether its map says to
/// ignore it; and a line and a column in it, which count from 1.
#[derive(Clone, Copy)]
pub struct Original<'t> {
    pub name: Option<&'t str>,
    pub ignored: bool,
    pub line: u64,
    pub column: u64,
}

/// What stands in a place's stead: the name of a source, a line and a column in it, from 1.
#[derive(Clone, Copy)]
pub struct Replacement<'t> {
    pub name: &'t str,
    pub line: u64,
    pub column: u64,
}

/// Where a place comes from, if its map has an origin for it. The line and the column are as printed, from 1. The call
/// takes no memory.
pub fn original_at<'t>(
    alloc: Global,
    map: &'t ReadyMap,
    line: u32,
    column: u32,
) -> Option<Original<'t>>
    ensures { option_map original_seen result ≡ original_at map.now.stated line column }
{
    original_from(map, origin_at(alloc, map, line, column))
}

// A source of a map, by its index, and a line and a column in it, from 0; and whether it has a name that can be printed.
#[derive(Clone, Copy)]
pub struct KnownOrigin {
    pub source: u32,
    pub line: u32,
    pub column: u32,
    pub is_named: bool,
}

// The origin of a place in a map, if it has one.
pub fn origin_at(alloc: Global, map: &ReadyMap, line: u32, column: u32) -> Option<KnownOrigin>
    ensures { result ≡ origin_at map.now.stated line column }
{
    let mut meter = Meter::new(alloc);
    let line = line.saturating_sub(1);
    let column = column.saturating_sub(1);
    let Answer::Found { origin, .. } = map.look_up(line, column, &mut meter) else {
        return None;
    };
    Some(KnownOrigin {
        source: origin.source,
        line: origin.line,
        column: origin.column,
        is_named: printable_name(map.map().source(origin.source)).is_some(),
    })
}

// Where a place comes from that has this origin in a map, if it has one.
pub fn original_from<'t>(map: &'t ReadyMap, origin: Option<KnownOrigin>) -> Option<Original<'t>>
    ensures { option_map original_seen result ≡ option_map (location_from map.now.stated) origin }
{
    let KnownOrigin {
        source,
        line,
        column,
        is_named,
    } = origin?;
    let source = map.map().source(source);
    Some(Original {
        name: known_name(source, is_named),
        ignored: is_ignored(source),
        line: u64::from(line) + 1,
        column: u64::from(column) + 1,
    })
}

// The name of a source of which it is known whether it has one that can be printed.
fn known_name(source: Option<&SourceEntry>, is_named: bool) -> Option<&str>
    ensures { option_map (λ name. name.now) result
        ≡ known_name is_named (option_map (λ entry. source_of entry.now) source.entry) }
{
    if is_named { source_name(source) } else { None }
}

// The name of a source, where it has one that can be printed: it has a byte, and none is a control character of ASCII.
fn printable_name(source: Option<&SourceEntry>) -> Option<&str>
    ensures { option_map (λ name. name.now) result
        ≡ name_in (option_map (λ entry. source_of entry.now) source.entry) }
{
    let name = source_name(source)?;
    if name.is_empty() || has_control(name.as_bytes()) {
        return None;
    }
    Some(name)
}
