//! What a map answers for a position, and what the map reports the source and the name in it.
ghost use Rattle.std.specs.Prelude.{◌≡◌, ◌+◌, option_and_then, option_map, slice_get, string_bytes, IfOk};
ghost use Rattle.smap_record.specs.Sources.{source_of};
ghost use Rattle.smap_printing.specs.Lookup.{answer_excerpt, lookup_answer, source_excerpt};

use smap_command::Direction;
use smap_record::{Answer, MapFile, Meter, Origin, ReadyMap, SourceEntry};
use smap_text::excerpt;
use std::alloc::{AllocError, Global};

/// What a map answers for a position. The call takes no memory.
pub fn lookup_answer(
    alloc: Global,
    map: &ReadyMap,
    line: u32,
    column: u32,
    direction: Direction,
) -> Answer
    ensures { result ≡ lookup_answer direction line column map.now.stated }
{
    let mut meter = Meter::new(alloc);
    match direction {
        Direction::AtOrBefore => map.look_up(line, column, &mut meter),
        Direction::AtOrAfter => map.look_up_from(line, column, &mut meter),
    }
}

/// The excerpt that shows the place that was found, where there is one.
pub fn answer_excerpt(
    alloc: Global,
    map: &MapFile,
    answer: &Answer,
) -> Result<Option<String>, AllocError>
    ensures { IfOk result (λ text. option_map string_bytes text
        ≡ answer_excerpt map.now.stated answer.now) }
{
    match answer {
        Answer::Found { origin, .. } => source_excerpt(alloc, map.source(origin.source), origin),
        _ => Ok(None),
    }
}

// The excerpt of the source's content that shows a place, where there is one.
fn source_excerpt(
    alloc: Global,
    entry: Option<&SourceEntry>,
    origin: &Origin,
) -> Result<Option<String>, AllocError>
    ensures { IfOk result (λ text. option_map string_bytes text
        ≡ source_excerpt (option_map (λ entry. source_of entry.now) entry.entry) origin.now) }
{
    match entry {
        Some(
            SourceEntry {
                content: Some(content),
                ..
            },
        ) => excerpt(alloc, content, origin.line, origin.column),
        _ => Ok(None),
    }
}

/// A name of the map, where there is one.
pub fn name_at(map: &MapFile, index: Option<u32>) -> Option<&str>
    ensures { option_map (λ name. name.now) result
        ≡ option_and_then (slice_get map.now.stated.names) index }
{
    map.name(index?)
}

/// A number that counts from 0, counted from 1.
pub fn from_one(number: u32) -> u64
    ensures { result ≡ number + 1 }
{
    u64::from(number) + 1
}
