//! Maps composed.
use crate::answer::Answer;
use crate::fault::RowFault;
use crate::maps::map_of;
use crate::row::Row;
use smap_compose::{ComposeRefusal, Composed, compose};
use smap_record::MapFile;

/// An outer map, a source of it, an inner map and an interval: what is written of the composed map, or why
/// there is none.
pub(crate) fn two(row: &Row<'_>, answer: &mut Answer) -> Result<(), RowFault> {
    put_composed(row, answer, composed_at(row, 1, row.number(4)?)?)
}

// What the map of a field and that two fields behind it compose to, over the source of the field between them.
fn composed_at(
    row: &Row<'_>,
    first: usize,
    interval: u32,
) -> Result<Result<Composed, ComposeRefusal>, RowFault> {
    let source = row.number(first.saturating_add(1))?;
    let outer = map_of(row, first, interval)?;
    let inner = map_of(row, first.saturating_add(2), interval)?;
    Ok(compose(row.alloc(), &outer, source, &inner))
}

fn put_composed(
    row: &Row<'_>,
    answer: &mut Answer,
    composed: Result<Composed, ComposeRefusal>,
) -> Result<(), RowFault> {
    match composed {
        Ok(composed) => answer.put(&composed.write_owned(row.alloc())?),
        Err(refusal) => answer.put_debug(&refusal),
    }
}

/// Three maps, each with a source of the one before it, and an interval: what is written where the first two are composed
/// first, and where the last two are. The fields are a map, a source, a map, a source, a map, and the interval.
pub(crate) fn three(row: &Row<'_>, answer: &mut Answer) -> Result<(), RowFault> {
    put_first_two_first(row, answer)?;
    put_last_two_first(row, answer)
}

fn put_first_two_first(row: &Row<'_>, answer: &mut Answer) -> Result<(), RowFault> {
    let place = sources_of(row, 1)?.saturating_add(row.number(4)?);
    let (two, third) = (composed_map(row, 1)?, map_of(row, 5, row.number(6)?)?);
    put_composed(row, answer, compose(row.alloc(), &two, place, &third))
}

fn sources_of(row: &Row<'_>, number: usize) -> Result<u32, RowFault> {
    let map = map_of(row, number, row.number(6)?)?;
    u32::try_from(map.sources()).map_err(|_| RowFault::BadNumber)
}

fn put_last_two_first(row: &Row<'_>, answer: &mut Answer) -> Result<(), RowFault> {
    let source = row.number(2)?;
    let (first, two) = (map_of(row, 1, row.number(6)?)?, composed_map(row, 3)?);
    put_composed(row, answer, compose(row.alloc(), &first, source, &two))
}

// The map that is read of what is written of a composed one.
fn composed_map(row: &Row<'_>, first: usize) -> Result<MapFile, RowFault> {
    let interval = row.number(6)?;
    let composed = composed_at(row, first, interval)?.map_err(|_| RowFault::Refused)?;
    let bytes = composed.write_owned(row.alloc())?;
    MapFile::read_owned(row.alloc(), bytes, None, interval).map_err(|_| RowFault::Refused)
}
