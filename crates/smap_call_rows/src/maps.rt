//! Map files: what is read of one, and what is written of it.
use crate::answer::Answer;
use crate::fault::RowFault;
use crate::row::Row;
use crate::texts::put_held;
use smap_record::{MapFile, MapRefusal, SourceEntry, Url, WriteRefusal};
use std::alloc::{AllocError, Global};

/// The map of a field, at an interval.
pub(crate) fn map_of(row: &Row<'_>, number: usize, interval: u32) -> Result<MapFile, RowFault> {
    map_at(row, number, None, interval)
}

/// The same, whose sources are resolved against a base.
pub(crate) fn map_at(
    row: &Row<'_>,
    number: usize,
    base: Option<&Url>,
    interval: u32,
) -> Result<MapFile, RowFault> {
    let bytes = row.bytes(number)?;
    MapFile::read_owned(row.alloc(), bytes, base, interval).map_err(|_| RowFault::Refused)
}

/// A map, an interval, and a base or none: its mappings, file, sources, contents and names, or why it is refused. It is read
/// twice, of bytes that are lent and of bytes that are let go.
pub(crate) fn read(row: &Row<'_>, answer: &mut Answer) -> Result<(), RowFault> {
    let (bytes, interval, base) = (row.bytes(1)?, row.number(2)?, row.url_or_none(3)?);
    let lent = MapFile::read(row.alloc(), &bytes, base.as_ref(), interval);
    put_read(row, answer, lent)?;
    let owned = MapFile::read_owned(row.alloc(), bytes, base.as_ref(), interval);
    put_read(row, answer, owned)
}

fn put_read(
    row: &Row<'_>,
    answer: &mut Answer,
    read: Result<MapFile, MapRefusal>,
) -> Result<(), RowFault> {
    match read {
        Ok(map) => put_map(row, answer, &map),
        Err(refusal) => answer.put_debug(&refusal),
    }
}

fn put_map(row: &Row<'_>, answer: &mut Answer, map: &MapFile) -> Result<(), RowFault> {
    let list = map.decode_all(row.alloc())?;
    put_held(row, answer, map.segments(), map.used_lines(), &list)?;
    answer.put_text(map.file().unwrap_or("-"))?;
    answer.put_text(&sources_text(row.alloc(), map)?)?;
    answer.put_text(&contents_text(row.alloc(), map)?)?;
    answer.put_text(&names_text(row.alloc(), map)?)
}

// No map of the rows has so many sources, or so many names.
const MOST_LISTED: u32 = 100;

// The names of the sources, with a comma between two, and `*` after each one that is ignored.
fn sources_text(alloc: Global, map: &MapFile) -> Result<String, AllocError> {
    let mut text = String::new(alloc);
    for i in 0..MOST_LISTED {
        if let Some(source) = map.source(i) {
            push_entry(&mut text, i, name_text(source))?;
            text.push_str(if source.ignored { "*" } else { "" })?;
        }
    }
    Ok(text)
}

fn name_text(source: &SourceEntry) -> &str {
    match &source.name {
        Some(name) => name.text(),
        None => "none",
    }
}

// The contents of the sources, with a comma between two, and `none` where there is none.
fn contents_text(alloc: Global, map: &MapFile) -> Result<String, AllocError> {
    let mut text = String::new(alloc);
    for i in 0..MOST_LISTED {
        if let Some(source) = map.source(i) {
            push_entry(&mut text, i, source.content.as_deref().unwrap_or("none"))?;
        }
    }
    Ok(text)
}

fn names_text(alloc: Global, map: &MapFile) -> Result<String, AllocError> {
    let mut text = String::new(alloc);
    for i in 0..MOST_LISTED {
        if let Some(name) = map.name(i) {
            push_entry(&mut text, i, name)?;
        }
    }
    Ok(text)
}

// Puts a text after a list of others, with a comma between two.
fn push_entry(list: &mut String, place: u32, entry: &str) -> Result<(), AllocError> {
    if place > 0 {
        list.push(',')?;
    }
    list.push_str(entry)
}

/// A map and an interval: what is written of it, or why nothing is.
pub(crate) fn write(row: &Row<'_>, answer: &mut Answer) -> Result<(), RowFault> {
    let map = map_of(row, 1, row.number(2)?)?;
    put_written(answer, map.write(row.alloc()))
}

fn put_written(
    answer: &mut Answer,
    written: Result<Vec<u8>, WriteRefusal>,
) -> Result<(), RowFault> {
    match written {
        Ok(bytes) => answer.put(&bytes),
        Err(WriteRefusal::TextTooLong) => answer.put_text("TextTooLong"),
        Err(WriteRefusal::Memory) => Err(RowFault::Memory),
    }
}
