//! Stack traces: frames, and what a trace becomes over a table of maps.
ghost use Rattle.std.specs.Prelude.{◌≡◌, false};

use crate::answer::Answer;
use crate::devices::{sink, source};
use crate::fault::RowFault;
use crate::maps::map_at;
use crate::row::Row;
use smap_anywhere::{MapUrls, PlaceNotes, PlaceOptions, rewrite_anywhere};
use smap_io::{MemorySink, MemorySource};
use smap_locations::Locations;
use smap_record::{MapFile, Url};
use smap_trace::{RewriteFault, Summary, Table, TableMaps, frame, rewrite};
use std::alloc::Global;

// A map without mappings.
const EMPTY_MAP: &[u8] = br#"{"version":3,"sources":[],"mappings":""}"#;

/// A line: the parts of the frame that it is, or `none`.
pub(crate) fn parts(row: &Row<'_>, answer: &mut Answer) -> Result<(), RowFault> {
    let line = row.bytes(1)?;
    let Some(frame) = frame(&line) else {
        return answer.put_text("none");
    };
    answer.put(frame.head)?;
    answer.put(frame.url)?;
    answer.put_number(u64::from(frame.line))?;
    answer.put_number(u64::from(frame.column))?;
    answer.put(frame.tail)
}

/// The table of the maps of a row, from this field on: the URL of each, which is its base where it is one, and the map.
pub(crate) fn table_of(row: &Row<'_>, first: usize, interval: u32) -> Result<Table, RowFault> {
    let mut table = Table::new(row.alloc());
    for number in (first..row.count()).step_by(2) {
        add_map(row, number, interval, &mut table)?;
    }
    Ok(table)
}

fn add_map(row: &Row<'_>, number: usize, interval: u32, table: &mut Table) -> Result<(), RowFault> {
    let url = row.text(number)?;
    let base = Url::parse(row.alloc(), url.as_str()).ok();
    let map = map_at(row, number.saturating_add(1), base.as_ref(), interval)?;
    table.add(url, map).map_err(|_| RowFault::Refused)
}

/// URLs: what comes of adding a map under each to one table, with the URL that comes back; and how many the table has then.
pub(crate) fn added(row: &Row<'_>, answer: &mut Answer) -> Result<(), RowFault> {
    let mut table = Table::new(row.alloc());
    for number in 1..row.count() {
        answer.put_text(&added_text(row, number, &mut table)?)?;
    }
    answer.put_number(table.count() as u64)
}

fn added_text(row: &Row<'_>, number: usize, table: &mut Table) -> Result<String, RowFault> {
    let url = row.text(number)?;
    match table.add(url, empty_map(row.alloc())?) {
        Ok(()) => Ok(String::from_str(row.alloc(), "added")?),
        Err((refusal, url, _map)) => Ok(format!(in row.alloc(); "{refusal:?} {url}")?),
    }
}

fn empty_map(alloc: Global) -> Result<MapFile, RowFault> {
    MapFile::read(alloc, EMPTY_MAP, None, 64).map_err(|_| RowFault::Refused)
}

fn put_outcome(
    row: &Row<'_>,
    answer: &mut Answer,
    outcome: Result<Summary, RewriteFault>,
    output: &MemorySink,
) -> Result<(), RowFault> {
    match outcome {
        Ok(summary) => {
            let (lines, frames) = (summary.lines, summary.frames);
            let (mapped, hidden) = (summary.mapped, summary.hidden);
            let counts = format!(in row.alloc(); "{lines} {frames} {mapped} {hidden}")?;
            answer.put_text(&counts)?;
        }
        Err(fault) => answer.put_debug(&fault)?,
    }
    answer.put(output.bytes())
}

/// An input, an output, `hide` or `show`, an interval, a trace, and the URLs and maps of a table: the lines, frames,
/// replaced and hidden frames, and what the trace becomes.
pub(crate) fn frames(row: &Row<'_>, answer: &mut Answer) -> Result<(), RowFault> {
    let is_hiding = row.field(3)? == "hide";
    let table = table_of(row, 6, row.number(4)?)?;
    let mut input = source(row, 1, 5)?;
    let mut output = sink(row, 2)?;
    let outcome = rewrite(row.alloc(), &mut input, &mut output, &table, is_hiding);
    put_outcome(row, answer, outcome, &output)
}

/// An input, an output, how many bytes a text may have, an interval, a text, and the URLs and maps of a table: its lines,
/// places and replaced places, and what the text becomes.
pub(crate) fn places(row: &Row<'_>, answer: &mut Answer) -> Result<(), RowFault> {
    let table = table_of(row, 6, row.number(4)?)?;
    let mut input = source(row, 1, 5)?;
    let mut output = sink(row, 2)?;
    let outcome = places_over(row, &table, &mut input, &mut output)?;
    put_outcome(row, answer, outcome, &output)
}

// What rewriting the places of an input comes to over a table.
fn places_over(
    row: &Row<'_>,
    table: &Table,
    input: &mut MemorySource,
    output: &mut MemorySink,
) -> Result<Result<Summary, RewriteFault>, RowFault>
    requires input_works { input.old.failed ≡ false }
    requires output_works { output.old.failed ≡ false }
{
    let most_bytes = u64::from(row.number(3)?);
    let locations = Locations::new(row.alloc());
    let urls = MapUrls::new(row.alloc(), table, &locations)?;
    let options = PlaceOptions {
        known: &urls,
        most_bytes,
        is_noted: false,
    };
    let (mut maps, mut notes) = (TableMaps(table), PlaceNotes::new(row.alloc()));
    Ok(rewrite_anywhere(row.alloc(), input, output, &mut maps, &options, &mut notes))
}
