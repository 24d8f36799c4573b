//! What is said of each source of a map.
ghost use Rattle.std.specs.Prelude.{◌≡◌, ◌<◌, length, map, option_copied, slice_index, IfOk, OnOk};
ghost use Rattle.std.specs.List.{range_with_len};
ghost use Rattle.smap_index.specs.Parts.{joined};
ghost use Rattle.smap_fit.specs.Private.Counted.{counted_row};
ghost use Rattle.smap_fit.specs.Rows.{IsByBytes, IsOrderedRows, rows_of, unmapped_in};

use crate::segments::segments_by_source;
use crate::shares::bytes_by_source;
use smap_record::MapFile;
use std::alloc::{AllocError, Global};

/// A source by its index, from 0: how many segments it has and, where the generated text is known, how many bytes of it.
#[derive(Clone, Copy)]
pub struct SourceRow {
    pub source: u32,
    pub segments: u64,
    pub bytes: Option<u64>,
}

/// A row for each source of a map, and how many bytes of the generated text come from none.
#[derive(Drop)]
pub struct SourceTable {
    pub rows: Vec<SourceRow>,
    pub unmapped: u64,
}

/// What is said of the sources of a map, with the bytes of the generated text that each makes, where it is given. The rows
/// stand by index or, `by_bytes`, those with the most bytes first, and of those with as many the one of the least index.
pub fn source_table(
    alloc: Global,
    map: &MapFile,
    generated: Option<&str>,
    by_bytes: bool,
) -> Result<SourceTable, AllocError>
    ensures rows { IfOk result (λ table. IsOrderedRows by_bytes
        (rows_of (joined map.now.stated.parts) (option_copied generated.entry)
        (length map.now.stated.sources)) table.rows.items) }
    ensures unmapped { IfOk result (λ table. table.unmapped
        ≡ unmapped_in (joined map.now.stated.parts) (option_copied generated.entry)) }
{
    let mut table = table_by_index(alloc, map, generated)?;
    if by_bytes {
        sort_by_bytes(&mut table.rows)?;
    }
    Ok(table)
}

// The rows by index.
fn table_by_index(
    alloc: Global,
    map: &MapFile,
    generated: Option<&str>,
) -> Result<SourceTable, AllocError>
    ensures rows { IfOk result (λ table. table.rows.items
        ≡ rows_of (joined map.now.stated.parts) (option_copied generated.entry)
        (length map.now.stated.sources)) }
    ensures unmapped { IfOk result (λ table. table.unmapped
        ≡ unmapped_in (joined map.now.stated.parts) (option_copied generated.entry)) }
{
    let segments = segments_by_source(alloc, map)?;
    match generated {
        None => Ok(SourceTable {
            rows: counted_rows(alloc, &segments, None)?,
            unmapped: 0,
        }),
        Some(text) => {
            let bytes = bytes_by_source(alloc, map, text)?;
            Ok(SourceTable {
                rows: counted_rows(alloc, &segments, Some(&bytes.sources))?,
                unmapped: bytes.unmapped,
            })
        }
    }
}

// The rows with these counts. A map has far fewer sources than a number of 32 bits counts, so that the first refusal never
// comes.
fn counted_rows(
    alloc: Global,
    segments: &[u64],
    bytes: Option<&[u64]>,
) -> Result<Vec<SourceRow>, AllocError>
    ensures { IfOk result (λ rows. rows.items ≡ map
        (counted_row segments.now (option_copied bytes.entry))
        (range_with_len 0 (length segments.now))) }
{
    let Ok(count) = u32::try_from(segments.len()) else {
        return Err(AllocError);
    };
    let mut rows = Vec::with_capacity(alloc, segments.len())?;
    for source in 0..count {
        rows.push(counted_row(source, segments, bytes))?;
    }
    Ok(rows)
}

fn counted_row(source: u32, segments: &[u64], bytes: Option<&[u64]>) -> SourceRow
    requires { source < length segments.now }
    ensures { result ≡ counted_row segments.now (option_copied bytes.entry) source }
{
    SourceRow {
        source,
        segments: segments[source as usize],
        bytes: match bytes {
            Some(bytes) => Some(count_at(bytes, source)),
            None => None,
        },
    }
}

// The count of a source, where there is one, and else 0.
fn count_at(counts: &[u64], source: u32) -> u64
    ensures { result ≡ slice_index counts.now source }
{
    counts.get(source as usize).copied().unwrap_or(0)
}

// Puts the rows with the most bytes first, and leaves those with as many in their order.
fn sort_by_bytes(rows: &mut Vec<SourceRow>) -> Result<(), AllocError>
    ensures { OnOk result (IsByBytes rows.old.items rows.new.items) }
{
    rows.sort_by_key(|row| u64::MAX - row.bytes.unwrap_or(0))?;
    Ok(())
}
