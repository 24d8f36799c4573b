//! Devices in memory, as a row has them: how many bytes a call moves at most, `/`, and the call that fails, from 1, or 0 for
//! none.
ghost use Rattle.std.specs.Prelude.{◌≡◌, ◌≤◌, false, IfOk};

use crate::fault::RowFault;
use crate::row::{Row, number_in};
use smap_io::{MemorySink, MemorySource};

// How many bytes an output takes at most.
const MOST_TAKEN: usize = 1_048_576;

fn device_in(text: &str) -> Result<(usize, u64), RowFault>
    ensures { IfOk result (λ device. 1 ≤ device.0) }
{
    let Some((piece, fails_at)) = text.split_once('/') else {
        return Err(RowFault::BadNumber);
    };
    let piece = number_in(piece)? as usize;
    Ok((piece.max(1), u64::from(number_in(fails_at)?)))
}

/// The source of the bytes of one field that moves them as another says.
pub fn source(row: &Row<'_>, device: usize, bytes: usize) -> Result<MemorySource, RowFault>
    ensures { IfOk result (λ source. source.failed ≡ false) }
{
    let (piece, fails_at) = device_in(row.field(device)?)?;
    Ok(MemorySource::new(row.bytes(bytes)?, piece, fails_at))
}

/// The sink that moves bytes as a field says.
pub fn sink(row: &Row<'_>, device: usize) -> Result<MemorySink, RowFault>
    ensures { IfOk result (λ sink. sink.failed ≡ false) }
{
    let (piece, fails_at) = device_in(row.field(device)?)?;
    let room = Vec::with_capacity(row.alloc(), MOST_TAKEN)?;
    Ok(MemorySink::new(room, piece, fails_at))
}

/// A source of the bytes of a field that never fails.
pub fn sound_source(row: &Row<'_>, bytes: usize) -> Result<MemorySource, RowFault>
    ensures { IfOk result (λ source. source.failed ≡ false) }
{
    Ok(MemorySource::new(row.bytes(bytes)?, 8_192, 0))
}

/// A sink that never fails.
pub fn sound_sink(row: &Row<'_>) -> Result<MemorySink, RowFault>
    ensures { IfOk result (λ sink. sink.failed ≡ false) }
{
    let room = Vec::with_capacity(row.alloc(), MOST_TAKEN)?;
    Ok(MemorySink::new(room, 8_192, 0))
}
