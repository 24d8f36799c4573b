//! Bytes handed over whole: a sink takes all of them, or a source gives what it has, up to a limit.
ghost use Rattle.std.specs.Prelude.{◌≡◌, ◌<◌, ◌≤◌, true, false, length, vec_len, IfOk, OnOk, OnErr};
ghost use Rattle.std.specs.Io.KnownBytes.{IsAtEnd};
ghost use Rattle.smap_io.specs.Device.{Gives, GivesAtMost, Takes, TakesFront};

use crate::device::{ByteSink, ByteSource, DeviceFault};
use std::alloc::Global;

/// Why an input was not read. The bytes that came before are lost.
#[derive(Clone, Copy, Debug, PartialEq, Eq)]
pub enum ReadFailure {
    /// The device failed.
    Device,
    /// Memory ran out.
    Memory,
}

/// Writes all of `bytes`, and does not flush. The first write that fails ends it: the output then has
/// taken a front of `bytes`.
pub fn write_all<W: ByteSink>(output: &mut W, bytes: &[u8]) -> Result<(), DeviceFault>
    ensures whole { OnOk result (Takes (W.seen output.old).taken (W.seen output.new).taken
        bytes.now) }
    ensures no_failure { OnOk result ((W.seen output.new).failed ≡ (W.seen output.old).failed) }

    ensures front { OnErr result (TakesFront (W.seen output.old).taken (W.seen output.new).taken
        bytes.now) }
    ensures failure { OnErr result ((W.seen output.new).failed ≡ true) }

    ensures cleared { 0 < length bytes.now → (W.seen output.new).flushed ≡ false }
{
    let mut rest = bytes;
    while !rest.is_empty() {
        let count = output.write(rest)?;
        rest = &rest[count..];
    }
    Ok(())
}

/// Reads until the input ends or gave `most` bytes, and never asks for a byte beyond these. The first
/// read that fails ends it.
pub fn read_all<R: ByteSource>(
    alloc: Global,
    input: &mut R,
    most: usize,
) -> Result<Vec<u8>, ReadFailure>
    ensures gives { IfOk result (λ bytes. Gives (R.seen input.old).left (R.seen input.new).left
        bytes.items) }
    ensures fits { IfOk result (λ bytes. vec_len bytes ≤ most) }
    ensures whole { IfOk result (λ bytes. vec_len bytes < most → IsAtEnd (R.seen input.new).left) }
    ensures no_failure { OnOk result ((R.seen input.new).failed ≡ (R.seen input.old).failed) }

    ensures front { OnErr result (GivesAtMost (R.seen input.old).left (R.seen input.new).left
        most) }
    ensures device { result ≡ Err ReadFailure.Device → (R.seen input.new).failed ≡ true }
    ensures memory { result ≡ Err ReadFailure.Memory
        → (R.seen input.new).failed ≡ (R.seen input.old).failed }
{
    let mut bytes = Vec::new(alloc);
    let mut room = [0; 8192];
    while bytes.len() < most {
        let wanted = room.len().min(most - bytes.len());
        let piece = &mut room[..wanted];
        let count = match input.read(piece) {
            Ok(count) => count,
            Err(DeviceFault) => return Err(ReadFailure::Device),
        };
        if count == 0 {
            return Ok(bytes);
        }
        if bytes.extend_from_slice(&piece[..count]).is_err() {
            return Err(ReadFailure::Memory);
        }
    }
    Ok(bytes)
}
