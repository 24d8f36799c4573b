//! A sink in memory.
ghost use Rattle.std.specs.Prelude.{◌≡◌, ◌<◌, ◌≤◌, Some, [], false, length, vec_capacity, IfOk};
ghost use Rattle.smap_io.specs.MemorySink.{Writes, Flushes};

use crate::countdown::count_call;
use crate::device::{ByteSink, DeviceFault};
use std::marker::Model;

/// Room in memory, filled in pieces. One of its calls may fail, as the caller chose beforehand, and
/// so does a write for which no room is left.
#[derive(Drop)]
pub struct MemorySink {
    bytes: Vec<u8>,
    // How many bytes still fit.
    spare: usize,
    piece: usize,
    // The call that fails, counted from the next one, which is 1. At 0 none does.
    fails_in: u64,
    failed: bool,
    // Whether the last write or flush was a flush that is Ok.
    flushed: bool,
}

impl Model for MemorySink {
    ghost use Rattle.std.specs.Prelude.{◌+◌, ◌<◌, ◌≤◌, vec_len, vec_capacity};
    ghost use Rattle.smap_io.specs.MemorySink.{SinkState};

    ghost Value = { SinkState };

    ghost view = { λ s. record {
      taken = s.bytes.items;
      spare = s.spare;
      piece = s.piece;
      fails_in = s.fails_in;
      failed = s.failed;
      flushed = s.flushed;
    } };

    ghost invariant = { λ s. (vec_len s.bytes + s.spare ≤ vec_capacity s.bytes) × (0 < s.piece) };
}

impl MemorySink {
    /// The sink that fills `room`, which comes empty, up to its capacity and takes at most `piece`
    /// bytes at a call, 1 or more. Call `fails_at`, a write or a flush, counted from 1, fails, and with
    /// 0 none does. A new sink is not flushed.
    pub fn new(room: Vec<u8>, piece: usize, fails_at: u64) -> MemorySink
        requires empty { room.items ≡ [] }
        requires some { 1 ≤ piece }
        ensures { result ≡ record {
          taken = [];
          spare = vec_capacity room;
          piece = piece;
          fails_in = fails_at;
          failed = false;
          flushed = false;
        } }
    {
        let spare = room.capacity();
        MemorySink {
            bytes: room,
            spare,
            piece,
            fails_in: fails_at,
            failed: false,
            flushed: false,
        }
    }

    /// What the sink holds: all bytes that it took, flushed or not.
    pub fn bytes(&self) -> &[u8]
        ensures { result.now ≡ self.now.taken }
    {
        &self.bytes
    }
}

impl ByteSink for MemorySink {
    ghost seen = { λ s. record { taken = Some s.taken; flushed = s.flushed; failed = s.failed } };

    fn write(&mut self, bytes: &[u8]) -> Result<usize, DeviceFault>
        ensures some { IfOk result (λ n. 0 < length bytes.now → 0 < n) }
        ensures exact { Writes self.old self.new bytes.now result }
    {
        self.flushed = false;
        let is_failing = count_call(&mut self.fails_in);
        if is_failing || (self.spare == 0 && !bytes.is_empty()) {
            self.failed = true;
            return Err(DeviceFault);
        }
        let count = self.piece.min(bytes.len()).min(self.spare);
        if self.bytes.extend_from_slice(&bytes[..count]).is_err() {
            unreachable!("what is spare fits");
        }
        self.spare -= count;
        Ok(count)
    }

    fn flush(&mut self) -> Result<(), DeviceFault>
        ensures exact { Flushes self.old self.new result }
    {
        self.flushed = !count_call(&mut self.fails_in);
        if self.flushed {
            Ok(())
        } else {
            self.failed = true;
            Err(DeviceFault)
        }
    }

    fn failed(&self) -> bool {
        self.failed
    }
}
