//! A source in memory.
ghost use Rattle.std.specs.Prelude.{◌≡◌, ◌<◌, ◌≤◌, Some, [], false, length, IfOk};
ghost use Rattle.smap_io.specs.MemorySource.{Reads};

use crate::countdown::count_call;
use crate::device::{ByteSource, DeviceFault};
use std::marker::Model;

/// Bytes in memory, given in pieces. One of its calls may fail, as the caller chose beforehand.
#[derive(Drop)]
pub struct MemorySource {
    bytes: Vec<u8>,
    // How many of them were given.
    place: usize,
    piece: usize,
    // The call that fails, counted from the next one, which is 1. At 0 none does.
    fails_in: u64,
    failed: bool,
}

impl Model for MemorySource {
    ghost use Rattle.std.specs.Prelude.{◌<◌, ◌≤◌, drop, vec_len};
    ghost use Rattle.smap_io.specs.MemorySource.{SourceState};

    ghost Value = { SourceState };

    ghost view = { λ s. record {
      left = drop s.place s.bytes.items;
      piece = s.piece;
      fails_in = s.fails_in;
      failed = s.failed;
    } };

    ghost invariant = { λ s. (s.place ≤ vec_len s.bytes) × (0 < s.piece) };
}

impl MemorySource {
    /// The source of `bytes` that gives at most `piece` of them at a call, 1 or more. Call `fails_at`,
    /// counted from 1, fails, and with 0 none does.
    pub fn new(bytes: Vec<u8>, piece: usize, fails_at: u64) -> MemorySource
        requires { 1 ≤ piece }
        ensures { result ≡ record {
          left = bytes.items;
          piece = piece;
          fails_in = fails_at;
          failed = false;
        } }
    {
        MemorySource {
            bytes,
            place: 0,
            piece,
            fails_in: fails_at,
            failed: false,
        }
    }
}

impl ByteSource for MemorySource {
    ghost seen = { λ s. record { left = Some s.left; failed = s.failed } };

    fn read(&mut self, room: &mut [u8]) -> Result<usize, DeviceFault>
        ensures ends { IfOk result (λ n. n ≡ 0 → 0 < length room.new → self.new.left ≡ []) }
        ensures exact { Reads self.old self.new room.old room.new result }
    {
        if count_call(&mut self.fails_in) {
            self.failed = true;
            return Err(DeviceFault);
        }
        let left = &self.bytes[self.place..];
        let count = self.piece.min(room.len()).min(left.len());
        room[..count].copy_from_slice(&left[..count]);
        self.place += count;
        Ok(count)
    }

    fn failed(&self) -> bool {
        self.failed
    }
}
