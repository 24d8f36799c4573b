//! What came of a source and was not given yet.
ghost use Rattle.std.specs.Prelude.{◌≡◌, ◌<◌, ◌≤◌, ◌-◌, [], true, drop, length, IfOk, OnErr, OnOk};
ghost use Rattle.smap_io.specs.Sequences.{most_sequence_bytes};
ghost use Rattle.smap_io.specs.Private.Given.{IsMore};

use crate::device::{ByteSource, DeviceFault};
use crate::front::MOST_SEQUENCE_BYTES;
use std::marker::Model;

// How many bytes are kept at most.
const ROOM_BYTES: usize = 4096;

/// Its bytes.
#[derive(Drop)]
pub struct Held {
    // They stand from `start` to `end`.
    room: [u8; ROOM_BYTES],
    start: usize,
    end: usize,
}

impl Model for Held {
    ghost use Rattle.std.specs.Prelude.{ℕ, List, ◌≤◌, slice_range};

    ghost Value = { List ℕ };

    ghost view = { λ held. slice_range held.room held.start held.end };

    ghost invariant = { λ held. (held.start ≤ held.end) × (held.end ≤ 4096) };
}

impl Held {
    /// Nothing.
    pub fn new() -> Held
        ensures { result ≡ [] }
    {
        Held {
            room: [0; ROOM_BYTES],
            start: 0,
            end: 0,
        }
    }

    pub fn bytes(&self) -> &[u8]
        ensures { result.now ≡ self.now }
    {
        &self.room[self.start..self.end]
    }

    /// Drops all but the last `left` bytes.
    pub fn leave(&mut self, left: usize)
        requires { left ≤ length self.old }
        ensures { self.new ≡ drop (length self.old - left) self.old }
    {
        self.start = self.end - left;
    }

    /// Reads more behind them; whether there was more.
    pub fn read_on<R: ByteSource>(&mut self, inner: &mut R) -> Result<bool, DeviceFault>
        requires few { length self.old < most_sequence_bytes }
        ensures more { IfOk result (IsMore (R.seen inner.old) (R.seen inner.new)
            self.old self.new) }
        ensures no_failure { OnOk result ((R.seen inner.new).failed ≡ (R.seen inner.old).failed) }

        ensures same { OnErr result (self.new ≡ self.old) }
        ensures keeps { OnErr result ((R.seen inner.new).left ≡ (R.seen inner.old).left) }
        ensures failure { OnErr result ((R.seen inner.new).failed ≡ true) }
    {
        let count = self.end - self.start;
        let mut front = [0; MOST_SEQUENCE_BYTES];
        front[..count].copy_from_slice(&self.room[self.start..self.end]);
        self.room[..count].copy_from_slice(&front[..count]);
        self.start = 0;
        self.end = count;
        let more = inner.read(&mut self.room[count..])?;
        self.end = count + more;
        Ok(more > 0)
    }
}
