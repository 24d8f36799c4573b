//! What look-ups have cost so far.
ghost use Rattle.std.specs.Prelude.{◌≡◌, ◌+◌, ◌<◌, ◌≤◌, ◌↔◌, IsTrue};

use std::alloc::Global;
use std::marker::Model;

// How much a meter's counts have to leave free, so that one look-up has room.
const ROOM: u64 = 8192;

/// Counts the steps of look-ups: how many checkpoints they compared, and how many segments they decoded. A meter is
/// made with an allocator, though it takes no memory, so that a call that is given none can't make a second one.
#[derive(Drop)]
pub struct Meter {
    comparisons: u64,
    segments: u64,
}

impl Model for Meter {
    ghost use Rattle.smap_mappings.specs.Meter.{MeterCounts};

    ghost Value = { MeterCounts };

    ghost view = { λ m. record { comparisons = m.comparisons; segments = m.segments } };
}

impl Meter {
    ghost use Rattle.smap_mappings.specs.Meter.{HasRoom};

    /// A meter that has counted nothing.
    pub fn new(_alloc: Global) -> Self
        ensures { result ≡ record { comparisons = 0; segments = 0 } }
    {
        Meter {
            comparisons: 0,
            segments: 0,
        }
    }

    /// How many checkpoints were compared.
    pub fn comparisons(&self) -> u64
        ensures { result ≡ self.now.comparisons }
    {
        self.comparisons
    }

    /// How many segments were decoded.
    pub fn segments(&self) -> u64
        ensures { result ≡ self.now.segments }
    {
        self.segments
    }

    /// Counts the comparison of one checkpoint.
    pub fn count_comparison(&mut self)
        requires { self.old.comparisons < u64.MAX }
        ensures { self.new ≡ record self.old { comparisons = self.old.comparisons + 1 } }
    {
        self.comparisons += 1;
    }

    pub(crate) fn count_segments(&mut self, count: u32)
        requires { self.old.segments + count ≤ u64.MAX }
        ensures { self.new ≡ record self.old { segments = self.old.segments + count } }
    {
        self.segments += count as u64;
    }

    /// Whether both counts leave room for a look-up, which is 8192 in each.
    pub fn has_room(&self) -> bool
        ensures { IsTrue result ↔ HasRoom self.now }
    {
        self.comparisons <= u64::MAX - ROOM && self.segments <= u64::MAX - ROOM
    }
}
