//! The intervals at which checkpoints may stand.

ghost use Rattle.std.specs.Prelude.{◌≡◌};
ghost use Rattle.smap_index.specs.Faults.{is_interval};

/// The greatest interval at which checkpoints may stand. The least is 1.
pub const MOST_INTERVAL: u32 = 4096;

// Whether checkpoints may stand at this interval.
pub fn is_interval(interval: u32) -> bool
    ensures { result ≡ is_interval interval }
{
    1 <= interval && interval <= MOST_INTERVAL
}
