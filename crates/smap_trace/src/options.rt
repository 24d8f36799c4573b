//! How a trace is rewritten.
ghost use Rattle.std.specs.Prelude.{◌≡◌};
ghost use Rattle.smap_trace.specs.Hiding.{hiding_seen};
ghost use Rattle.smap_trace.specs.Passed.{nothing_counted};
ghost use Rattle.smap_trace.specs.Rewriting.{asked_seen, frames_alone};

use crate::hiding::Hiding;

/// How a trace is rewritten, and how much is looked at beside its frames.
#[derive(Drop)]
pub struct TraceOptions<'a> {
    /// Which frames are left out.
    pub hiding: Hiding<'a>,
    /// How many bytes of the trace are taken at most: less than 2^63.
    pub most: u64,
    /// Whether it is noted what frames name, and what the text is.
    pub is_noted: bool,
    /// How many places of lines that are no frames of the maps are counted at most: none are looked for where this is 0.
    pub most_passed: u64,
}

impl<'a> TraceOptions<'a> {
    /// Nothing is noted, and no place is counted.
    pub fn of_frames(hiding: Hiding<'a>, most: u64) -> TraceOptions<'a>
        ensures { asked_seen nothing_counted result
            ≡ frames_alone (hiding_seen hiding.entry) most }
    {
        TraceOptions {
            hiding,
            most,
            is_noted: false,
            most_passed: 0,
        }
    }
}
