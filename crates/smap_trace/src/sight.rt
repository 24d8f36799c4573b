//! What a frame is, over the maps.
ghost use Rattle.std.specs.Prelude.{◌≡◌, is_some, option_map, true};
ghost use Rattle.smap_trace.specs.FrameSeen.{parts_seen};
ghost use Rattle.smap_trace.specs.Hiding.{hiding_seen};
ghost use Rattle.smap_trace.specs.Private.Remembered.{StaysRight, is_right};
ghost use Rattle.smap_trace.specs.Rewritten.{fate_at, is_hidden, is_mapped, original_in};
ghost use Rattle.smap_trace.specs.SightSeen.{fate_seen, original_seen};

use crate::hiding::Hiding;
use crate::maps::Maps;
use crate::original::{Original, Replacement};
use crate::parts::Frame;
use crate::remembered::Remembered;
use std::alloc::Global;

// What a frame of a trace is.
#[derive(Clone, Copy)]
pub enum Sight<'m> {
    // It stays.
    Staying,
    // It is replaced.
    Replaced(Replacement<'m>),
    // It is hidden.
    Hidden,
}

impl Sight<'_> {
    // Whether it is replaced.
    pub fn is_mapped(&self) -> bool
        ensures { (parts : _) → result ≡ is_mapped (fate_seen parts self.now) }
    {
        matches!(self, Sight::Replaced(_))
    }

    // Whether it is hidden.
    pub fn is_hidden(&self) -> bool
        ensures { (parts : _) → result ≡ is_hidden (fate_seen parts self.now) }
    {
        matches!(self, Sight::Hidden)
    }
}

/// Whether the URL of a frame has a map, and what the frame is, over maps of which that of its URL was looked for, where
/// these frames are left out, whatever name its function has; what was answered before is remembered, over maps that are
/// still found.
pub fn look_at<'m, M: Maps>(
    alloc: Global,
    maps: &'m M,
    remembered: &mut Remembered,
    hiding: &Hiding<'_>,
    frame: &Frame<'_>,
) -> (bool, Sight<'m>)
    ensures has_map { result.0 ≡ is_some (M.found maps.now frame.now.url.now) }
    ensures sight { is_right (M.found maps.now) remembered.old ≡ true → (parts : _) →
        fate_seen parts result.1 ≡ fate_at (hiding_seen hiding.now) parts
        (original_in (parts_seen frame.now) (M.found maps.now frame.now.url.now)) }
    ensures right { StaysRight (M.found maps.now) remembered.old remembered.new }
{
    let Some(map) = maps.map_for(frame.url) else {
        return (false, Sight::Staying);
    };
    let original = remembered.original_at(alloc, map, frame.url, frame.line, frame.column);
    (true, sight_of(original, hiding))
}

// What a frame is that comes from here, whatever stands around its place.
fn sight_of<'m>(original: Option<Original<'m>>, hiding: &Hiding<'_>) -> Sight<'m>
    ensures { (parts : _) → fate_seen parts result ≡ fate_at (hiding_seen hiding.now)
        parts (option_map original_seen original.entry) }
{
    let Some(original) = original else {
        return Sight::Staying;
    };
    let Original {
        name,
        ignored,
        line,
        column,
    } = original;
    if hiding.hides(ignored, name) {
        return Sight::Hidden;
    }
    match name {
        Some(name) => Sight::Replaced(Replacement { name, line, column }),
        None => Sight::Staying,
    }
}
