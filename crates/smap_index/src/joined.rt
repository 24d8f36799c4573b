//! The mappings of all parts, one after another.

ghost use Rattle.std.specs.Prelude.{◌≡◌, false};
ghost use Rattle.std.specs.List.{list_any};
ghost use Rattle.smap_mappings.specs.Range.{is_mapping_past_limit};
ghost use Rattle.smap_index.specs.Parts.{joined};
ghost use Rattle.smap_index.specs.Joined.{IsAtFront};

use crate::part::Part;
use crate::placed::placed_within;
use smap_mappings::{Cursor, Mapping, Meter};
use std::alloc::Global;
use std::marker::Model;

/// A walk through the mappings of some parts, part after part, at their places. Contracts see it as the list of those
/// that are left.
#[derive(Drop)]
pub struct JoinedMappings<'a> {
    alloc: Global,
    // The part whose mappings come next, and those after it.
    parts: &'a [Part],
    // The place in that part's text with the running values there, and how many segments of it were decoded.
    cursor: Cursor,
    meter: Meter,
}

impl<'a> Model for JoinedMappings<'a> {
    ghost use Rattle.std.specs.Prelude.{List};
    ghost use Rattle.smap_mappings.specs.declared.mapping.Mapping.{Mapping};
    ghost use Rattle.smap_index.specs.Joined.{left_of, IsWalkThrough};

    ghost Value = { List Mapping };

    ghost view = { λ walk. left_of walk.parts.now walk.meter.segments };

    ghost invariant = { λ walk. IsWalkThrough walk.parts.now walk.meter.segments walk.cursor };
}

// The mappings of these parts. It is made with an allocator, though it takes no memory, so that a look-up, which is
// given none, goes through none.
pub fn joined<'a>(alloc: Global, parts: &'a [Part]) -> JoinedMappings<'a>
    requires in_range { list_any is_mapping_past_limit (joined parts.now) ≡ false }
    ensures { result ≡ joined parts.now }
{
    JoinedMappings {
        alloc,
        parts,
        cursor: front(parts),
        meter: Meter::new(alloc),
    }
}

// The place before the first segment of the first of these parts.
fn front(parts: &[Part]) -> Cursor
    ensures { IsAtFront parts.now 0 result }
{
    match parts.first() {
        Some(part) => part.text.start().cursor(),
        None => Cursor::START,
    }
}

impl<'a> Iterator for JoinedMappings<'a> {
    ghost use Rattle.std.specs.Iterator.{YieldsFirst, item_count};

    type Item = Mapping;

    ghost next_gives = { YieldsFirst (λ left. left) };

    ghost remaining = { item_count (λ left. left) };

    #[inline(always)]
    fn next(&mut self) -> Option<Mapping> {
        while let Some((part, rest)) = self.parts.split_first() {
            // The contracts of `segments` and `start` say that they are few, so that the meter has room.
            let _segments = part.text.segments();
            let _start = part.text.start();
            let state = part.text.state_at(self.cursor);
            if let Some((mapping, after)) = part.text.next(&state, &mut self.meter) {
                self.cursor = after.cursor();
                return Some(placed_within(part, &mapping));
            }
            self.parts = rest;
            self.cursor = front(rest);
            self.meter = Meter::new(self.alloc);
        }
        None
    }
}
