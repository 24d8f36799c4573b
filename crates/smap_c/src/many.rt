//! Look-ups of many positions in one call.
ghost use Rattle.std.specs.Prelude.{◌≡◌, IfSome, IsSome, length};
ghost use Rattle.smap_c.specs.Many.{all_found};

use crate::handles::{Holder, MapHandle};
use crate::look_up::{FoundNumbers, answer_numbers};
use crate::status::DONE;
use smap_record::{Meter, ReadyMap};
use std::alloc::Global;

/// A generated position. Both count from 0, columns in UTF-16 code units.
#[repr(C)]
#[derive(Clone, Copy)]
pub struct GeneratedPosition {
    pub line: u32,
    pub column: u32,
}

/// Looks each of these positions up as `smap_look_up` does, and puts the answers into `found`, which has a place for
/// each.
#[unsafe(no_mangle)]
pub extern "C" fn smap_look_up_many(
    alloc: Global,
    map: &mut MapHandle,
    positions: &[GeneratedPosition],
    found: &mut [FoundNumbers],
) -> u32
    requires held { IsSome map.old.held }
    requires places { length found.old ≡ length positions.now }
    ensures answers { IfSome map.old.held (λ held.
        found.new ≡ all_found held.stated positions.now) }
    ensures stays { map.new.held ≡ map.old.held }
    ensures status { result ≡ 0 }
{
    look_up_all(alloc, map.lend().ready(), positions, found);
    DONE
}

// Looks each of these positions up.
fn look_up_all(
    alloc: Global,
    file: &ReadyMap,
    positions: &[GeneratedPosition],
    found: &mut [FoundNumbers],
)
    requires places { length found.old ≡ length positions.now }
    ensures { found.new ≡ all_found file.now.stated positions.now }
{
    for (i, position) in positions.iter().enumerate() {
        let mut meter = Meter::new(alloc);
        found[i] = answer_numbers(file.look_up(position.line, position.column, &mut meter));
    }
}
