//! How much a map holds.
ghost use Rattle.std.specs.Prelude.{◌≡◌, IfSome, IsSome};
ghost use Rattle.smap_c.specs.Counts.{counts_of};

use crate::handles::{Holder, MapHandle};
use crate::status::DONE;

/// How much a map holds. Each section's lines are counted by themselves.
#[repr(C)]
#[derive(Clone, Copy)]
pub struct Counts {
    pub sections: u64,
    pub sources: u64,
    pub names: u64,
    pub segments: u64,
    /// How many generated lines hold a mapping.
    pub lines: u64,
    pub checkpoints: u64,
}

/// Says how much a map holds.
#[unsafe(no_mangle)]
pub extern "C" fn smap_counts(map: &mut MapHandle, counts: &mut Counts) -> u32
    requires { IsSome map.old.held }
    ensures counts { IfSome map.old.held (λ held. counts.new ≡ counts_of held) }
    ensures stays { map.new.held ≡ map.old.held }
    ensures status { result ≡ 0 }
{
    let file = map.lend().map();
    *counts = Counts {
        sections: file.sections(),
        sources: file.sources(),
        names: file.names(),
        segments: file.segments(),
        lines: file.used_lines(),
        checkpoints: file.checkpoints(),
    };
    DONE
}
