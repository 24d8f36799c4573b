//! Which sources and which names mappings have.
ghost use Rattle.std.specs.Prelude.{length, IfOk};
ghost use Rattle.std.specs.List.{All};
ghost use Rattle.smap_mappings.specs.Within.{IsOriginWithin, IsWithin};
ghost use Rattle.smap_compose.specs.Private.Used.{AreUsed, UsesMore};

use smap_record::{Mapping, Origin};
use std::alloc::{AllocError, Global};

/// Whether a mapping has it, of each source and of each name.
#[derive(Drop)]
pub struct UsedEntries {
    pub sources: Vec<bool>,
    pub names: Vec<bool>,
}

/// What these mappings have, of this many sources and names.
pub fn used_entries(
    alloc: Global,
    mappings: &[Mapping],
    sources: usize,
    names: usize,
) -> Result<UsedEntries, AllocError>
    requires { All (IsWithin sources names) mappings.now }
    ensures { IfOk result (AreUsed sources names mappings.now) }
{
    let mut used = UsedEntries {
        sources: vec![in alloc; false; sources]?,
        names: vec![in alloc; false; names]?,
    };
    for mapping in mappings {
        if let Some(origin) = mapping.origin {
            used.mark(origin);
        }
    }
    Ok(used)
}

impl UsedEntries {
    // Marks what this origin has.
    fn mark(&mut self, origin: Origin)
        requires { IsOriginWithin
            (length self.old.sources.items) (length self.old.names.items) origin }
        ensures { UsesMore self.old origin self.new }
    {
        self.sources[origin.source as usize] = true;
        if let Some(name) = origin.name {
            self.names[name as usize] = true;
        }
    }
}
