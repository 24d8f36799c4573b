//! A map in a table.
ghost use Rattle.std.specs.Prelude.{◌≡◌};
ghost use Rattle.smap_trace.specs.Private.EntrySeen.{entry_seen};

use smap_record::{ReadyMap, SharedMap};

/// A map in a table: one of its own, or one that others may hold, too.
#[derive(Drop)]
pub enum Entry {
    Own(ReadyMap),
    Shared(SharedMap),
}

impl Entry {
    pub fn map(&self) -> &ReadyMap
        ensures { result.now.stated ≡ entry_seen self.now }
    {
        match self {
            Entry::Own(map) => map,
            Entry::Shared(map) => map.ready(),
        }
    }
}
