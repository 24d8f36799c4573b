//! Counts by source.
ghost use Rattle.std.specs.Prelude.{◌≡◌, ◌<◌, ◌+◌, ◌^◌, length, replicate, slice_index, IfOk};
ghost use Rattle.smap_fit.specs.Private.Counts.{one_count_after};

use smap_record::MapFile;
use std::alloc::{AllocError, Global};

/// None for each source of a map.
pub fn no_counts(alloc: Global, map: &MapFile) -> Result<Vec<u64>, AllocError>
    ensures { IfOk result (λ counts. counts.items ≡ replicate (length map.now.stated.sources) 0) }
{
    vec![in alloc; 0u64; map.sources() as usize]
}

/// Adds to the count of a source.
pub fn add(counts: &mut Vec<u64>, source: u32, more: u64)
    requires within { source < length counts.old.items }
    requires fits { slice_index counts.old.items source + more < 2 ^ 64 }
    ensures { counts.new.items ≡ one_count_after counts.old.items source more }
{
    counts[source as usize] += more;
}
