//! How many segments each source has.
ghost use Rattle.std.specs.Prelude.{◌≡◌, length, IfOk};
ghost use Rattle.smap_index.specs.Parts.{joined};
ghost use Rattle.smap_fit.specs.Shares.{IsSegmentsBySource};

use crate::counts::{add, no_counts};
use crate::owners::source_of;
use smap_record::MapFile;
use std::alloc::{AllocError, Global};

/// How many mappings of a map have each source.
pub fn segments_by_source(alloc: Global, map: &MapFile) -> Result<Vec<u64>, AllocError>
    ensures { IfOk result (λ counts. IsSegmentsBySource
        (length map.now.stated.sources) (joined map.now.stated.parts) counts.items) }
{
    let mut counts = no_counts(alloc, map)?;
    // Its contract says that the mappings fit in 64 bits.
    let _segments = map.segments();
    for mapping in map.mappings(alloc) {
        if let Some(source) = source_of(&mapping) {
            add(&mut counts, source, 1);
        }
    }
    Ok(counts)
}
