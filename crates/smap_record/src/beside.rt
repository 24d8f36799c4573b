//! The sources of a map, named by the path at which its file stands.
ghost use Rattle.std.specs.Prelude.{◌≡◌, ◌<◌, ◌+◌, ◌≤◌, ◌⊎◌, None, length, IfErr, IfSome, OnErr, OnOk};
ghost use Rattle.std.specs.List.{sum_by};
ghost use Rattle.smap_record.specs.NamedSources.{bytes_beside, map_beside, source_bytes};
ghost use Rattle.smap_record.specs.Sources.{source_of};
ghost use Rattle.smap_record.specs.declared.refusal.MapRefusal.TheVariants.{LongNames, Memory};

use crate::entry::SourceEntry;
use crate::map_file::MapFile;
use crate::named_sources::{StandsAt, new_names, rename};
use crate::refusal::MapRefusal;
use std::alloc::Global;

/// Names the sources of a map by the path at which its file stands: each whose name is kept as it stands in the map, and a
/// path, by the one that goes on from the folder of the file, or from the root behind its host. All names together may be
/// made of at most so many bytes: each of those of the path and its own. Where they are more, or memory runs out, nothing is
/// changed.
pub fn name_sources_beside(
    alloc: Global,
    map_file: &mut MapFile,
    path: &[u8],
    most_names: u64,
) -> Result<(), MapRefusal>
    ensures named { OnOk result (map_file.new ≡ map_beside path.now map_file.old) }
    ensures enough { OnOk result (bytes_beside path.now map_file.old.stated ≤ most_names) }
    ensures refused { IfErr result (λ refusal. (refusal ≡ Memory)
        ⊎ ((refusal ≡ LongNames) × (most_names < bytes_beside path.now map_file.old.stated))) }
    ensures stays { OnErr result (map_file.new ≡ map_file.old) }
{
    let Some(_left) = left_behind(map_file.entries(), path.len(), most_names) else {
        return Err(MapRefusal::LongNames);
    };
    let names = new_names(alloc, map_file, StandsAt::Path, path)?;
    rename(map_file, names);
    Ok(())
}

// How many of so many bytes are left behind the names of sources before each of which so many stand, if they are enough.
fn left_behind(sources: &[SourceEntry], before: usize, most: u64) -> Option<u64>
    ensures enough { IfSome result (λ left.
        sum_by (λ entry. source_bytes before (source_of entry)) sources.now + left ≡ most) }
    ensures few { result ≡ None →
        most < sum_by (λ entry. source_bytes before (source_of entry)) sources.now }
{
    let mut left = most;
    for source in sources {
        left = left_behind_one(source, before, left)?;
    }
    Some(left)
}

// The same behind the name of one source.
fn left_behind_one(source: &SourceEntry, before: usize, most: u64) -> Option<u64>
    ensures enough { IfSome result (λ left.
        source_bytes before (source_of source.now) + left ≡ most) }
    ensures few { result ≡ None → most < source_bytes before (source_of source.now) }
{
    let Some(name) = &source.name else {
        return Some(most);
    };
    most.checked_sub(before as u64)?
        .checked_sub(name.text().len() as u64)
}
