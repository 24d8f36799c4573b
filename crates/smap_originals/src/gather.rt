//! The places of each source, gathered and sorted.
ghost use Rattle.std.specs.Prelude.{◌≡◌, ◌<◌, [], ℕ, length, map, IfOk, IfSome};
ghost use Rattle.std.specs.List.{All};
ghost use Rattle.smap_index.specs.Parts.{joined};
ghost use Rattle.smap_originals.specs.Originals.{IsByOriginal, from_source, of_source, place_of};
ghost use Rattle.smap_originals.specs.Private.Gathered.{added};
ghost use Rattle.smap_originals.specs.Private.Run.{IsColumnInRange};

use crate::place::GeneratedPlace;
use crate::places::Places;
use smap_fit::segments_by_source;
use smap_mappings::Mapping;
use smap_record::MapFile;
use std::alloc::{AllocError, Global};

// The places of each source in the order of the map. Their room is made once.
pub fn gather(alloc: Global, file: &MapFile) -> Result<Vec<Places>, AllocError>
    ensures in_range { IfOk result (λ gathered. (source : ℕ) →
        All IsColumnInRange (of_source gathered.items source)) }
    ensures places { IfOk result (λ gathered. (source : ℕ) → of_source gathered.items source
        ≡ map place_of (from_source source (joined file.now.stated.parts))) }
{
    let mut gathered = rooms(alloc, file)?;
    for mapping in file.mappings(alloc) {
        add(&mut gathered, &mapping)?;
    }
    Ok(gathered)
}

// No places for each source, with room for those that it has.
fn rooms(alloc: Global, file: &MapFile) -> Result<Vec<Places>, AllocError>
    ensures many { IfOk result (λ rooms. length rooms.items ≡ length file.now.stated.sources) }
    ensures none { IfOk result (λ rooms. (source : ℕ) → of_source rooms.items source ≡ []) }
{
    let counts = segments_by_source(alloc, file)?;
    let mut rooms = Vec::with_capacity(alloc, counts.len())?;
    for count in &counts {
        rooms.push(Places::with_capacity(alloc, *count as usize)?)?;
    }
    Ok(rooms)
}

// Adds the place of a mapping to those of its source.
fn add(gathered: &mut Vec<Places>, mapping: &Mapping) -> Result<(), AllocError>
    requires { IfSome mapping.now.origin (λ origin. origin.source < length gathered.old.items) }
    ensures { IfOk result (λ _. gathered.new.items ≡ added gathered.old.items mapping.now) }
{
    if let Some(origin) = mapping.origin {
        let places = &mut gathered[origin.source as usize];
        places.push(GeneratedPlace {
            line: mapping.line,
            column: mapping.column,
            original_line: origin.line,
            original_column: origin.column,
        })?;
    }
    Ok(())
}

// Sorts the places of each source by their originals.
pub fn sort(gathered: &mut Vec<Places>) -> Result<(), AllocError>
    ensures { IfOk result (λ _. (source : ℕ) →
        IsByOriginal (of_source gathered.old.items source) (of_source gathered.new.items source)) }
{
    for source in 0..gathered.len() {
        let places = &mut gathered[source];
        places.sort()?;
    }
    Ok(())
}
