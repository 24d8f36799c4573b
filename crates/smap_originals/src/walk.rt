//! Originals by a walk through all mappings.
ghost use Rattle.std.specs.Prelude.{◌≡◌, ◌&&◌, IfOk};
ghost use Rattle.smap_index.specs.Parts.{joined};
ghost use Rattle.smap_originals.specs.Generated.{column_of, generated_for, generated_next, is_on_side, is_origin_on};

use crate::asked::Asked;
use crate::nearest::NearestMappings;
use smap_mappings::Mapping;
use smap_record::MapFile;
use std::alloc::{AllocError, Global};

/// The mappings of a map, in its order, whose original is on this line of this source, both from 0. The call walks through
/// all mappings once, and its memory is that of what it finds.
pub fn generated_for(
    alloc: Global,
    map: &MapFile,
    source: u32,
    line: u32,
) -> Result<Vec<Mapping>, AllocError>
    ensures { IfOk result (λ found. found.items
        ≡ generated_for (joined map.now.stated.parts) source line) }
{
    let mut found = Vec::new(alloc);
    for mapping in map.mappings(alloc) {
        if is_origin_on(&mapping, source, line) {
            found.push(mapping)?;
        }
    }
    Ok(found)
}

/// Of the mappings of a map whose original is on the asked line of the asked source, in the order of the map, those with
/// the original column that is next to the asked one in its direction. The call walks through all mappings once, and its
/// memory is that of what it finds.
pub fn generated_next(
    alloc: Global,
    map: &MapFile,
    asked: &Asked,
) -> Result<Vec<Mapping>, AllocError>
    ensures { IfOk result (λ found. found.items ≡ generated_next asked.now.direction
        (joined map.now.stated.parts) asked.now.source asked.now.line asked.now.column) }
{
    let mut nearest = NearestMappings::new(alloc);
    for mapping in map.mappings(alloc) {
        if is_asked(&mapping, asked) {
            let column = original_column(&mapping);
            nearest.add(asked.direction, mapping, column)?;
        }
    }
    Ok(nearest.mappings)
}

// Whether the original of a mapping is on this line of this source.
fn is_origin_on(mapping: &Mapping, source: u32, line: u32) -> bool
    ensures { result ≡ is_origin_on source line mapping.now.origin }
{
    match mapping.origin {
        Some(origin) => origin.source == source && origin.line == line,
        None => false,
    }
}

// Whether the original of a mapping is on the asked line, on the asked side of the column.
fn is_asked(mapping: &Mapping, asked: &Asked) -> bool
    ensures { result ≡ (is_origin_on asked.now.source asked.now.line mapping.now.origin
        && is_on_side asked.now.direction asked.now.column (column_of mapping.now.origin)) }
{
    let column = original_column(mapping);
    let on_side = asked.direction.has(asked.column, column);
    is_origin_on(mapping, asked.source, asked.line) && on_side
}

// The column of the original of a mapping, and 0 where it has none.
fn original_column(mapping: &Mapping) -> u32
    ensures { result ≡ column_of mapping.now.origin }
{
    match mapping.origin {
        Some(origin) => origin.column,
        None => 0,
    }
}
