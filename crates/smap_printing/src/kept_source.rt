//! A source that is kept while lines for mappings of it come one after another.
ghost use Rattle.std.specs.Prelude.{◌≡◌, IfSome, Some, true};
ghost use Rattle.smap_printing.specs.Private.Plain.{IsKept};

use crate::short_text::ShortPiece;
use smap_lines::has_control;
use smap_record::{MapFile, Mapping, source_name};

/// A source whose name prints as it is: its index, and its name where that is short.
#[derive(Drop)]
pub struct KeptSource {
    pub index: u32,
    pub name: Option<ShortPiece>,
}

/// Keeps the source of a mapping, if its name prints as it is. Where it has none, what was kept stays.
#[inline(always)]
pub fn keep_source(map: &MapFile, mapping: &Mapping, kept: &mut Option<KeptSource>)
    requires { IfSome kept.old (IsKept map.now.stated) }
    ensures { IfSome kept.new (IsKept map.now.stated) }
{
    if let Some(origin) = mapping.origin {
        if !is_kept(kept, origin.source) {
            *kept = plain_source(map, origin.source);
        }
    }
}

// Whether the source of this index is kept.
#[inline(always)]
fn is_kept(kept: &Option<KeptSource>, index: u32) -> bool {
    match kept {
        Some(source) => source.index == index,
        None => false,
    }
}

// The source of this index, if its name prints as it is.
fn plain_source(map: &MapFile, index: u32) -> Option<KeptSource>
    ensures { IfSome result (IsKept map.now.stated) }
{
    let name = source_name(map.source(index))?;
    if has_control(name.as_bytes()) {
        return None;
    }
    Some(KeptSource {
        index,
        name: ShortPiece::of(name.as_bytes()),
    })
}
