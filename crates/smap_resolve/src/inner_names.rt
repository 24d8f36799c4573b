//! What the sources of an inner map are called in a composed map.
ghost use Rattle.std.specs.Prelude.{◌≡◌, option_copied, option_map, IfOk};
ghost use Rattle.smap_resolve.specs.SourceName.{name_of};
ghost use Rattle.smap_resolve.specs.InnerNames.{name_from_outer};

use crate::paths::{has_scheme, is_relative, path_from};
use crate::source_name::SourceName;
use std::alloc::{AllocError, Global};

/// The name of a source of an inner map, by the name of the outer source that the map is of, where that has one: a relative
/// path goes on from the folder of a path.
pub fn name_from_outer(
    alloc: Global,
    outer: Option<&SourceName>,
    name: &SourceName,
) -> Result<SourceName, AllocError>
    ensures { IfOk result (λ made. name_of made
        ≡ name_from_outer (option_map name_of (option_copied outer.entry)) (name_of name.now)) }
{
    match (outer, name) {
        (Some(SourceName::Kept(file)), SourceName::Kept(text))
            if is_relative(text.as_bytes()) && !has_scheme(file.as_bytes()) => {
            Ok(SourceName::Kept(path_from(alloc, file, text)?))
        }
        _ => name.copied(),
    }
}
