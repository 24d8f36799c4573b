//! Which sources a map says to ignore.
ghost use Rattle.std.specs.Prelude.{◌≡◌, [], option_map, IfOk};
ghost use Rattle.serde_json.specs.View.{view};
ghost use Rattle.smap_record.specs.Ignored.{ignored_flags};
ghost use Rattle.smap_record.specs.Json.{list_of, number_below};

use crate::json::index_below;
use serde_json::Value;
use std::alloc::{AllocError, Global};

/// A flag for each of this many sources: whether its index stands in the list that a value is. Where the value is no
/// list of such indices, there is none.
pub fn ignored_flags(
    alloc: Global,
    value: &Value,
    sources: usize,
) -> Result<Option<Vec<bool>>, AllocError>
    ensures { IfOk result (λ flags. option_map (λ flags. flags.items) flags
        ≡ option_map (ignored_flags sources) (list_of (number_below sources) (view value.now))) }
{
    let Value::Array(items) = value else {
        return Ok(None);
    };
    let mut flags = none_ignored(alloc, sources)?;
    for item in items {
        let Some(index) = index_below(sources, item) else {
            return Ok(None);
        };
        flags[index] = true;
    }
    Ok(Some(flags))
}

/// The flags of this many sources, none of which is to be ignored.
pub fn none_ignored(alloc: Global, sources: usize) -> Result<Vec<bool>, AllocError>
    ensures { IfOk result (λ flags. flags.items ≡ ignored_flags sources []) }
{
    Ok(vec![in alloc; false; sources]?)
}
