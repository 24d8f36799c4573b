//! The lines that are printed, each with its LF.
ghost use Rattle.std.specs.Prelude.{◌≡◌, ◌∷◌, ◌++◌, [], string_bytes, IfOk};
ghost use Rattle.smap_map_answers.specs.CheckLines.{counts_line, map_counts_line};

use smap_text::shown;
use smap_verdicts::{MapCounts, counts_text};
use std::alloc::{AllocError, Global};

/// Standard output: how much a map holds.
pub fn counts_line(alloc: Global, counts: MapCounts) -> Result<String, AllocError>
    ensures { IfOk result (λ text. string_bytes text ≡ counts_line counts) }
{
    let counts = counts_text(alloc, counts)?;
    format!(in alloc; "{counts}\n")
}

/// Standard output: how much the map of a file holds.
pub fn map_counts_line(alloc: Global, path: &str, counts: MapCounts) -> Result<String, AllocError>
    ensures { IfOk result (λ text. string_bytes text ≡ map_counts_line path.now counts) }
{
    let path = shown(alloc, path)?;
    let counts = counts_text(alloc, counts)?;
    format!(in alloc; "{path}: {counts}\n")
}

/// Standard output: a JSON object, as a line.
pub fn object_line(mut object: String) -> Result<String, AllocError>
    ensures { IfOk result (λ text. string_bytes text ≡ string_bytes object ++ 10 ∷ []) }
{
    object.push('\n')?;
    Ok(object)
}
