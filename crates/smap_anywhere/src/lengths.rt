//! The lengths of texts that are looked for.
ghost use Rattle.std.specs.Prelude.{◌≡◌, ℕ, IfOk, true};
ghost use Rattle.smap_pairs.specs.Known.{is_among};

use std::alloc::{AllocError, Global};

/// Lengths among which each of these is, each once.
pub fn each_length(alloc: Global, all: &[usize]) -> Result<Vec<usize>, AllocError>
    ensures { IfOk result (λ each. (bytes : ℕ) → is_among all.now bytes ≡ true →
        is_among each.items bytes ≡ true) }
{
    let mut each = Vec::new(alloc);
    for bytes in all {
        if !each.contains(bytes) {
            each.push(*bytes)?;
        }
    }
    Ok(each)
}
