//! Lines that are printed, with their LF.
ghost use Rattle.std.specs.Prelude.{◌≡◌, string_bytes, IfOk};
ghost use Rattle.smap_text_answers.specs.Lines.{map_memory_line, misfit_line};

use smap_codes::Code;
use smap_text::shown;
use std::alloc::{AllocError, Global};

/// Standard error: memory ran out while the map of a file was read.
pub fn map_memory_line(alloc: Global, path: &str) -> Result<String, AllocError>
    ensures { IfOk result (λ text. string_bytes text ≡ map_memory_line path.now) }
{
    let path = shown(alloc, path)?;
    format!(in alloc; "memory: {path}\n")
}

/// Standard error: the map of a file does not fit its generated file.
pub fn misfit_line(alloc: Global, path: &str) -> Result<String, AllocError>
    ensures { IfOk result (λ text. string_bytes text ≡ misfit_line path.now) }
{
    let (path, code) = (shown(alloc, path)?, Code::A4.text());
    format!(in alloc; "refused: {path}: {code}\n")
}
