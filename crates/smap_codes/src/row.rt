//! What is said of a code.
ghost use Rattle.std.specs.Prelude.{◌≡◌, string_bytes, IfOk};
ghost use Rattle.smap_codes.specs.Texts.{code_text};

use crate::code::Code;
use std::alloc::{AllocError, Global};

/// What is to be known of a code, each as one or two sentences.
#[derive(Clone, Copy)]
pub struct Row {
    pub code: Code,
    pub meaning: &'static str,
    /// What usually causes it.
    pub cause: &'static str,
    /// What to do about it.
    pub remedy: &'static str,
}

/// All that is to be known of a code, on four lines.
pub fn code_text(alloc: Global, row: &Row) -> Result<String, AllocError>
    ensures { IfOk result (λ text. string_bytes text ≡ code_text row.now) }
{
    let title = row.code.text();
    let (meaning, cause, remedy) = (row.meaning, row.cause, row.remedy);
    format!(in alloc; "{title}\n  means: {meaning}\n  causes: {cause}\n  to do: {remedy}\n")
}
