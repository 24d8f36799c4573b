//! The front of a text, which is all of it that is shown.
ghost use Rattle.std.specs.Prelude.{◌≡◌, IfOk, string_bytes};
ghost use Rattle.smap_explain.specs.FrontOfText.{front_of_text};

use std::alloc::{AllocError, Global};

/// The first 80 bytes, with a mark for what is cut of a character.
pub fn front_of_text(alloc: Global, text: &[u8]) -> Result<String, AllocError>
    ensures { IfOk result (λ front. string_bytes front ≡ front_of_text text.now) }
{
    let end = text.len().min(80);
    String::from_utf8_lossy(alloc, &text[..end])
}
