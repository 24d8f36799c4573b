//! How a text that is not the program's own prints, and how much is shown of a line.
ghost use Rattle.std.specs.Prelude.{◌≡◌, string_bytes, IfOk};
ghost use Rattle.smap_text.specs.Shown.{shown, shown_byte};
ghost use Rattle.smap_text.specs.ShownLine.{IsFrontOf, shown_bytes};

use std::alloc::{AllocError, Global};

// How many bytes of a line are shown at most.
const MOST_LINE_BYTES: usize = 65536;

/// A text of the user's, for one line: a `?` stands for each ASCII control character.
pub fn shown(alloc: Global, text: &str) -> Result<String, AllocError>
    ensures { IfOk result (λ clean. string_bytes clean ≡ shown text.now) }
{
    text.chars().map(shown_char).collect(alloc)
}

/// A byte of such a text as it prints.
pub fn shown_byte(byte: u8) -> u8
    ensures { result ≡ shown_byte byte }
{
    if byte.is_ascii_control() { b'?' } else { byte }
}

// A character as it prints.
pub fn shown_char(char: char) -> char
    ensures { result ≡ shown_byte char }
{
    if char.is_ascii_control() { '?' } else { char }
}

/// How many bytes of a line are shown: all or, of more than 65,536, those of the whole characters within as many.
pub fn shown_bytes(line: &str) -> usize
    ensures bytes { result ≡ shown_bytes line.now }
    ensures front { IsFrontOf line.now result }
{
    line.floor_char_boundary(MOST_LINE_BYTES)
}
