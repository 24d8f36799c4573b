//! A text that is canonical as it stands is copied, and any other is decoded and encoded.
ghost use Rattle.std.specs.Prelude.{◌≡◌, ◌≤◌, ℕ, not, take, length, IfOk, IfSome, string_bytes, true};
ghost use Rattle.smap_mappings.specs.Mappings.{mappings_of};
ghost use Rattle.smap_mappings.specs.Canonical.{canonical_text};
ghost use Rattle.smap_mappings.specs.Vlq.{is_continuing};
ghost use Rattle.smap_mappings.specs.PackedText.{IsPacked};
ghost use Rattle.smap_mappings.specs.Needless.{is_needless, is_almost_canonical, without_line_ends};

use crate::cursor::Cursor;
use crate::next::next_segment;
use crate::text_writer::TextWriter;
use std::alloc::{AllocError, Global};

// The canonical text of a checked text's mappings.
pub fn canonical_copy(alloc: Global, bytes: &[u8]) -> Result<String, AllocError>
    requires { IsPacked bytes.now }
    ensures { IfOk result (λ text. string_bytes text ≡ canonical_text (mappings_of bytes.now)) }
{
    if is_almost_canonical(bytes) {
        copy(alloc, bytes)
    } else {
        write_anew(alloc, bytes)
    }
}

// The text without the `;` at its end.
fn copy(alloc: Global, bytes: &[u8]) -> Result<String, AllocError>
    requires packed { IsPacked bytes.now }
    requires canonical { is_almost_canonical bytes.now ≡ true }
    ensures { IfOk result (λ text. string_bytes text ≡ canonical_text (mappings_of bytes.now)) }
{
    let end = line_ends_begin(bytes);
    let mut copied = Vec::with_capacity(alloc, end)?;
    copied.extend_from_slice(&bytes[..end])?;
    match String::from_utf8(copied) {
        Ok(text) => Ok(text),
        Err(_) => unreachable!("letters, `,` and `;` are ASCII"),
    }
}

// The mappings encoded one by one; the text has room for them, since no spelling is shorter.
fn write_anew(alloc: Global, bytes: &[u8]) -> Result<String, AllocError>
    requires { IsPacked bytes.now }
    ensures { IfOk result (λ text. string_bytes text ≡ canonical_text (mappings_of bytes.now)) }
{
    let mut writer = TextWriter::with_capacity(alloc, bytes.len())?;
    let mut at = Cursor::START;
    while let Some((kind, after)) = next_segment(bytes, &at) {
        writer.push(&after.mapping(kind))?;
        at = after;
    }
    Ok(writer.into_text())
}

// Whether the text is canonical, save for the `;` at its end.
fn is_almost_canonical(bytes: &[u8]) -> bool
    ensures { result ≡ is_almost_canonical bytes.now }
{
    // No byte is skipped and nothing branches, so that many bytes are gone through at once.
    let mut before = b';';
    let mut has_needless = false;
    for &byte in bytes {
        has_needless |= is_needless(before, byte);
        before = byte;
    }
    !has_needless & (before != b',')
}

// Whether a canonical text has this byte not behind that one.
#[inline(always)]
fn is_needless(before: u8, byte: u8) -> bool
    ensures { result ≡ is_needless before byte }
{
    ((byte == b'A') & is_continuing(before))
        | ((byte == b',') & ((before == b';') | (before == b',')))
        | ((byte == b';') & (before == b','))
}

// Whether a byte is a digit that another one follows.
#[inline(always)]
fn is_continuing(byte: u8) -> bool
    ensures { result ≡ is_continuing byte }
{
    ((byte >= b'g') & (byte <= b'z'))
        | ((byte >= b'0') & (byte <= b'9'))
        | (byte == b'+')
        | (byte == b'/')
}

// The place of the first of the `;` at the text's end.
fn line_ends_begin(bytes: &[u8]) -> usize
    ensures inside { result ≤ length bytes.now }
    ensures cut { take result bytes.now ≡ without_line_ends bytes.now }
{
    let mut end = bytes.len();
    while end > 0 && bytes[end - 1] == b';' {
        end -= 1;
    }
    end
}
