//! What the bytes of a file begin as.
ghost use Rattle.std.specs.Prelude.{◌≡◌, ◌≤◌, ◌<◌, ◌+◌, ◌||◌, length};
ghost use Rattle.smap_explain.specs.Beginning.{begins_as, has_bytes, has_wide_characters, has_wide_mark, is_blank, is_data_url, is_gzip, is_high_first, is_html, is_json, is_letter, is_low_first, is_xz, is_zip, is_zstd, names_a_map, text_begins_as, without_blanks};

use crate::explanation::Beginning;
use memchr::memmem;
use smap_record::{json_text, without_mark};

/// What the bytes of a file begin as. A byte order mark of UTF-8, a guard line and blanks may stand before a text.
#[tactic(auto, unfolding(crate::specs::Beginning::begins_as))]
pub fn begins_as(bytes: &[u8]) -> Beginning
    ensures { result ≡ begins_as bytes.now }
{
    if without_blanks(without_mark(bytes)).is_empty() {
        return Beginning::Nothing;
    }
    if is_gzip(bytes) {
        return Beginning::Gzip;
    }
    if is_xz(bytes) {
        return Beginning::Xz;
    }
    if is_zstd(bytes) {
        return Beginning::Zstd;
    }
    if is_zip(bytes) {
        return Beginning::Zip;
    }
    if is_utf16(bytes) {
        return Beginning::Utf16;
    }
    text_begins_as(bytes)
}

// What a text of UTF-8 begins as.
fn text_begins_as(bytes: &[u8]) -> Beginning
    ensures { result ≡ text_begins_as bytes.now }
{
    let text = without_blanks(without_mark(bytes));
    if is_html(text) {
        return Beginning::Html;
    }
    if is_data_url(text) {
        return Beginning::DataUrl;
    }
    if is_json(without_blanks(json_text(bytes))) {
        return Beginning::Json;
    }
    if names_a_map(bytes) {
        return Beginning::Script;
    }
    Beginning::Other
}

fn is_gzip(bytes: &[u8]) -> bool
    ensures { result ≡ is_gzip bytes.now }
{
    bytes.starts_with(&[0x1F, 0x8B])
}

fn is_xz(bytes: &[u8]) -> bool
    ensures { result ≡ is_xz bytes.now }
{
    bytes.starts_with(&[0xFD, 0x37, 0x7A, 0x58, 0x5A, 0])
}

fn is_zstd(bytes: &[u8]) -> bool
    ensures { result ≡ is_zstd bytes.now }
{
    bytes.starts_with(&[0x28, 0xB5, 0x2F, 0xFD])
}

fn is_zip(bytes: &[u8]) -> bool
    ensures { result ≡ is_zip bytes.now }
{
    bytes.starts_with(&[0x50, 0x4B, 3, 4]) || bytes.starts_with(&[0x50, 0x4B, 5, 6])
}

fn is_utf16(bytes: &[u8]) -> bool
    ensures { result ≡ (has_wide_mark bytes.now || has_wide_characters bytes.now) }
{
    has_wide_mark(bytes) || has_wide_characters(bytes)
}

fn has_wide_mark(bytes: &[u8]) -> bool
    ensures { result ≡ has_wide_mark bytes.now }
{
    bytes.starts_with(&[0xFF, 0xFE]) || bytes.starts_with(&[0xFE, 0xFF])
}

// Whether the first two characters are ASCII in UTF-16, or the only one is.
fn has_wide_characters(bytes: &[u8]) -> bool
    ensures { result ≡ has_wide_characters bytes.now }
{
    if bytes.len() == 2 {
        return is_low_first(bytes, 0) || is_high_first(bytes, 0);
    }
    if bytes.len() < 4 {
        return false;
    }
    is_low_first(bytes, 0) && is_low_first(bytes, 2)
        || is_high_first(bytes, 0) && is_high_first(bytes, 2)
}

fn is_low_first(bytes: &[u8], at: usize) -> bool
    requires { at + 1 < length bytes.now }
    ensures { result ≡ is_low_first bytes.now at }
{
    bytes[at] != 0 && bytes[at + 1] == 0
}

fn is_high_first(bytes: &[u8], at: usize) -> bool
    requires { at + 1 < length bytes.now }
    ensures { result ≡ is_high_first bytes.now at }
{
    bytes[at] == 0 && bytes[at + 1] != 0
}

// The text from its first byte on that is no blank.
fn without_blanks(text: &[u8]) -> &[u8]
    ensures { result.now ≡ without_blanks text.now }
{
    match text.iter().position(|&byte| !is_blank(byte)) {
        Some(start) => &text[start..],
        None => &[],
    }
}

fn is_blank(byte: u8) -> bool
    ensures { result ≡ is_blank byte }
{
    byte == b' ' || byte == b'\t' || byte == b'\n' || byte == b'\r'
}

fn is_html(text: &[u8]) -> bool
    ensures { result ≡ is_html text.now }
{
    text.starts_with(b"<")
}

fn is_data_url(text: &[u8]) -> bool
    ensures { result ≡ is_data_url text.now }
{
    text.len() > 4
        && is_letter(b'd', text[0])
        && is_letter(b'a', text[1])
        && is_letter(b't', text[2])
        && is_letter(b'a', text[3])
        && text[4] == b':'
}

// Whether a byte is this small letter, or the same capital one.
fn is_letter(small: u8, byte: u8) -> bool
    requires { 97 ≤ small }
    ensures { result ≡ is_letter small byte }
{
    byte == small || byte == small - 32
}

fn is_json(text: &[u8]) -> bool
    ensures { result ≡ is_json text.now }
{
    text.starts_with(b"{") || text.starts_with(b"[")
}

// Whether a comment names a source map.
fn names_a_map(text: &[u8]) -> bool
    ensures { result ≡ names_a_map text.now }
{
    has_bytes(text, b"//# sourceMappingURL=") || has_bytes(text, b"//@ sourceMappingURL=")
}

fn has_bytes(text: &[u8], bytes: &[u8]) -> bool
    ensures { result ≡ has_bytes text.now bytes.now }
{
    memmem::find(text, bytes).is_some()
}
