//! The path of a map in a folder.
ghost use Rattle.std.specs.Prelude.{◌≡◌, ◌≤◌, length, map, string_bytes, option_map, IfOk};
ghost use Rattle.std.specs.List.{prefix_len};
ghost use Rattle.smap_locations.specs.Paths.{has_map_path, is_before_query, is_plain, is_plain_byte, is_plain_piece, map_path, without_query};
ghost use Rattle.smap_locations.specs.Patterns.{path_byte};

use crate::pieces::path_byte;
use memchr::memchr2;
use std::alloc::{AllocError, Global};

/// A URL without its query and its fragment: what stands before its first `?` or `#`.
pub fn without_query(url: &[u8]) -> &[u8]
    ensures { result.now ≡ without_query url.now }
{
    &url[..bytes_before_query(url)]
}

/// The path of the map of a URL in a folder, where this is what the URL has behind the folder's prefix, if that is a plain
/// path: then it is the folder, that path and `.map`.
pub fn map_path(alloc: Global, folder: &str, rest: &[u8]) -> Result<Option<String>, AllocError>
    ensures { IfOk result (λ path. option_map string_bytes path ≡ map_path folder.now rest.now) }
{
    let Ok(rest) = str::from_utf8(rest) else {
        return Ok(None);
    };
    if !is_plain(rest.as_bytes(), false) {
        return Ok(None);
    }
    let path = format!(in alloc; "{folder}{rest}.map")?;
    Ok(Some(path))
}

/// Whether a folder has a path for the map of a URL, where this is what the URL has behind the folder's prefix, and each `\`
/// stands for `/` if it has backslashes.
pub fn has_map_path(rest: &[u8], has_backslashes: bool) -> bool
    ensures { result ≡ has_map_path (map (path_byte has_backslashes) rest.now) }
{
    match str::from_utf8(rest) {
        Ok(_) => is_plain(rest, has_backslashes),
        Err(_) => false,
    }
}

// Whether a text is a path that leads nowhere but into the folder that it begins in, where each `\` stands for `/` if it has
// backslashes.
fn is_plain(rest: &[u8], has_backslashes: bool) -> bool
    ensures { result ≡ is_plain (map (path_byte has_backslashes) rest.now) }
{
    rest.iter()
        .all(|byte| is_plain_byte(path_byte(has_backslashes, *byte)))
        && rest
            .split(|byte| path_byte(has_backslashes, *byte) == b'/')
            .all(is_plain_piece)
}

// Whether a byte may stand in a plain path: no control character, and none that begins a scheme, a drive or a folder
// elsewhere.
fn is_plain_byte(byte: u8) -> bool
    ensures { result ≡ is_plain_byte byte }
{
    byte >= 0x20 && byte != 0x7f && byte != b'\\' && byte != b':'
}

// Whether a piece between two `/` is the name of a file or a folder.
fn is_plain_piece(piece: &[u8]) -> bool
    ensures { result ≡ is_plain_piece piece.now }
{
    !piece.is_empty() && piece != b".".as_slice() && piece != b"..".as_slice()
}

// How many bytes stand before the query and the fragment of a URL.
fn bytes_before_query(url: &[u8]) -> usize
    ensures count { result ≡ prefix_len is_before_query url.now }
    ensures within { result ≤ length url.now }
{
    memchr2(b'?', b'#', url).unwrap_or(url.len())
}
