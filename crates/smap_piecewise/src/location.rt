//! The URLs under which maps may be asked for.
ghost use Rattle.std.specs.List.{prefix_len};
ghost use Rattle.std.specs.Prelude.{◌≡◌, ◌≤◌, length};
ghost use Rattle.smap_piecewise.specs.Location.{first_piece, is_inside, is_location, is_whole, is_within_piece, leads_within};

use smap_anywhere::SeemingUrls;
use smap_locations::is_separator;
use smap_pairs::KnownUrls;

/// Whether a map may be asked for under a URL without its query and its fragment: what looks like one, a whole path, or the
/// path of a script that has no empty piece and no `..`; and no pattern.
pub fn is_location(url: &[u8]) -> bool
    ensures { result ≡ is_location url.now }
{
    !url.starts_with(b"*") && SeemingUrls.has_pattern(url) && (is_whole(url) || leads_within(url))
}

// Whether a scheme, a drive or a separator stands before all names in it.
fn is_whole(url: &[u8]) -> bool
    ensures { result ≡ is_whole url.now }
{
    let first = &url[..bytes_in_piece(url)];
    first.is_empty() || first.ends_with(b":")
}

// How many bytes stand before the first separator of a path.
fn bytes_in_piece(path: &[u8]) -> usize
    ensures count { result ≡ prefix_len is_within_piece path.now }
    ensures within { result ≤ length path.now }
{
    path.iter()
        .take_while(|byte| is_within_piece(**byte))
        .count()
}

// Whether a byte is no separator.
fn is_within_piece(byte: u8) -> bool
    ensures { result ≡ is_within_piece byte }
{
    !is_separator(byte)
}

// Whether a path leads nowhere but into the folder that it begins in.
fn leads_within(path: &[u8]) -> bool
    ensures { result ≡ leads_within path.now }
{
    path.split(|byte| is_separator(*byte)).all(is_inside)
}

// Whether a piece of a path leads nowhere else.
fn is_inside(piece: &[u8]) -> bool
    ensures { result ≡ is_inside piece.now }
{
    !piece.is_empty() && piece != b"..".as_slice()
}
