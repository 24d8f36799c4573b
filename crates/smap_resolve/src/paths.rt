//! Paths that go on from the folder that a file is in.
ghost use Rattle.std.specs.Prelude.{◌≡◌, ◌++◌, map, string_bytes, IfOk, OnOk};
ghost use Rattle.std.specs.List.{fold};
ghost use Rattle.smap_resolve.specs.Paths.{can_go_back, ends_scheme, folder_of, begins_with_host, has_scheme, is_relative, is_rooted, is_scheme_byte};
ghost use Rattle.smap_resolve.specs.Paths.{behind_slashes, host_pieces, joined_pieces, one_further, path_from, pieces_of_path, root_of};

use std::alloc::{AllocError, Global};

/// Whether a text is a path that goes on from a folder.
pub fn is_relative(text: &[u8]) -> bool
    ensures { result ≡ is_relative text.now }
{
    !text.is_empty() && !is_rooted(text) && !has_scheme(text)
}

/// Whether a path begins at the root of the folders.
pub fn is_rooted(path: &[u8]) -> bool
    ensures { result ≡ is_rooted path.now }
{
    path.starts_with(b"/")
}

/// Whether a text is a URL without its scheme, whose host stands behind `//`.
pub fn begins_with_host(path: &str) -> bool
    ensures { result ≡ begins_with_host path.now }
{
    path.as_bytes().starts_with(b"//")
}

/// Whether a text begins with the scheme of a URL, or a drive's letter, and `:`.
pub fn has_scheme(text: &[u8]) -> bool
    ensures { result ≡ has_scheme text.now }
{
    let Some((first, rest)) = text.split_first() else {
        return false;
    };
    first.is_ascii_alphabetic() && scheme_ends(rest)
}

// Whether a `:` stands behind the bytes of a scheme that the text begins with.
fn scheme_ends(text: &[u8]) -> bool
    ensures { result ≡ ends_scheme text.now }
{
    for byte in text {
        if !is_scheme_byte(*byte) {
            return *byte == b':';
        }
    }
    false
}

fn is_scheme_byte(byte: u8) -> bool
    ensures { result ≡ is_scheme_byte byte }
{
    byte.is_ascii_alphanumeric() || byte == b'+' || byte == b'-' || byte == b'.'
}

/// The path that a text is, going on from the folder that a file is in.
pub fn path_from(alloc: Global, file: &str, text: &str) -> Result<String, AllocError>
    ensures { IfOk result (λ path. string_bytes path ≡ path_from file.now text.now) }
{
    let before = pieces_of_path(alloc, file)?;
    let behind = pieces_of_path(alloc, text)?;
    let mut pieces = Vec::with_capacity(alloc, before.len() + behind.len())?;
    enter_folder(file, &mut pieces, &before)?;
    go_on(is_rooted(file.as_bytes()), &mut pieces, &behind)?;
    let root = root_of(alloc, file, &before)?;
    joined_path(root, &pieces)
}

// How many of the pieces of a file make a host with its `//`.
fn host_pieces(file: &str) -> usize
    ensures { result ≡ host_pieces file.now }
{
    if begins_with_host(file) { 3 } else { 0 }
}

// Goes on by those pieces of a file that stand behind its host and before its own name.
fn enter_folder<'a>(
    file: &str,
    pieces: &mut Vec<&'a str>,
    of_file: &[&'a str],
) -> Result<(), AllocError>
    requires { map (λ piece. piece.now) of_file.now ≡ pieces_of_path file.now }
    ensures { OnOk result (map (λ piece. piece.now) pieces.new.items
        ≡ fold (one_further (is_rooted file.now)) (map (λ piece. piece.now) pieces.old.items)
        (folder_of file.now)) }
{
    let Some((_, folder)) = of_file.split_last() else {
        return Ok(());
    };
    match folder.get(host_pieces(file)..) {
        Some(behind) => go_on(is_rooted(file.as_bytes()), pieces, behind),
        None => Ok(()),
    }
}

/// What stands before the pieces: the host of a file, whose pieces these are, or the root, or nothing.
pub fn root_of(alloc: Global, file: &str, pieces: &[&str]) -> Result<String, AllocError>
    requires { map (λ piece. piece.now) pieces.now ≡ pieces_of_path file.now }
    ensures { IfOk result (λ root. string_bytes root ≡ root_of file.now) }
{
    let mut root = String::new(alloc);
    if begins_with_host(file) {
        root.push_str("//")?;
        if let Some(host) = pieces.get(2) {
            root.push_str(host)?;
        }
    }
    if is_rooted(file.as_bytes()) {
        root.push('/')?;
    }
    Ok(root)
}

/// The pieces of a path, which stand between `/`.
pub fn pieces_of_path<'a>(alloc: Global, path: &'a str) -> Result<Vec<&'a str>, AllocError>
    ensures { IfOk result (λ pieces. map (λ piece. piece.now) pieces.items
        ≡ pieces_of_path path.now) }
{
    path.split('/').collect(alloc)
}

/// Goes on by these pieces.
pub fn go_on<'a>(
    rooted: bool,
    pieces: &mut Vec<&'a str>,
    further: &[&'a str],
) -> Result<(), AllocError>
    ensures { OnOk result (map (λ piece. piece.now) pieces.new.items
        ≡ fold (one_further rooted) (map (λ piece. piece.now) pieces.old.items)
        (map (λ piece. piece.now) further.now)) }
{
    for piece in further {
        one_further(rooted, pieces, piece)?;
    }
    Ok(())
}

// Goes on by a piece.
fn one_further<'a>(
    rooted: bool,
    pieces: &mut Vec<&'a str>,
    piece: &'a str,
) -> Result<(), AllocError>
    ensures { OnOk result (map (λ piece. piece.now) pieces.new.items
        ≡ one_further rooted (map (λ piece. piece.now) pieces.old.items) piece.now) }
{
    if piece.is_empty() || piece == "." {
        return Ok(());
    }
    if piece == ".." {
        if can_go_back(pieces) {
            pieces.pop();
            return Ok(());
        }
        if rooted && pieces.is_empty() {
            return Ok(());
        }
    }
    pieces.push(piece)?;
    Ok(())
}

// Whether `..` takes a piece back.
fn can_go_back(pieces: &[&str]) -> bool
    ensures { result ≡ can_go_back (map (λ piece. piece.now) pieces.now) }
{
    match pieces.last() {
        Some(last) => *last != "..",
        None => false,
    }
}

/// The path of these pieces behind a root.
pub fn joined_path(root: String, pieces: &[&str]) -> Result<String, AllocError>
    ensures { IfOk result (λ path. string_bytes path
        ≡ string_bytes root ++ joined_pieces (map (λ piece. piece.now) pieces.now)) }
{
    let mut path = root;
    if let Some((first, others)) = pieces.split_first() {
        path.push_str(first)?;
        push_behind(&mut path, others)?;
    }
    Ok(path)
}

// Adds pieces, each behind a `/`.
fn push_behind(path: &mut String, pieces: &[&str]) -> Result<(), AllocError>
    ensures { OnOk result (string_bytes path.new
        ≡ string_bytes path.old ++ behind_slashes (map (λ piece. piece.now) pieces.now)) }
{
    for piece in pieces {
        path.push('/')?;
        path.push_str(piece)?;
    }
    Ok(())
}
