//! What a source is called by the path that is its map's URL.
ghost use Rattle.std.specs.Prelude.{◌≡◌, true, map, option_map, string_bytes, IfOk, OnOk};
ghost use Rattle.std.specs.List.{fold};
ghost use Rattle.smap_resolve.specs.ByPath.{folder_on_drive, going_on, going_on_from, is_on_drive, is_path, leads_through_folder, name_by_path, path_on_drive, replaced};
ghost use Rattle.smap_resolve.specs.Paths.{one_further, pieces_of_path};

use crate::paths::{go_on, is_relative, is_rooted, joined_path, path_from, pieces_of_path};
use smap_locations::without_query;
use std::alloc::{AllocError, Global};

/// Whether a URL is the path of a file from a root, its query and its fragment aside: it begins with `/`, or with a drive's
/// letter, `:` and `/` or `\`; or a relative path with a `/` in it.
pub fn is_path(url: &[u8]) -> bool
    ensures { result ≡ is_path url.now }
{
    let path = without_query(url);
    is_rooted(path)
        || is_on_drive(b":/", path)
        || is_on_drive(b":\\", path)
        || leads_through_folder(path)
}

/// What `name_sources_by_path` calls a source of this name, where it names that anew.
pub fn name_by_path(alloc: Global, url: &[u8], name: &str) -> Result<Option<String>, AllocError>
    ensures { IfOk result (λ made. option_map string_bytes made ≡ name_by_path url.now name.now) }
{
    match str::from_utf8(without_query(url)) {
        Ok(path) => going_on_from(alloc, path, name),
        Err(_) => Ok(None),
    }
}

// The path that a name goes on to from the folder of a file, with the separators of that file's path.
fn going_on_from(alloc: Global, path: &str, name: &str) -> Result<Option<String>, AllocError>
    ensures { IfOk result (λ made. option_map string_bytes made ≡ going_on_from path.now name.now) }
{
    if !is_on_drive(b":\\", path.as_bytes()) {
        return going_on(alloc, path, name);
    }
    let (path, name) = (with_slashes(alloc, path)?, with_slashes(alloc, name)?);
    match going_on(alloc, &path, &name)? {
        Some(made) => Ok(Some(with_backslashes(alloc, &made)?)),
        None => Ok(None),
    }
}

// The path that a name goes on to from the folder of a file, where that is a path from a root, or leads through a folder,
// and the name is a relative one.
fn going_on(alloc: Global, path: &str, name: &str) -> Result<Option<String>, AllocError>
    ensures { IfOk result (λ made. option_map string_bytes made ≡ going_on path.now name.now) }
{
    if !is_relative(name.as_bytes()) {
        return Ok(None);
    }
    if is_rooted(path.as_bytes()) || leads_through_folder(path.as_bytes()) {
        return Ok(Some(path_from(alloc, path, name)?));
    }
    if is_on_drive(b":/", path.as_bytes()) {
        return Ok(Some(path_on_drive(alloc, path, name)?));
    }
    Ok(None)
}

// Whether a path is a relative one that leads through a folder.
fn leads_through_folder(path: &[u8]) -> bool
    ensures { result ≡ leads_through_folder path.now }
{
    is_relative(path) && path.contains(&b'/')
}

// Whether a path is one from the root of a drive: its letter, and then this.
fn is_on_drive(root: &[u8], path: &[u8]) -> bool
    ensures { result ≡ is_on_drive root.now path.now }
{
    match path.split_first() {
        Some((letter, behind)) => letter.is_ascii_alphabetic() && behind.starts_with(root),
        None => false,
    }
}

// The path that a text is, going on from the folder that a file on a drive is in.
fn path_on_drive(alloc: Global, file: &str, text: &str) -> Result<String, AllocError>
    ensures { IfOk result (λ path. string_bytes path ≡ path_on_drive file.now text.now) }
{
    let of_file = pieces_of_path(alloc, file)?;
    let behind = pieces_of_path(alloc, text)?;
    let mut pieces = Vec::with_capacity(alloc, of_file.len())?;
    enter_folder(file, &mut pieces, &of_file)?;
    go_on(true, &mut pieces, &behind)?;
    let mut root = String::new(alloc);
    if let Some(drive) = of_file.first() {
        root.push_str(drive)?;
    }
    root.push('/')?;
    joined_path(root, &pieces)
}

// Goes on by those pieces of a file on a drive that stand behind the drive and before its own name.
fn enter_folder<'a>(
    file: &str,
    pieces: &mut Vec<&'a str>,
    of_file: &[&'a str],
) -> Result<(), AllocError>
    requires { map (λ piece. piece.now) of_file.now ≡ pieces_of_path file.now }
    ensures { OnOk result (map (λ piece. piece.now) pieces.new.items
        ≡ fold (one_further true) (map (λ piece. piece.now) pieces.old.items)
        (folder_on_drive file.now)) }
{
    let Some((_, folder)) = of_file.split_last() else {
        return Ok(());
    };
    match folder.get(1..) {
        Some(behind) => go_on(true, pieces, behind),
        None => Ok(()),
    }
}

// A text with a `/` in the place of each `\`.
fn with_slashes(alloc: Global, text: &str) -> Result<String, AllocError>
    ensures { IfOk result (λ made. string_bytes made ≡ replaced 92 47 text.now) }
{
    let pieces: Vec<&str> = text.split('\\').collect(alloc)?;
    pieces.join(alloc, "/")
}

// A path with a `\` in the place of each `/`.
fn with_backslashes(alloc: Global, path: &str) -> Result<String, AllocError>
    ensures { IfOk result (λ made. string_bytes made ≡ replaced 47 92 path.now) }
{
    pieces_of_path(alloc, path)?.join(alloc, "\\")
}
