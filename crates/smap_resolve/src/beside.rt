//! What a source is called beside a map that stands at a path.
ghost use Rattle.std.specs.Prelude.{◌≡◌, ◌++◌, option_map, string_bytes, IfOk};
ghost use Rattle.smap_locations.specs.Paths.{without_query};
ghost use Rattle.smap_resolve.specs.Beside.{begins_with_dot, dot_before, goes_on, name_beside, name_beside_file, query_of};
ghost use Rattle.smap_resolve.specs.Beside.{reached, reached_or_dot, root_beside, slash_behind, written_path};

use crate::paths::{begins_with_host, has_scheme, is_rooted, path_from, pieces_of_path, root_of};
use smap_locations::without_query;
use std::alloc::{AllocError, Global};

/// What a source of this name is called in a map whose file stands at the path, where the name is a path: that goes on from
/// the folder of the map, or from the root behind its host. Its query and its fragment stay behind it.
pub fn name_beside(alloc: Global, path: &[u8], name: &str) -> Result<Option<String>, AllocError>
    ensures { IfOk result (λ made. option_map string_bytes made ≡ name_beside path.now name.now) }
{
    match str::from_utf8(without_query(path)) {
        Ok(file) => name_beside_file(alloc, file, name),
        Err(_) => Ok(None),
    }
}

// The same beside a file, whose path has no query.
fn name_beside_file(alloc: Global, file: &str, name: &str) -> Result<Option<String>, AllocError>
    ensures { IfOk result (λ made. option_map string_bytes made ≡
        name_beside_file file.now name.now) }
{
    let (text, query) = cut_at_query(name);
    if has_scheme(name.as_bytes()) || begins_with_host(name) || text.is_empty() {
        return Ok(None);
    }
    let found = reached_or_dot(alloc, file, text)?;
    let mut made = written_path(alloc, file, text, &found)?;
    made.push_str(query)?;
    Ok(Some(made))
}

// The path of a name, and its query with its fragment.
fn cut_at_query(name: &str) -> (&str, &str)
    ensures text { result.0.now ≡ without_query name.now }
    ensures query { result.1.now ≡ query_of name.now }
{
    let cut = without_query(name.as_bytes()).len();
    (&name[..cut], &name[cut..])
}

// Where a path leads from a file: `.` is the file's folder.
fn reached_or_dot(alloc: Global, file: &str, text: &str) -> Result<String, AllocError>
    ensures { IfOk result (λ found. string_bytes found ≡ reached_or_dot file.now text.now) }
{
    let found = reached(alloc, file, text)?;
    if found.is_empty() {
        return String::from_str(alloc, ".");
    }
    Ok(found)
}

fn reached(alloc: Global, file: &str, text: &str) -> Result<String, AllocError>
    ensures { IfOk result (λ found. string_bytes found ≡ reached file.now text.now) }
{
    if is_rooted(text.as_bytes()) {
        return path_from(alloc, &root_beside(alloc, file)?, text);
    }
    path_from(alloc, file, text)
}

// The root of the folders that a file is in.
fn root_beside(alloc: Global, file: &str) -> Result<String, AllocError>
    ensures { IfOk result (λ root. string_bytes root ≡ root_beside file.now) }
{
    if begins_with_host(file) {
        return root_of(alloc, file, &pieces_of_path(alloc, file)?);
    }
    String::from_str(alloc, "/")
}

// The path to which a text was found to lead from a file, written as the file's path and the text are.
fn written_path(alloc: Global, file: &str, text: &str, found: &str) -> Result<String, AllocError>
    ensures { IfOk result (λ path. string_bytes path ≡ written_path file.now text.now found.now) }
{
    let mut path = String::new(alloc);
    path.push_str(dot_before(file, text, found))?;
    path.push_str(found)?;
    path.push_str(slash_behind(text, found))?;
    Ok(path)
}

fn dot_before(file: &str, text: &str, found: &str) -> &'static str
    ensures { result.now ≡ dot_before file.now text.now found.now }
{
    if !is_rooted(text.as_bytes())
        && begins_with_dot(file, text)
        && !found.as_bytes().starts_with(b".")
    {
        "./"
    } else {
        ""
    }
}

// Whether the path of a file, if that is in a folder, or else the text begins with a `.`.
fn begins_with_dot(file: &str, text: &str) -> bool
    ensures { result ≡ begins_with_dot file.now text.now }
{
    let begin = if file.as_bytes().contains(&b'/') {
        file
    } else {
        text
    };
    begin.as_bytes().starts_with(b".")
}

fn slash_behind(text: &str, found: &str) -> &'static str
    ensures { result.now ≡ slash_behind text.now found.now }
{
    if text.as_bytes().ends_with(b"/") && !found.as_bytes().ends_with(b"/") {
        "/"
    } else {
        ""
    }
}
