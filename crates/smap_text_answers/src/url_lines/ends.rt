//! How the line of a URL ends: where its map came from, or why it has none.
ghost use Rattle.std.specs.Prelude.{◌≡◌, ◌&&◌, ◌++◌, map, not, option_copied, string_bytes, IfOk};
ghost use Rattle.std.specs.Str.{bytes_eq};
ghost use Rattle.smap_locations.specs.ListLine.{is_rule};
ghost use Rattle.smap_replies.specs.Arguments.{argument_of};
ghost use Rattle.smap_text_answers.specs.Private.Causes.{SaysWhy};
ghost use Rattle.smap_text_answers.specs.UrlLines.{IsCause, IsEnd};
ghost use Rattle.smap_text_answers.specs.UrlLines.{body_of, cause_text, deciding_name, found_text, late_text, misfit_text, nearest_text, refused_text, rest_text, unknown_text, unread_text, url_file, word_file};
ghost use Rattle.smap_trace.specs.NotesSeen.{note_seen};

use super::shown_url;
use crate::lines::misfit_line;
use crate::loader::FileLoader;
use crate::nearest::nearest_of;
use smap_io::ByteSink;
use smap_locations::{Locations, is_rule};
use smap_record::MapRefusal;
use smap_replies::{FileReader, UnreadCause, refusal_of};
use smap_store::asks_no_file;
use smap_text::shown;
use smap_trace::{NoMap, UrlNote};
use std::alloc::{AllocError, Global};

// The end of the line of a URL for which no file is asked, as of node's own modules.
const NO_FILE_ASKED: &str = "no file is asked for such a URL";

// The end of that of a URL which is the prefix of a folder.
const FOLDER_ALONE: &str = ", but for a folder: URL=FILE gives its map";

// What says more of a map that is refused.
const SEE_CHECK: &str = ": see smap check --explain";

// The same of one that does not fit its generated file.
const SEE_FIT: &str = ": see smap fit --explain";

/// The end of the line of a URL: where its map came from, or why it has none.
pub(super) fn end_of<F: FileReader, E: ByteSink>(
    alloc: Global,
    loader: &FileLoader<'_, '_, '_, F, E>,
    arguments: &[(String, String)],
    locations: &Locations,
    note: &UrlNote,
) -> Result<Vec<u8>, AllocError>
    ensures { IfOk result (λ text. IsEnd (F.gives loader.now.maps.now.files.now) loader.now.paths
        (option_copied loader.now.maps.now.base) loader.now.maps.now.interval loader.now.number loader.now.fit
        (map argument_of arguments.now) locations.now (note_seen note.now) text.items) }
{
    if note.found {
        let file = url_file(alloc, &note.url, arguments, locations)?;
        let name = deciding_name(alloc, &note.url, arguments, locations)?;
        return found_text(alloc, &name, &file, note);
    }
    if asks_no_file(locations, &note.url) {
        return Vec::from_slice(alloc, NO_FILE_ASKED.as_bytes());
    }
    match locations.path_for(alloc, &note.url)? {
        Some(path) => cause_of(alloc, loader, &note.url, &path),
        None => {
            let text = unknown_text(alloc, &note.url, nearest_of(&note.url, arguments))?;
            Ok(text.into_bytes())
        }
    }
}

// The file that an argument or the list names for a URL; empty where none does.
fn url_file(
    alloc: Global,
    url: &[u8],
    arguments: &[(String, String)],
    locations: &Locations,
) -> Result<String, AllocError>
    ensures { IfOk result (λ file.
        string_bytes file ≡ url_file url.now (map argument_of arguments.now) locations.now) }
{
    match word_file(url, arguments) {
        Some(path) => String::from_str(alloc, path),
        None => match locations.path_for(alloc, url)? {
            Some(path) => Ok(path),
            None => Ok(String::new(alloc)),
        },
    }
}

// What decides which file a URL has, as it was named; empty where nothing does.
fn deciding_name(
    alloc: Global,
    url: &[u8],
    arguments: &[(String, String)],
    locations: &Locations,
) -> Result<Vec<u8>, AllocError>
    ensures { IfOk result (λ name.
        name.items ≡ deciding_name url.now (map argument_of arguments.now) locations.now) }
{
    match word_file(url, arguments) {
        Some(_) => Vec::from_slice(alloc, url),
        None => match locations.decided_by(alloc, url)? {
            Some(name) => Ok(name),
            None => Ok(Vec::new(alloc)),
        },
    }
}

// The file that an argument names for a URL.
fn word_file<'a>(url: &[u8], arguments: &'a [(String, String)]) -> Option<&'a str>
    ensures { option_copied result ≡ word_file url.now (map argument_of arguments.now) }
{
    for (word, path) in arguments {
        if is_file_of(url, word, path) {
            return Some(path);
        }
    }
    None
}

// Whether an argument names a file for a URL.
fn is_file_of(url: &[u8], word: &str, path: &str) -> bool
    ensures { result ≡ (not (is_rule word.now path.now) && bytes_eq url.now word.now) }
{
    !is_rule(word, path) && url == word.as_bytes()
}

// What decided where the map of a URL is, where it came from, and what became of the frames that were not replaced.
fn found_text(alloc: Global, name: &[u8], file: &str, note: &UrlNote) -> Result<Vec<u8>, AllocError>
    ensures { IfOk result (λ text. text.items ≡ found_text name.now file.now (note_seen note.now)) }
{
    let (name, file) = (shown_url(alloc, name)?, shown(alloc, file)?);
    let rest = rest_text(
        alloc,
        note.unmapped,
        note.frames.saturating_sub(note.mapped),
    )?;
    let mut text = Vec::from_slice(alloc, b"by ")?;
    text.extend_from_slice(&name)?;
    text.extend_from_slice(b" from ")?;
    text.extend_from_slice(file.as_bytes())?;
    text.extend_from_slice(rest.as_bytes())?;
    Ok(text)
}

// The first place for which a map has no original that can be printed, or how many frames were left out.
fn rest_text(alloc: Global, unmapped: Option<(u32, u32)>, left: u64) -> Result<String, AllocError>
    ensures { IfOk result (λ text. string_bytes text ≡ rest_text unmapped left) }
{
    match unmapped {
        Some((line, column)) => {
            format!(in alloc; ", no original to print for {line}:{column}: see smap lookup")
        }
        None if left == 0 => Ok(String::new(alloc)),
        None => format!(in alloc; ", {left} hidden"),
    }
}

// That no argument and no list has a URL, and which argument is nearest.
fn unknown_text(alloc: Global, url: &[u8], nearest: Option<&str>) -> Result<String, AllocError>
    ensures { IfOk result (λ text.
        string_bytes text ≡ unknown_text url.now (option_copied nearest.entry)) }
{
    let nearest = nearest_text(alloc, url, nearest)?;
    format!(in alloc; "no argument and no list has this URL{nearest}")
}

// Which argument is nearest, where one is; a folder that has this very URL names no file for it.
fn nearest_text(alloc: Global, url: &[u8], nearest: Option<&str>) -> Result<String, AllocError>
    ensures { IfOk result (λ text.
        string_bytes text ≡ nearest_text url.now (option_copied nearest.entry)) }
{
    match nearest {
        Some(nearest) if nearest.as_bytes() == url => String::from_str(alloc, FOLDER_ALONE),
        Some(nearest) => {
            let nearest = shown(alloc, nearest)?;
            format!(in alloc; ", the nearest is {nearest}")
        }
        None => Ok(String::new(alloc)),
    }
}

// Why the file of a URL gives no map: it is read again.
fn cause_of<F: FileReader, E: ByteSink>(
    alloc: Global,
    loader: &FileLoader<'_, '_, '_, F, E>,
    url: &[u8],
    path: &str,
) -> Result<Vec<u8>, AllocError>
    ensures { IfOk result (λ text. IsCause (F.gives loader.now.maps.now.files.now) loader.now.paths
        (option_copied loader.now.maps.now.base) loader.now.maps.now.interval loader.now.number loader.now.fit
        url.now path.now text.items) }
{
    match loader.load_at(alloc, url, path) {
        Ok(_) => Ok(late_text(alloc, path)?.into_bytes()),
        Err(why) => unloaded_text(alloc, loader.maps.files, path, why),
    }
}

// What is said of a file that gives no map; nothing, where memory ran out.
fn unloaded_text<F: FileReader>(
    alloc: Global,
    files: &F,
    path: &str,
    why: NoMap,
) -> Result<Vec<u8>, AllocError>
    ensures { IfOk result (λ text. SaysWhy why path.now text.items) }
{
    match why {
        NoMap::Unread => {
            let text = unread_text(alloc, path, files.unread_cause(path))?;
            Ok(text.into_bytes())
        }
        NoMap::Refused(refusal) => refused_text(alloc, path, refusal),
        NoMap::Unnamed => misfit_text(alloc, path),
        NoMap::Memory => Err(AllocError),
    }
}

// Why the map of a file is refused, and what says more of it.
fn refused_text(alloc: Global, path: &str, refusal: MapRefusal) -> Result<Vec<u8>, AllocError>
    ensures { IfOk result (λ text. text.items ≡ refused_text path.now refusal) }
{
    let failure = refusal_of(alloc, path, refusal)?;
    told_with(alloc, failure.bytes(), SEE_CHECK)
}

// That the map of a file does not fit its generated file, and what says more of it.
fn misfit_text(alloc: Global, path: &str) -> Result<Vec<u8>, AllocError>
    ensures { IfOk result (λ text. text.items ≡ misfit_text path.now) }
{
    let line = misfit_line(alloc, path)?;
    told_with(alloc, line.as_bytes(), SEE_FIT)
}

// A line without its LF, and what stands behind it.
fn told_with(alloc: Global, line: &[u8], more: &str) -> Result<Vec<u8>, AllocError>
    ensures { IfOk result (λ text. text.items ≡ body_of line.now ++ more.now) }
{
    let mut text = body_of(alloc, line)?;
    text.extend_from_slice(more.as_bytes())?;
    Ok(text)
}

// That no map came from a file that gives one now.
fn late_text(alloc: Global, path: &str) -> Result<String, AllocError>
    ensures { IfOk result (λ text. string_bytes text ≡ late_text path.now) }
{
    let path = shown(alloc, path)?;
    format!(in alloc; "no map came from {path}")
}

// That a file can't be read, and why not.
fn unread_text(alloc: Global, path: &str, cause: UnreadCause) -> Result<String, AllocError>
    ensures { IfOk result (λ text. string_bytes text ≡ unread_text path.now cause) }
{
    let (path, cause) = (shown(alloc, path)?, cause_text(cause));
    format!(in alloc; "cannot read {path}: {cause}")
}

// Why a file can't be read.
fn cause_text(cause: UnreadCause) -> &'static str
    ensures { result.now ≡ cause_text cause }
{
    match cause {
        UnreadCause::Missing => "no such file",
        UnreadCause::Folder => "it is a folder",
        UnreadCause::NoPermission => "no permission",
        UnreadCause::Other => "another cause",
    }
}

// A line without its LF.
fn body_of(alloc: Global, line: &[u8]) -> Result<Vec<u8>, AllocError>
    ensures { IfOk result (λ text. text.items ≡ body_of line.now) }
{
    Vec::from_slice(alloc, &line[..line.len().saturating_sub(1)])
}
