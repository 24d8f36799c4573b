//! Saying why a file gives no map, where that is asked.
ghost use Rattle.std.specs.Prelude.{◌≡◌, ◌≢◌, ◌++◌, option_copied, string_bytes, true, IfErr, IfOk, Ok};
ghost use Rattle.smap_explain.specs.Beginning.{has_bytes};
ghost use Rattle.smap_record.specs.MapFile.{IsMapOf};
ghost use Rattle.smap_record.specs.Record.{record_of};
ghost use Rattle.smap_record.specs.declared.refusal.MapRefusal.TheVariants.{Memory};
ghost use Rattle.smap_replies.specs.Lines.{file_failed_line};
ghost use Rattle.smap_replies.specs.Map.{IsStated, Never, ReportsRead};
ghost use Rattle.smap_replies.specs.Outcome.{OrMemory, failure_report};
ghost use Rattle.smap_replies.specs.Why.{IsRefused, IsUnreadFor, IsUnreadWhy, IsWhyLine, ReportsMapWhy, cause_text};
ghost use Rattle.smap_replies.specs.Why.{IsWhyText, inline_text, is_of_script, is_script, missing_text};

use crate::files::{FileReader, UnreadCause};
use crate::lines::file_failed_line;
use crate::map::MapReader;
use crate::outcome::Failure;
use crate::refusal::refusal_line;
use crate::standing::{Standing, map_of};
use memchr::memmem;
use smap_explain::{Beginning, Explanation, explain};
use smap_io::ReadFailure;
use smap_record::{MapFile, MapRefusal, Url};
use smap_verdicts::explanation_text;
use std::alloc::{AllocError, Global};

// How the map of a script is taken out of it.
const TAKE_OUT: &str =
    "  a sourceMappingURL in it is a data: URL, which holds the map; if that is base64, this takes it out:
  sed -n 's/^.*sourceMappingURL=data:[^,]*base64,//p' FILE | base64 -d > FILE.map
";

// The path of a file is that of a folder.
const FOLDER: &str =
    "  the path is that of a folder: to rewrite and locate a folder of maps is PREFIX/=FOLDER/, to check FOLDER/*.map\n";

// The path of a file is that of none.
const EMPTY: &str = "  the path is empty: in URL=FILE it stands behind the last =\n";

// The path of a file that is not there begins with a `~`, as a shell leaves it behind a `=`.
const TILDE: &str =
    "  there is no such file: a shell puts a folder for ~ only where a word begins with it\n";

// The path of a file that is not there is a URL.
const URL: &str =
    "  the path is a URL, and only files are read: swapped? in URL=FILE the URL stands first\n";

/// The map that the file of this number and path is. Where it is none, and `explain` asks for that, why is reported too: for
/// that the bytes of the file are kept until its map is read.
pub fn read_map_explained<F: FileReader>(
    alloc: Global,
    maps: &MapReader<'_, F>,
    number: usize,
    path: &str,
    explain: bool,
) -> Result<MapFile, Failure>
    ensures read { IfOk result (λ map. IsStated (F.gives maps.now.files.now) number path.now
        (option_copied maps.now.base) maps.now.interval map.stated) }
    ensures refused { IfErr result (λ failure. OrMemory
        (ReportsMapWhy (F.gives maps.now.files.now) explain number path.now
        (option_copied maps.now.base) maps.now.interval Never) (failure_report failure)) }
{
    let bytes = file_bytes_explained(alloc, maps.files, number, path, explain)?;
    if !explain {
        return map_of(alloc, path, Standing::At(maps.base), maps.interval, bytes);
    }
    explained_map(alloc, path, &bytes, maps.base, maps.interval)
}

// The map that the bytes of the file at this path are, or why they are none.
fn explained_map(
    alloc: Global,
    path: &str,
    bytes: &[u8],
    base: Option<&Url>,
    interval: u32,
) -> Result<MapFile, Failure>
    ensures read { IfOk result
        (IsMapOf (record_of bytes.now (option_copied base.entry) interval) interval) }
    ensures refused { IfErr result (λ failure. OrMemory
        (ReportsRead (IsRefused bytes.now path.now true)
        (record_of bytes.now (option_copied base.entry) interval) Never) (failure_report failure)) }
{
    match MapFile::read(alloc, bytes, base, interval) {
        Ok(map) => Ok(map),
        Err(refused) => Err(refused_map(alloc, path, bytes, refused, true)?),
    }
}

/// Why the map of the file of these bytes is refused: its refusal and, where that is asked, what is known of it. Out of
/// memory is no refusal of the map.
pub fn refused_map(
    alloc: Global,
    path: &str,
    bytes: &[u8],
    refused: MapRefusal,
    explain: bool,
) -> Result<Failure, AllocError>
    ensures reported { IfOk result (λ failure. IsRefused bytes.now path.now explain refused
        (failure_report failure)) }
    ensures not_memory { IfOk result (λ _. refused ≢ Memory) }
{
    let line = if explain {
        why_line(alloc, path, bytes, refused)?
    } else {
        refusal_line(alloc, path, refused)?
    };
    Ok(Failure::refusal(refused.code(), line))
}

// The line that reports a refusal, and the lines that say why.
fn why_line(
    alloc: Global,
    path: &str,
    bytes: &[u8],
    refused: MapRefusal,
) -> Result<String, AllocError>
    ensures reported { IfOk result (λ line. IsWhyLine bytes.now path.now refused
        (string_bytes line)) }
    ensures not_memory { IfOk result (λ _. refused ≢ Memory) }
{
    let line = refusal_line(alloc, path, refused)?;
    let why = why_text(alloc, bytes, refused)?;
    format!(in alloc; "{line}{why}")
}

/// The lines that say why the map of the file of these bytes is refused.
pub fn why_text(alloc: Global, bytes: &[u8], refused: MapRefusal) -> Result<String, AllocError>
    ensures { IfOk result (λ text. IsWhyText bytes.now refused (string_bytes text)) }
{
    let explanation = explain(alloc, bytes, refused)?;
    let why = explanation_text(alloc, &explanation)?;
    let inline = inline_text(bytes, &explanation);
    format!(in alloc; "{why}{inline}")
}

// How to take the map out of the bytes of a script that holds one; of anything else nothing.
fn inline_text(bytes: &[u8], explanation: &Explanation) -> &'static str
    ensures { result.now ≡ inline_text bytes.now explanation.now }
{
    if is_of_script(explanation) && has_bytes(bytes, b"sourceMappingURL=data:") {
        TAKE_OUT
    } else {
        ""
    }
}

fn is_of_script(explanation: &Explanation) -> bool
    ensures { result ≡ is_of_script explanation.now }
{
    match explanation {
        Explanation::NotJson(facts) => is_script(facts.begins_as),
        _ => false,
    }
}

fn is_script(begins_as: Beginning) -> bool
    ensures { result ≡ is_script begins_as }
{
    match begins_as {
        Beginning::Script => true,
        _ => false,
    }
}

// That there is no file at a path; of none, that it is empty; of a URL, that only files are read; of a `~`, where a shell
// puts a folder for it.
fn missing_text(path: &str) -> &'static str
    ensures { result.now ≡ missing_text path.now }
{
    if path.is_empty() {
        EMPTY
    } else if has_bytes(path.as_bytes(), b"://") {
        URL
    } else if path.starts_with("~/") {
        TILDE
    } else {
        "  there is no such file\n"
    }
}

fn has_bytes(text: &[u8], bytes: &[u8]) -> bool
    ensures { result ≡ has_bytes text.now bytes.now }
{
    memmem::find(text, bytes).is_some()
}

/// The bytes of the file of this number and path. Where it can't be read, and `explain` asks for that, why not is reported
/// too.
pub fn file_bytes_explained<F: FileReader>(
    alloc: Global,
    reader: &F,
    number: usize,
    path: &str,
    explain: bool,
) -> Result<Vec<u8>, Failure>
    ensures read { IfOk result (λ bytes. F.gives reader.now number path.now (Ok bytes.items)) }
    ensures unread { IfErr result (λ failure. OrMemory
        (IsUnreadWhy (F.gives reader.now) explain number path.now) (failure_report failure)) }
{
    match reader.read_file(alloc, number, path) {
        Ok(bytes) => Ok(bytes),
        Err(ReadFailure::Device) => Err(unread_file(alloc, reader, path, explain)?),
        Err(ReadFailure::Memory) => Err(Failure::Memory),
    }
}

// That the file at a path can't be read and, where that is asked, why not.
fn unread_file<F: FileReader>(
    alloc: Global,
    reader: &F,
    path: &str,
    explain: bool,
) -> Result<Failure, AllocError>
    ensures { IfOk result (λ failure. IsUnreadFor path.now explain (failure_report failure)) }
{
    let line = if explain {
        cause_line(alloc, path, reader.unread_cause(path))?
    } else {
        file_failed_line(alloc, path)?
    };
    Ok(Failure::Unreadable(line))
}

fn cause_line(alloc: Global, path: &str, cause: UnreadCause) -> Result<String, AllocError>
    ensures { IfOk result (λ line. string_bytes line
        ≡ file_failed_line path.now ++ cause_text path.now cause) }
{
    let (line, cause) = (file_failed_line(alloc, path)?, cause_text(path, cause));
    format!(in alloc; "{line}{cause}")
}

/// Why the file at a path can't be read, in a sentence.
pub fn cause_text(path: &str, cause: UnreadCause) -> &'static str
    ensures { result.now ≡ cause_text path.now cause }
{
    match cause {
        UnreadCause::Missing => missing_text(path),
        UnreadCause::Folder => FOLDER,
        UnreadCause::NoPermission => "  the file may not be read: permission is denied\n",
        UnreadCause::Other => "  reading the file failed for another cause\n",
    }
}
