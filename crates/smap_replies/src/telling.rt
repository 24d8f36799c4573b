//! What is told of the files of a command that could not be read, or are no maps, behind what was reported.
ghost use Rattle.std.specs.Prelude.{◌≡◌, ◌≢◌, IfOk, None, Ok, map, option_copied, option_map, string_bytes, true};
ghost use Rattle.std.specs.Bool.{OnFalse, OnTrue};
ghost use Rattle.smap_command.specs.Limits.{usual_interval};
ghost use Rattle.smap_explain.specs.Beginning.{begins_as};
ghost use Rattle.smap_record.specs.Record.{record_of};
ghost use Rattle.smap_replies.specs.Standing.{IsRefusedFor};
ghost use Rattle.smap_replies.specs.Telling.{IsCauseTold, IsFirstTold, IsNoMapText, IsNoMapTold, IsPassedOver, IsSwapped, IsToldOf, IsCauseUnknown, TellsCause, TellsNoMap, TextOrMap, is_json, file_seen, swapped_text};
ghost use Rattle.smap_replies.specs.declared.files.UnreadCause.TheVariants.{Other};

use crate::files::{FileReader, UnreadCause};
use crate::lines::NO_MEMORY;
use crate::reporting::print_error;
use crate::why::{cause_text, why_text};
use smap_command::USUAL_INTERVAL;
use smap_explain::{Beginning, begins_as};
use smap_io::{ByteSink, ReadFailure};
use smap_record::{MapFile, MapRefusal};
use smap_text::shown;
use std::alloc::{AllocError, Global};

/// A file that a command names.
#[derive(Clone, Copy)]
pub struct NamedFile<'a> {
    /// Its number among the paths of the command, from 0.
    pub number: usize,
    pub path: &'a str,
    /// Whether it is to be a map.
    pub is_map: bool,
    /// The number and the path of what it may have been swapped with, where there is that.
    pub beside: Option<(usize, &'a str)>,
}

/// Tells why the first of these files for which a cause is known that it can't be read can't be, on a line behind what was
/// reported; nothing, where a cause is known for none. The call takes no memory.
pub fn tell_cause<F: FileReader, E: ByteSink>(reader: &F, files: &[NamedFile<'_>], errors: &mut E)
    ensures { TellsCause (F.causes reader.now) (map file_seen files.now)
        (E.seen errors.old) (E.seen errors.new) }
{
    if let Some(text) = first_cause(reader, files) {
        print_error(errors, text.as_bytes());
    }
}

// What is told of the first file for which a cause is known that it can't be read.
fn first_cause<F: FileReader>(reader: &F, files: &[NamedFile<'_>]) -> Option<&'static str>
    ensures { IsFirstTold (IsCauseUnknown (F.causes reader.now)) (IsCauseTold (F.causes reader.now))
        (map file_seen files.now) (option_copied result) }
{
    for file in files {
        if let Some(text) = cause_told(reader, file) {
            return Some(text);
        }
    }
    None
}

// Why a file can't be read, where that is known.
fn cause_told<F: FileReader>(reader: &F, file: &NamedFile<'_>) -> Option<&'static str>
    ensures { IsToldOf (IsCauseUnknown (F.causes reader.now)) (IsCauseTold (F.causes reader.now))
        (file_seen file.now) (option_copied result) }
{
    let cause = reader.unread_cause(file.path);
    if is_other(cause) {
        None
    } else {
        Some(cause_text(file.path, cause))
    }
}

// Whether the cause is not known.
fn is_other(cause: UnreadCause) -> bool
    ensures known { OnFalse result (cause ≢ Other) }
    ensures unknown { OnTrue result (cause ≡ Other) }
{
    match cause {
        UnreadCause::Other => true,
        UnreadCause::Missing | UnreadCause::Folder | UnreadCause::NoPermission => false,
    }
}

/// Tells why the first of these files that is no map, by what its bytes begin as, is none, on lines behind what was
/// reported; and that it may be swapped with what stands beside it, where that begins as a map. Only regular files are read
/// for it, and where memory runs out that is told.
pub fn tell_no_map<F: FileReader, E: ByteSink>(
    alloc: Global,
    reader: &F,
    files: &[NamedFile<'_>],
    errors: &mut E,
)
    ensures { TellsNoMap (F.gives reader.now) (map file_seen files.now)
        (E.seen errors.old) (E.seen errors.new) }
{
    match first_no_map(alloc, reader, files) {
        Ok(Some(text)) => print_error(errors, text.as_bytes()),
        Ok(None) => {}
        Err(_) => print_error(errors, NO_MEMORY.as_bytes()),
    }
}

// What is told of the first file that is no map.
fn first_no_map<F: FileReader>(
    alloc: Global,
    reader: &F,
    files: &[NamedFile<'_>],
) -> Result<Option<String>, AllocError>
    ensures { IfOk result (λ text. IsFirstTold (IsPassedOver (F.gives reader.now))
        (IsNoMapTold (F.gives reader.now)) (map file_seen files.now)
        (option_map string_bytes text)) }
{
    for file in files {
        if let Some(text) = no_map_told(alloc, reader, file)? {
            return Ok(Some(text));
        }
    }
    Ok(None)
}

// What is told of a file that is no map.
fn no_map_told<F: FileReader>(
    alloc: Global,
    reader: &F,
    file: &NamedFile<'_>,
) -> Result<Option<String>, AllocError>
    ensures { IfOk result (λ text. IsToldOf (IsPassedOver (F.gives reader.now))
        (IsNoMapTold (F.gives reader.now)) (file_seen file.now)
        (option_map string_bytes text)) }
{
    if !file.is_map {
        return Ok(None);
    }
    match reader.read_regular(alloc, file.number, file.path) {
        Ok(bytes) => bytes_told(alloc, reader, file, &bytes),
        Err(ReadFailure::Device) => Ok(None),
        Err(ReadFailure::Memory) => Err(AllocError),
    }
}

// What is told of a file that is to be a map and has these bytes.
fn bytes_told<F: FileReader>(
    alloc: Global,
    reader: &F,
    file: &NamedFile<'_>,
    bytes: &[u8],
) -> Result<Option<String>, AllocError>
    requires is_map { file.now.is_map ≡ true }
    requires read { F.gives reader.now file.now.number file.now.path.now (Ok bytes.now) }
    ensures { IfOk result (λ text. IsToldOf (IsPassedOver (F.gives reader.now))
        (IsNoMapTold (F.gives reader.now)) (file_seen file.now)
        (option_map string_bytes text)) }
{
    if is_json(begins_as(bytes)) {
        return Ok(None);
    }
    let is_swapped = is_swapped(alloc, reader, file.beside)?;
    no_map_text(alloc, file.path, bytes, is_swapped)
}

// Whether what stands beside a file begins as a map.
fn is_swapped<F: FileReader>(
    alloc: Global,
    reader: &F,
    beside: Option<(usize, &str)>,
) -> Result<bool, AllocError>
    ensures { IfOk result (IsSwapped (F.gives reader.now)
        (option_map (λ beside. (beside.0, beside.1.now)) beside.entry)) }
{
    let Some((number, path)) = beside else {
        return Ok(false);
    };
    match reader.read_regular(alloc, number, path) {
        Ok(bytes) => Ok(is_json(begins_as(&bytes))),
        Err(ReadFailure::Device) => Ok(false),
        Err(ReadFailure::Memory) => Err(AllocError),
    }
}

// Whether a file begins as a map does.
fn is_json(begins_as: Beginning) -> bool
    ensures { result ≡ is_json begins_as }
{
    match begins_as {
        Beginning::Json => true,
        _ => false,
    }
}

// Why the bytes of the file at a path are no map; nothing, where they are one.
fn no_map_text(
    alloc: Global,
    path: &str,
    bytes: &[u8],
    is_swapped: bool,
) -> Result<Option<String>, AllocError>
    ensures { IfOk result (λ text. TextOrMap path.now bytes.now is_swapped
        (option_map string_bytes text)) }
{
    match MapFile::read(alloc, bytes, None, USUAL_INTERVAL) {
        Ok(_) => Ok(None),
        Err(MapRefusal::Memory) => Err(AllocError),
        Err(refused) => Ok(Some(refused_text(alloc, path, bytes, is_swapped, refused)?)),
    }
}

// Why the bytes of the file at a path are no map, which is refused for this.
fn refused_text(
    alloc: Global,
    path: &str,
    bytes: &[u8],
    is_swapped: bool,
    refused: MapRefusal,
) -> Result<String, AllocError>
    requires known { IsRefusedFor (record_of bytes.now None usual_interval) refused }
    ensures { IfOk result (λ text.
        IsNoMapText path.now bytes.now is_swapped (string_bytes text)) }
{
    let (path, why) = (shown(alloc, path)?, why_text(alloc, bytes, refused)?);
    let swapped = swapped_text(is_swapped);
    format!(in alloc; "  {path}:\n{why}{swapped}")
}

// That two files may be swapped.
fn swapped_text(is_swapped: bool) -> &'static str
    ensures { result.now ≡ swapped_text is_swapped }
{
    if is_swapped {
        "  what stands beside it begins as a map: swapped?\n"
    } else {
        ""
    }
}
