//! The lines that several commands print, each with its LF.
ghost use Rattle.std.specs.Prelude.{◌≡◌, string_bytes, IfOk};
ghost use Rattle.smap_replies.specs.Lines.{argument_refused_line, code_refused_line, file_failed_line, list_refused_line, map_refused_line};
ghost use Rattle.smap_replies.specs.Arguments.{argument_text};
ghost use Rattle.smap_text.specs.Shown.{shown};

use smap_codes::Code;
use smap_text::shown;
use std::alloc::{AllocError, Global};

/// Standard error: an argument of the command line is not UTF-8.
pub const ARGUMENT_NOT_UTF8: &str = "error: a word of the command line is not UTF-8\n";

/// Standard error: the text could not be read. This line and the next two are made of the codes X1 to X3, and stand here
/// whole since they are printed without taking memory.
pub const TEXT_UNREAD: &str = "device: X1 Read\n";

/// Standard error: the text could not be written.
pub const TEXT_UNWRITTEN: &str = "device: X2 Write\n";

/// Standard error: the text is longer than one may be.
pub const TEXT_TOO_LONG: &str = "refused: X3 TooMuch\n";

/// Standard error: standard input failed.
pub const INPUT_FAILED: &str = "device: read standard input\n";

/// Standard error: standard output failed.
pub const OUTPUT_FAILED: &str = "device: write\n";

/// Standard error: memory ran out.
pub const NO_MEMORY: &str = "memory\n";

/// Standard error: why the map of a file is refused, in the words for the refusal.
pub fn map_refused_line(alloc: Global, path: &str, refusal: &str) -> Result<String, AllocError>
    ensures { IfOk result (λ text. string_bytes text ≡ map_refused_line path.now refusal.now) }
{
    let path = shown(alloc, path)?;
    format!(in alloc; "refused: {path}: {refusal}\n")
}

/// Standard error: a file can't be read.
pub fn file_failed_line(alloc: Global, path: &str) -> Result<String, AllocError>
    ensures { IfOk result (λ text. string_bytes text ≡ file_failed_line path.now) }
{
    let path = shown(alloc, path)?;
    format!(in alloc; "device: read {path}\n")
}

/// Standard error: the input is refused, and its code says why.
pub fn code_refused_line(alloc: Global, code: Code) -> Result<String, AllocError>
    ensures { IfOk result (λ text. string_bytes text ≡ code_refused_line code) }
{
    let code = code.text();
    format!(in alloc; "refused: {code}\n")
}

/// Standard error: an argument that is a pair, such as a URL and a path, and is refused, with the reason.
pub fn argument_refused_line(
    alloc: Global,
    reason: &str,
    url: &str,
    path: &str,
) -> Result<String, AllocError>
    ensures { IfOk result (λ text. string_bytes text
        ≡ argument_refused_line (argument_text url.now path.now) reason.now) }
{
    let word = shown_argument(alloc, url, path)?;
    format!(in alloc; "usage: {reason}: {word}\n")
}

/// Standard error: the list at a path, of which the line with this number, from 1, is refused, with the reason.
pub fn list_refused_line(
    alloc: Global,
    path: &str,
    number: u64,
    reason: &str,
) -> Result<String, AllocError>
    ensures { IfOk result (λ text. string_bytes text
        ≡ list_refused_line path.now number reason.now) }
{
    let path = shown(alloc, path)?;
    format!(in alloc; "usage: {path} line {number}: {reason}\n")
}

// An argument that is a pair, for one line.
fn shown_argument(alloc: Global, url: &str, path: &str) -> Result<String, AllocError>
    ensures { IfOk result (λ text. string_bytes text
        ≡ shown (argument_text url.now path.now)) }
{
    let (url, path) = (shown(alloc, url)?, shown(alloc, path)?);
    format!(in alloc; "{url}={path}")
}
