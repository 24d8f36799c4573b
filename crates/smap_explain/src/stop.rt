//! Where the reader of a JSON text stops.
ghost use Rattle.std.specs.Prelude.{◌≡◌, ◌≤◌, ◌↔◌, IsTrue, IfOk, length};
ghost use Rattle.serde_json.specs.Errors.{category};
ghost use Rattle.serde_json.specs.declared.error.Category.TheVariants.{Eof};
ghost use Rattle.smap_record.specs.FileText.{json_text};
ghost use Rattle.smap_explain.specs.Private.Stop.{after_line_end, place_told, start_of_line};
ghost use Rattle.smap_explain.specs.Stop.{IsColumnAfter, IsStopAt, line_after};

use crate::explanation::JsonStop;
use memchr::{memchr_iter, memrchr};
use serde_json::Error;
use smap_record::json_text;
use std::alloc::{AllocError, Global};

/// How many bytes of the text are shown before the stop at most, and how many from it on.
const AROUND: usize = 20;

/// What the reader of a JSON text tells of where it stopped.
#[derive(Clone, Copy)]
pub struct Told {
    /// The line of the text, from 1, which is told of each text that is refused, and the byte of it, from 1. The end has the
    /// column of the last byte, and 0 after a LF.
    pub line: usize,
    pub column: usize,
    /// Whether the text ended where more had to follow.
    pub is_cut: bool,
}

/// What the reader tells with this error.
pub fn told_by(error: &Error) -> Told
    ensures { IsTrue result.is_cut ↔ (category error.now ≡ Eof) }
{
    Told {
        line: error.line(),
        column: error.column(),
        is_cut: error.is_eof(),
    }
}

/// The place of the file of these bytes at which reading stopped, as the reader tells it, with the text about it.
pub fn stop_of(alloc: Global, bytes: &[u8], told: Told) -> Result<JsonStop, AllocError>
    ensures place { IfOk result (IsStopAt bytes.now (place_told (json_text bytes.now) told)) }
    ensures cut { IfOk result (λ stop. stop.is_cut ≡ told.is_cut) }
{
    let text = json_text(bytes);
    let at = place_told(text, told);
    let byte = bytes.len().saturating_sub(text.len() - at);
    let front = &bytes[..byte];
    Ok(JsonStop {
        line: line_after(front),
        column: column_after(front),
        byte: byte as u64,
        is_cut: told.is_cut,
        before: String::from_utf8_lossy(alloc, &text[at.saturating_sub(AROUND)..at])?,
        after: String::from_utf8_lossy(
            alloc,
            &text[at..at.saturating_add(AROUND).min(text.len())],
        )?,
    })
}

// The byte of the text, from 0, that the reader tells. The last byte and the end have the same column: it is the end where
// the text was cut.
fn place_told(text: &[u8], told: Told) -> usize
    ensures told { result ≡ place_told text.now told }
    ensures inside { result ≤ length text.now }
{
    let start = start_of_line(text, told.line);
    if told.is_cut && start.saturating_add(told.column) >= text.len() {
        return text.len();
    }
    start
        .saturating_add(told.column.saturating_sub(1))
        .min(text.len())
}

// The byte at which a line begins, from 1.
fn start_of_line(text: &[u8], line: usize) -> usize
    ensures { result ≡ start_of_line text.now line }
{
    if line < 2 {
        0
    } else {
        after_line_end(text, line - 2)
    }
}

// The byte after the LF with this number, from 0; the end of the text, where there are fewer.
fn after_line_end(text: &[u8], number: usize) -> usize
    ensures { result ≡ after_line_end text.now number }
{
    match memchr_iter(b'\n', text).nth(number) {
        Some(at) => at + 1,
        None => text.len(),
    }
}

// The line after these bytes.
fn line_after(front: &[u8]) -> u64
    ensures { result ≡ line_after front.now }
{
    memchr_iter(b'\n', front).count() as u64 + 1
}

// The column after them.
fn column_after(front: &[u8]) -> u64
    ensures { IsColumnAfter front.now result }
{
    match memrchr(b'\n', front) {
        Some(last) => (front.len() - last) as u64,
        None => front.len() as u64 + 1,
    }
}
