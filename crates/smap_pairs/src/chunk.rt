//! How a text is cut whose places are found: into lines, and long lines into chunks.
ghost use Rattle.std.specs.Prelude.{◌≡◌, ◌≢◌, ◌<◌, ◌≤◌, ◌+◌, ◌++◌, ◌==◌, ◌&&◌, ◌||◌, ℕ, List, IfSome, MatchOption, [], drop, false, if◌then◌else◌, length, map, not, reverse, slice_index, take, true};
ghost use Rattle.std.specs.List.{prefix_len};
ghost use Rattle.smap_lines.specs.Limits.{most_line_bytes};
ghost use Rattle.smap_lines.specs.Lines.{has_line_end};
ghost use Rattle.smap_pairs.specs.Chunks.{begins_anew, chunk_end, chunk_of_long, cuts_from, escape_size, first_chunk, goes_on_in_numbers, is_line_end, last_blank};
ghost use Rattle.smap_pairs.specs.Chunks.{last_line_end, last_quote, line_bytes, quote_begin, staying_bytes, stays_broken};
ghost use Rattle.smap_pairs.specs.Chunks.Cut.{stays};
ghost use Rattle.smap_pairs.specs.Private.EscapeWithin.{IsWithin};

use crate::escapes::{Escape, escape_of};
use crate::token::bytes_of;
use memchr::{memchr, memchr2, memchr3, memrchr};
use smap_lines::MOST_LINE_BYTES;

/// The first bytes of a text, whose places are found by themselves: how many there are, and whether a URL may go on behind
/// them, so that what stands there stays up to the next `"` or blank, or the line's end.
#[derive(Clone, Copy)]
pub struct Chunk {
    pub bytes: usize,
    pub is_broken: bool,
}

/// The first chunk of a text: its first line, or the beginning of that. `None` where the text is empty, or where it hangs on
/// what is still to come, unless nothing is: of a line without an LF, of at most 65,536 bytes.
pub fn first_chunk(text: &[u8], is_last: bool) -> Option<Chunk>
    ensures chunk { IfSome result (λ chunk. chunk ≡ first_chunk text.now) }
    ensures within { IfSome result (λ chunk.
        (0 < chunk.bytes) × (chunk.bytes ≤ length text.now)) }
    ensures decided { is_last ≡ false → IfSome result (λ chunk. (later : List ℕ) →
        first_chunk (text.now ++ later) ≡ chunk) }
    ensures open { is_last ≡ false → MatchOption result
        ((length text.now ≤ most_line_bytes) × (has_line_end text.now ≡ false)) (λ _. Unit {0}) }
    ensures last { is_last ≡ true → MatchOption result (text.now ≡ []) (λ _. Unit {0}) }
{
    let front = &text[..text.len().min(MOST_LINE_BYTES + 1)];
    let line = line_bytes(front);
    if line < front.len() {
        return Some(Chunk {
            bytes: line + 1,
            is_broken: false,
        });
    }
    if text.len() > MOST_LINE_BYTES {
        return Some(chunk_of_long(text.split_at(MOST_LINE_BYTES).0));
    }
    if is_last && !text.is_empty() {
        return Some(Chunk {
            bytes: text.len(),
            is_broken: false,
        });
    }
    None
}

// How many bytes the first line of a text has, without its LF.
fn line_bytes(text: &[u8]) -> usize
    ensures line { result ≡ line_bytes text.now }
    ensures within { result ≤ length text.now }
{
    memchr(b'\n', text).unwrap_or(text.len())
}

// The first bytes of a long line that are a chunk, or else broken off.
fn chunk_of_long(front: &[u8]) -> Chunk
    ensures { result ≡ chunk_of_long front.now }
{
    let end = chunk_end(front);
    if end > 0 {
        return Chunk {
            bytes: end,
            is_broken: false,
        };
    }
    let numbers = numbers_at_end(front);
    Chunk {
        bytes: (front.len() - numbers).max(1),
        is_broken: true,
    }
}

// Where the first bytes of a long line end that are a chunk: before a `"`, an escape of a line's end, or a blank; 0 where
// they have none. Where a chunk is short for that, the same bytes have no second end of its kind, but for one that runs on
// behind them. So each byte is looked at six times at most in each of the three ways.
fn chunk_end(front: &[u8]) -> usize
    ensures { result ≡ chunk_end front.now }
{
    let quote = quote_begin(front);
    if quote > 0 {
        return quote;
    }
    let line_end = last_line_end(front);
    if line_end > 0 {
        return line_end;
    }
    last_blank(front)
}

// Where the last escape of a line's end begins, 0 where there is none.
fn last_line_end(text: &[u8]) -> usize
    ensures { result ≡ last_line_end text.now }
{
    let mut last = 0;
    let mut rest = text;
    while let Some(at) = memchr2(b'\\', b'#', rest) {
        let found = rest.split_at(at).1;
        let escape = escape_of(found);
        last = line_end_of(escape, text.len() - found.len(), last);
        rest = found.split_at(escape_size(found, escape)).1;
    }
    last
}

// Where the last escape of a line's end begins: where this one does, if it is one, or else where the one before did.
fn line_end_of(escape: Option<Escape>, here: usize, before: usize) -> usize
    ensures { result ≡ (if is_line_end escape then here else before) }
{
    match escape {
        Some(escape) if escape.means == 10 || escape.means == 13 => here,
        _ => before,
    }
}

// How many bytes a text begins with that are an escape, a run of backslashes that is none, or another byte.
fn escape_size(text: &[u8], escape: Option<Escape>) -> usize
    requires some { 0 < length text.now }
    requires escape { IfSome escape (IsWithin text.now) }
    ensures size { result ≡ escape_size text.now escape }
    ensures some { 0 < result }
    ensures within { result ≤ length text.now }
{
    match escape {
        Some(escape) => escape.size,
        None => bytes_of(text),
    }
}

// Where the last `"` of a text stands, 0 where there is none.
fn last_quote(text: &[u8]) -> usize
    ensures quote { result ≡ last_quote text.now }
    ensures within { result ≤ length text.now }
{
    memrchr(b'"', text).unwrap_or(0)
}

// Where the last blank of a text stands, 0 where there is none.
fn last_blank(text: &[u8]) -> usize
    ensures blank { result ≡ last_blank text.now }
    ensures within { result ≤ length text.now }
{
    memrchr(b' ', text).unwrap_or(0)
}

// Where the last `"` begins with the backslashes right before it.
fn quote_begin(text: &[u8]) -> usize
    ensures quote { result ≡ quote_begin text.now }
    ensures within { result ≤ length text.now }
{
    let before = &text[..last_quote(text)];
    before.len() - backslashes_at_end(before)
}

// With how many backslashes a text ends.
fn backslashes_at_end(text: &[u8]) -> usize
    ensures count { result ≡ prefix_len (λ byte. byte == 92) (reverse text.now) }
    ensures within { result ≤ length text.now }
{
    text.iter().rev().take_while(|byte| **byte == b'\\').count()
}

// With how many bytes of numbers.
fn numbers_at_end(text: &[u8]) -> usize
    ensures count { result ≡ prefix_len goes_on_in_numbers (reverse text.now) }
    ensures within { result ≤ length text.now }
{
    text.iter()
        .rev()
        .take_while(|byte| goes_on_in_numbers(**byte))
        .count()
}

fn goes_on_in_numbers(byte: u8) -> bool
    ensures { result ≡ goes_on_in_numbers byte }
{
    byte.is_ascii_digit() || byte == b':' || byte == b'-'
}

/// How many of the first bytes of a text stay behind a chunk that is broken off: those before the next `"` or blank, or up
/// to the end of the line. All, where none of these stands in it.
pub fn staying_bytes(text: &[u8]) -> usize
    ensures bytes { result ≡ staying_bytes text.now }
    ensures within { result ≤ length text.now }
    ensures some { 0 < length text.now → begins_anew (slice_index text.now 0) ≡ false →
        0 < result }
    ensures cuts { (later : List ℕ) →
        let behind = drop result text.now ++ later in
        cuts_from 0 true (text.now ++ later) ≡
        map stays (take result text.now) ++ cuts_from 0 (stays_broken text.now result) behind }
    ensures behind { 0 < length (drop result text.now) →
        (stays_broken text.now result && not (begins_anew (slice_index text.now result))) ≡ false }
{
    behind_line_end(text, bytes_before_end(text))
}

// How many bytes of a text stand before its first `"`, blank or LF.
fn bytes_before_end(text: &[u8]) -> usize
    ensures bytes { result ≡ prefix_len
        (λ byte. not (byte == 34 || byte == 32 || byte == 10)) text.now }
    ensures within { result ≤ length text.now }
{
    memchr3(b'"', b' ', b'\n', text).unwrap_or(text.len())
}

// Behind the byte at this place, where it is an LF, or else before it.
fn behind_line_end(text: &[u8], at: usize) -> usize
    ensures { result ≡ (if (slice_index text.now at == 10) then at + 1 else at) }
{
    match text.get(at) {
        Some(b'\n') => at + 1,
        _ => at,
    }
}
