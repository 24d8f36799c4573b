//! The excerpt that shows a place: a part of its line, and a caret under it.
ghost use Rattle.std.specs.Prelude.{◌≡◌, ◌++◌, length, map, drop, take, replicate, option_map, string_bytes, IfOk, OnOk};
ghost use Rattle.std.specs.Str.{IsCharBoundary, chars, encode_utf8_all};
ghost use Rattle.smap_text.specs.Excerpt.{excerpt_of, excerpt_text, line_excerpt, shown_character};

use crate::lines::line_at;
use crate::place::{Place, unit_place};
use crate::texts::shown_char;
use std::alloc::{AllocError, Global};
use std::iter::repeat_n;

// How many characters of a line show at most, and how many of them before the place.
const MOST_CHARACTERS: usize = 120;

const MOST_BEFORE: usize = 60;

// The bytes of the longest excerpt: characters of four bytes, an LF, spaces, and the caret.
const MOST_EXCERPT_BYTES: usize = 542;

/// An excerpt of the line of this number that shows the place of this column, both from 0, the column in UTF-16 code
/// units: at most 120 characters of the line, an LF, and a caret under the character. `None` where the content has no such
/// line, or the line no such column.
pub fn excerpt(
    alloc: Global,
    content: &str,
    line: u32,
    column: u32,
) -> Result<Option<String>, AllocError>
    ensures { IfOk result (λ shown.
        option_map string_bytes shown ≡ excerpt_of content.now line column) }
{
    match line_at(content, line) {
        Some(text) => line_excerpt(alloc, text, column),
        None => Ok(None),
    }
}

fn line_excerpt(alloc: Global, line: &str, column: u32) -> Result<Option<String>, AllocError>
    ensures { IfOk result (λ shown.
        option_map string_bytes shown ≡ line_excerpt (chars line.now) column) }
{
    match unit_place(line, column) {
        Place::At(byte) | Place::Inside(byte) => Ok(Some(excerpt_text(alloc, line, byte)?)),
        Place::Past(_) => Ok(None),
    }
}

// The excerpt of a line for the character at a byte.
fn excerpt_text(alloc: Global, line: &str, byte: usize) -> Result<String, AllocError>
    requires { IsCharBoundary line.now byte }
    ensures { IfOk result (λ shown. string_bytes shown
        ≡ encode_utf8_all (excerpt_text (chars line.now) (length (chars (take byte line.now))))) }
{
    let number = characters(&line[..byte]);
    let first = number.saturating_sub(MOST_BEFORE);
    let mut shown = String::with_capacity(alloc, MOST_EXCERPT_BYTES)?;
    push_line(&mut shown, line, first)?;
    shown.push('\n')?;
    push_spaces(&mut shown, number - first)?;
    shown.push('^')?;
    Ok(shown)
}

// How many characters a text has.
fn characters(text: &str) -> usize
    ensures { result ≡ length (chars text.now) }
{
    text.chars().count()
}

// Adds the characters of a line, as they show, from the one of this number on.
fn push_line(shown: &mut String, line: &str, first: usize) -> Result<(), AllocError>
    ensures { OnOk result (string_bytes shown.new ≡ string_bytes shown.old
        ++ encode_utf8_all (map shown_character (take 120 (drop first (chars line.now))))) }
{
    shown.extend(
        line.chars()
            .skip(first)
            .take(MOST_CHARACTERS)
            .map(shown_character),
    )
}

fn push_spaces(shown: &mut String, count: usize) -> Result<(), AllocError>
    ensures { OnOk result (string_bytes shown.new ≡ string_bytes shown.old
        ++ encode_utf8_all (replicate count 0x20)) }
{
    shown.extend(repeat_n(' ', count))
}

fn shown_character(char: char) -> char
    ensures { result ≡ shown_character char }
{
    if char == '\t' { ' ' } else { shown_char(char) }
}
