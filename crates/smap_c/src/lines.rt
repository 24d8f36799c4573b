//! The lines around a line of a source.
ghost use Rattle.std.specs.Prelude.{◌≡◌, ◌<◌, ◌≤◌, ◌+◌, ◌-◌, ℕ, IfSome, IsSome, IsSomeAnd, MatchOption, drop, length, min, nat_lt, option_map, slice_get};
ghost use Rattle.std.specs.Str.{chars};
ghost use Rattle.smap_text.specs.Lines.{lines_of};
ghost use Rattle.smap_text.specs.Rest.{IsEndFrom};
ghost use Rattle.smap_text.specs.ShownLine.{IsFrontOf};
ghost use Rattle.smap_c.specs.Lines.{AreLines, IsLineAt, around, content_of};
ghost use Rattle.smap_c.specs.Texts.{flag};

use crate::handles::{Holder, MapHandle};
use crate::status::{DONE, REFUSED};
use smap_record::MapFile;
use smap_text::{rest_from, shown_bytes, split_line};

/// Where a line stands in the content of its source, in bytes from 0, without its end.
#[repr(C)]
#[derive(Clone, Copy)]
pub struct LineBytes {
    pub start: usize,
    /// How many bytes it has or, where these are more than 65,536, how many of that many are of whole characters.
    pub length: usize,
    /// 1 where it has more bytes, and else 0.
    pub cut: u32,
}

/// Some lines of a source, one after another.
#[repr(C)]
#[derive(Clone, Copy)]
pub struct LineRange {
    /// The number of the first, from 0.
    pub first: u32,
    pub count: usize,
}

/// Says where lines stand in the content of source `source`, from 0: line `line`, from 0, with up to `before` lines before
/// it and up to `after` behind it (ECMAScript, line terminator sequences). `lines` has a place for each, of which the first
/// are written. Where there is no such source, or its content has no such line, nothing is.
#[unsafe(no_mangle)]
pub extern "C" fn smap_source_lines(
    map: &mut MapHandle,
    source: u32,
    line: u32,
    before: u32,
    after: u32,
    lines: &mut [LineBytes],
    range: &mut LineRange,
) -> u32
    requires held { IsSome map.old.held }
    requires places { length lines.old ≡ before + 1 + after }
    ensures lines { IfSome map.old.held (λ held.
        MatchOption (around held.stated source line before after)
        ((result ≡ 1) × (lines.new ≡ lines.old) × (range.new ≡ range.old))
        (λ found. (result ≡ 0) × (range.new ≡ found.range)
        × AreLines found.content found.range lines.old lines.new)) }
    ensures stays { map.new.held ≡ map.old.held }
{
    lines_around(map.lend().map(), source, line, before, after, lines, range)
}

fn lines_around(
    file: &MapFile,
    source: u32,
    line: u32,
    before: u32,
    after: u32,
    lines: &mut [LineBytes],
    range: &mut LineRange,
) -> u32
    requires places { length lines.old ≡ before + 1 + after }
    ensures lines { MatchOption (around file.now.stated source line before after)
        ((result ≡ 1) × (lines.new ≡ lines.old) × (range.new ≡ range.old))
        (λ found. (result ≡ 0) × (range.new ≡ found.range)
        × AreLines found.content found.range lines.old lines.new) }
{
    let Some(content) = content_of(file, source) else {
        return REFUSED;
    };
    let first = line.saturating_sub(before);
    let Some(rest) = rest_from(content, first) else {
        return REFUSED;
    };
    if rest_from(rest, line - first).is_none() {
        return REFUSED;
    }
    let most = (line - first) as usize + 1 + after as usize;
    let count = put_lines(content, rest, most, lines);
    *range = LineRange { first, count };
    DONE
}

// The content of a source, where the map has it.
fn content_of(file: &MapFile, source: u32) -> Option<&str>
    ensures { option_map (λ content. content.now) result ≡ content_of file.now.stated source }
{
    match &file.source(source)?.content {
        Some(content) => Some(content.as_str()),
        None => None,
    }
}

// Puts where the lines of the end of a content stand in it, as many as there are, and at most `most`; and says how many.
fn put_lines(content: &str, rest: &str, most: usize, lines: &mut [LineBytes]) -> usize
    requires end { drop (length content.now - length rest.now) content.now ≡ rest.now }
    requires places { most ≤ length lines.old }
    ensures count { result ≡ min most (length (lines_of (chars rest.now))) }
    ensures each { (first k : ℕ) → IsEndFrom content.now first rest.now → k < result →
        IsSomeAnd (slice_get lines.new k) (IsLineAt content.now (first + k)) }
    ensures others { drop result lines.new ≡ drop result lines.old }
{
    let mut rest = rest;
    for number in 0..most {
        let (line, behind) = split_line(rest);
        lines[number] = line_bytes(content.len() - rest.len(), line);
        match behind {
            Some(next) => rest = next,
            None => return number + 1,
        }
    }
    most
}

// A line that begins at this byte of a content.
fn line_bytes(start: usize, line: &str) -> LineBytes
    ensures start { result.start ≡ start }
    ensures front { IsFrontOf line.now result.length }
    ensures cut { result.cut ≡ flag (nat_lt result.length (length line.now)) }
{
    let length = shown_bytes(line);
    LineBytes {
        start,
        length,
        cut: u32::from(length < line.len()),
    }
}
