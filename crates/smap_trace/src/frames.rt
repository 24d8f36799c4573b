//! The frames of a stack trace.
ghost use Rattle.std.specs.Prelude.{◌≡◌, ◌≤◌, ◌↔◌, ◌==◌, Some, false, length, take, drop, slice_range, option_map};
ghost use Rattle.std.specs.List.{list_any, prefix_len};
ghost use Rattle.smap_lines.specs.Bytes.{is_blank};
ghost use Rattle.smap_lines.specs.Limits.{most_line_bytes};
ghost use Rattle.smap_lines.specs.Lines.{has_line_end};
ghost use Rattle.smap_trace.specs.Cuts.{cut_at_call, without_last};
ghost use Rattle.smap_trace.specs.Frame.{FrameParts, IsFrame, has_cr_within, is_one_line};
ghost use Rattle.smap_trace.specs.FrameOf.{call_frame, frame_after, frame_in, frame_of, parts_with, location_of};
ghost use Rattle.smap_trace.specs.FrameOf.{ends_in_digit, plain_frame, sign_frame, unless_async};
ghost use Rattle.smap_trace.specs.FrameSeen.{parts_seen};
ghost use Rattle.smap_trace.specs.Private.LocationSeen.{location_seen};

use crate::cuts::{cut_at_call, cut_at_first_byte, without_last};
use crate::end_number::cut_at_number;
use crate::parts::Frame;
use memchr::memchr;
use smap_lines::{MOST_LINE_BYTES, blanks};

/// The parts of a line, without its LF, that is a frame. The call takes no memory, and goes over the line a fixed number
/// of times.
pub fn frame(line: &[u8]) -> Option<Frame<'_>>
    ensures parts { option_map parts_seen result ≡ frame_of line.now }
    ensures frame { (parts : FrameParts) →
        (frame_of line.now ≡ Some parts) ↔ IsFrame line.now parts }
{
    if is_one_line(line) {
        frame_of_line(line)
    } else {
        None
    }
}

/// The same, of a text that is one line.
pub(crate) fn frame_of_line(line: &[u8]) -> Option<Frame<'_>>
    requires one { has_line_end line.now ≡ false }
    requires short { length line.now ≤ most_line_bytes }
    ensures { option_map parts_seen result ≡ frame_of line.now }
{
    // Most lines are no frames, whether or not a CR stands within them.
    let frame = frame_to_end(line)?;
    if has_cr_within(line) {
        None
    } else {
        Some(frame)
    }
}

// The frame of a line that has no CR before its last byte.
fn frame_to_end(line: &[u8]) -> Option<Frame<'_>>
    ensures { option_map parts_seen result ≡ frame_in line.now (without_last 13 line.now) }
{
    match without_last(b'\r', line) {
        Some(body) => frame_before(line, body.len()),
        None => frame_before(line, line.len()),
    }
}

// Whether a text is one line that is not too long.
fn is_one_line(text: &[u8]) -> bool
    ensures { result ≡ is_one_line text.now }
{
    text.len() <= MOST_LINE_BYTES && !text.contains(&b'\n')
}

// Whether a CR stands in a line before its last byte.
fn has_cr_within(line: &[u8]) -> bool
    ensures { result ≡ has_cr_within line.now }
{
    has_byte(b'\r', &line[..line.len().saturating_sub(1)])
}

// Whether a byte stands in a text.
fn has_byte(byte: u8, text: &[u8]) -> bool
    ensures { result ≡ list_any (λ other. other == byte) text.now }
{
    match memchr(byte, text) {
        Some(_) => true,
        None => false,
    }
}

// The frame of a line whose CR, where it has one, stands at `end`.
fn frame_before(line: &[u8], end: usize) -> Option<Frame<'_>>
    requires { end ≤ length line.now }
    ensures { option_map parts_seen result
        ≡ frame_after (prefix_len is_blank (take end line.now)) (take end line.now)
        (drop end line.now) }
{
    let body = &line[..end];
    let blanks = blanks(body);
    if !body[blanks..].starts_with(b"at ") {
        return sign_frame(line, end);
    }
    let start = blanks + b"at ".len();
    if without_last(b')', &body[start..]).is_some() {
        call_frame(line, start, end - 1)
    } else {
        plain_frame(line, start, end)
    }
}

// The frame of the first form whose function and location stand from `start` to `end`.
fn call_frame(line: &[u8], start: usize, end: usize) -> Option<Frame<'_>>
    requires { (start ≤ end) × (end ≤ length line.now) }
    ensures { option_map parts_seen result
        ≡ call_frame (take start line.now) (cut_at_call (slice_range line.now start end))
        (drop end line.now) }
{
    let (function, _) = cut_at_call(&line[start..end])?;
    if function.is_empty() {
        return None;
    }
    frame_at(line, start + function.len() + b" (".len(), end)
}

// The frame of the second form that stands from `start` to `end`.
fn plain_frame(line: &[u8], start: usize, end: usize) -> Option<Frame<'_>>
    requires { (start ≤ end) × (end ≤ length line.now) }
    ensures { option_map parts_seen result
        ≡ plain_frame (take start line.now) (slice_range line.now start end) (drop end line.now) }
{
    if line[start..end].starts_with(b"async ") {
        unless_async(frame_at(line, start + b"async ".len(), end))
    } else {
        unless_async(frame_at(line, start, end))
    }
}

// The frame of the third form that stands before `end`.
fn sign_frame(line: &[u8], end: usize) -> Option<Frame<'_>>
    requires { end ≤ length line.now }
    ensures { option_map parts_seen result ≡ sign_frame (take end line.now) (drop end line.now) }
{
    let body = &line[..end];
    if !ends_in_digit(body) {
        return None;
    }
    let (function, _) = cut_at_first_byte(b'@', body)?;
    frame_at(line, function.len() + b"@".len(), end)
}

// Whether the last byte of a text is a digit.
fn ends_in_digit(text: &[u8]) -> bool
    ensures { result ≡ ends_in_digit text.now }
{
    match text.split_last() {
        Some((last, _)) => last.is_ascii_digit(),
        None => false,
    }
}

// The frame, unless its URL begins with `async `.
fn unless_async(frame: Option<Frame<'_>>) -> Option<Frame<'_>>
    ensures { option_map parts_seen result ≡ unless_async (option_map parts_seen frame.entry) }
{
    let frame = frame?;
    if frame.url.starts_with(b"async ") {
        None
    } else {
        Some(frame)
    }
}

// The frame whose location stands from `start` to `end`.
fn frame_at(line: &[u8], start: usize, end: usize) -> Option<Frame<'_>>
    requires { (start ≤ end) × (end ≤ length line.now) }
    ensures { option_map parts_seen result
        ≡ parts_with (take start line.now) (location_of (slice_range line.now start end))
        (drop end line.now) }
{
    let (url, printed_line, column) = location_of(&line[start..end])?;
    Some(Frame {
        head: &line[..start],
        url,
        line: printed_line,
        column,
        tail: &line[end..],
    })
}

// The URL, the line and the column of a text that is these three, with a `:` between each two.
fn location_of(text: &[u8]) -> Option<(&[u8], u32, u32)>
    ensures { option_map location_seen result ≡ location_of text.now }
{
    let (front, column) = cut_at_number(text)?;
    let (url, line) = cut_at_number(front)?;
    if url.is_empty() {
        return None;
    }
    Some((url, line, column))
}
