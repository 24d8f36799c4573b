//! Where the URL of a frame stands.
ghost use Rattle.std.specs.Prelude.{◌≡◌, ◌≤◌, IfSome, length};
ghost use Rattle.smap_anywhere.specs.FrameUrl.{begins_with_blank, frame_url, tail_bytes, url_before_tail, whole_frame_url};

use crate::map_urls::has_quotation_mark;
use smap_trace::frame;

/// From which byte to which the URL stands of the frame that a line is; or that a line is but for ` {` or `,` at its end,
/// which node prints there: this begins with a blank, and its URL has no quotation mark.
pub fn frame_url(line: &[u8]) -> Option<(usize, usize)>
    ensures url { result ≡ frame_url line.now }
    ensures within { IfSome result (λ url. (url.0 ≤ url.1) × (url.1 ≤ length line.now)) }
{
    match whole_frame_url(line) {
        Some(url) => Some(url),
        None => url_before_tail(line),
    }
}

// That of the frame that a line is as a whole.
fn whole_frame_url(line: &[u8]) -> Option<(usize, usize)>
    ensures url { result ≡ whole_frame_url line.now }
    ensures within { IfSome result (λ url. (url.0 ≤ url.1) × (url.1 ≤ length line.now)) }
{
    let frame = frame(line)?;
    let start = frame.head.len();
    Some((start, start + frame.url.len()))
}

// That of the frame before what node prints behind it.
fn url_before_tail(line: &[u8]) -> Option<(usize, usize)>
    ensures url { result ≡ url_before_tail line.now }
    ensures within { IfSome result (λ url. (url.0 ≤ url.1) × (url.1 ≤ length line.now)) }
{
    let tail = tail_bytes(line);
    if tail == 0 || !begins_with_blank(line) {
        return None;
    }
    let (start, end) = whole_frame_url(&line[..line.len().saturating_sub(tail)])?;
    if has_quotation_mark(&line[start..end]) {
        return None;
    }
    Some((start, end))
}

// How many bytes node printed behind a frame at the end of a line.
fn tail_bytes(line: &[u8]) -> usize
    ensures { result ≡ tail_bytes line.now }
{
    if line.ends_with(b" {") {
        2
    } else if line.ends_with(b",") {
        1
    } else if line.ends_with(b" {\r") {
        3
    } else if line.ends_with(b",\r") {
        2
    } else {
        0
    }
}

fn begins_with_blank(line: &[u8]) -> bool
    ensures { result ≡ begins_with_blank line.now }
{
    match line.first() {
        Some(byte) => *byte == b' ' || *byte == b'\t',
        None => false,
    }
}
