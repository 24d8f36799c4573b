//! The URLs that the frames of a trace name.
ghost use Rattle.std.specs.Prelude.{◌≡◌, ◌≢◌, ◌<◌, ◌⊎◌, None, Some, length, option_map};
ghost use Rattle.smap_locations.specs.Paths.{without_query};
ghost use Rattle.smap_c.specs.Frames.{named_url, next_frame_url};
ghost use Rattle.smap_c.specs.Private.FirstLine.{IsFirstLine};

use crate::status::{DONE, REFUSED};
use crate::texts::Text;
use memchr::memchr;
use smap_locations::without_query;
use smap_trace::frame;

/// Where the URL of a frame stands in a trace, in bytes from 0.
#[repr(C)]
#[derive(Clone, Copy)]
pub struct FrameUrl {
    pub start: usize,
    pub length: usize,
    /// Where the line after the frame begins, or the trace ends.
    pub next: usize,
}

/// Finds the URL of the next frame of a trace, from a byte on at which a line begins: 0, or `next` of the frame before.
/// `found` is written where there is one. The call takes no memory, and reads the lines up to the frame's.
#[unsafe(no_mangle)]
pub extern "C" fn smap_next_frame_url(trace: &[u8], from: usize, found: &mut FrameUrl) -> u32
    ensures found { result ≡ 0 →
        next_frame_url trace.now from ≡ Some (named_url trace.now found.new) }
    ensures none { result ≡ 1 → next_frame_url trace.now from ≡ None }
    ensures stays { result ≢ 0 → found.new ≡ found.old }
    ensures status { (result ≡ 0) ⊎ (result ≡ 1) }
{
    match next_frame_url(trace, from) {
        Some(url) => {
            *found = url;
            DONE
        }
        None => REFUSED,
    }
}

fn next_frame_url(trace: &[u8], from: usize) -> Option<FrameUrl>
    ensures { option_map (named_url trace.now) result ≡ next_frame_url trace.now from }
{
    let mut at = from;
    while at < trace.len() {
        let (line, bytes) = first_line(&trace[at..]);
        if let Some(frame) = frame(line) {
            return Some(FrameUrl {
                start: at + frame.head.len(),
                length: frame.url.len(),
                next: at + bytes,
            });
        }
        at += bytes;
    }
    None
}

// The first line of a text, without its LF, and how many bytes it has with it.
fn first_line(text: &[u8]) -> (&[u8], usize)
    requires { 0 < length text.now }
    ensures { IsFirstLine text.now result.0.now result.1 }
{
    match memchr(b'\n', text) {
        Some(end) => (&text[..end], end + 1),
        None => (text, text.len()),
    }
}

/// Lends a URL without its query and its fragment: what stands before its first `?` or `#`. Under that the program looks for
/// the map of a URL for which no file is named.
#[unsafe(no_mangle)]
pub extern "C" fn smap_cut_url<'a>(url: &'a [u8], cut: &mut Text<'a>) -> u32
    ensures cut { cut.new.text.now ≡ without_query url.now }
    ensures status { result ≡ 0 }
{
    cut.text = without_query(url);
    DONE
}
