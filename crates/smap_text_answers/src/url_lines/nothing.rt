//! What is said at the end of a text that named no URL.
ghost use Rattle.std.specs.Prelude.{◌≡◌, map, option_map, string_bytes, IfOk};
ghost use Rattle.smap_replies.specs.Arguments.{argument_of};
ghost use Rattle.smap_text_answers.specs.NothingLine.{are_mentioned, cause_or, mentioned_cause, mentioned_text};
ghost use Rattle.smap_text_answers.specs.NothingLine.{no_frame_line, nothing_line, often_text, packed_cause, packed_in, times_text};

use super::shown_url;
use smap_explain::{Beginning, begins_as};
use smap_trace::RewriteCounts;
use std::alloc::{AllocError, Global};

const USUAL: &str =
    "--anywhere finds places in other text; UTF-16 and what is compressed are to be converted first, and a line and a column that stand apart are for smap locate";

const NO_PLACE: &str =
    "no place was found: a place is a URL of an argument before :LINE:COLUMN; UTF-16 and what is compressed are to be converted first, and a line and a column that stand apart are for smap locate\n";

const EMPTY: &str = "the text is empty\n";

const URLS: &str = "the URLs of the arguments stand here ";

/// That the text is empty; or that no line is a frame, and why; or that there is no place.
pub fn nothing_line(
    alloc: Global,
    anywhere: bool,
    arguments: &[(String, String)],
    counts: &RewriteCounts,
) -> Result<Vec<u8>, AllocError>
    ensures { IfOk result (λ line.
        line.items ≡ nothing_line anywhere (map argument_of arguments.now) counts.now) }
{
    if counts.summary.lines == 0 {
        return Vec::from_slice(alloc, EMPTY.as_bytes());
    }
    if anywhere {
        return Vec::from_slice(alloc, NO_PLACE.as_bytes());
    }
    no_frame_line(alloc, arguments, counts)
}

// That no line is a frame, and why.
fn no_frame_line(
    alloc: Global,
    arguments: &[(String, String)],
    counts: &RewriteCounts,
) -> Result<Vec<u8>, AllocError>
    ensures { IfOk result (λ line.
        line.items ≡ no_frame_line (map argument_of arguments.now) counts.now) }
{
    let cause = cause_of(alloc, arguments, counts)?;
    let mut line = Vec::from_slice(alloc, b"no line is a frame: ")?;
    line.extend_from_slice(&cause)?;
    line.push(b'\n')?;
    Ok(line)
}

// Why no line is a frame, without an LF.
fn cause_of(
    alloc: Global,
    arguments: &[(String, String)],
    counts: &RewriteCounts,
) -> Result<Vec<u8>, AllocError>
    ensures { IfOk result (λ cause. cause.items
        ≡ cause_or (packed_in counts.now) (map argument_of arguments.now) counts.now) }
{
    if let Some(cause) = packed_in(counts) {
        return Vec::from_slice(alloc, cause.as_bytes());
    }
    if are_mentioned(counts) {
        return mentioned_cause(alloc, arguments, counts.text.mentions);
    }
    Vec::from_slice(alloc, USUAL.as_bytes())
}

// What the text begins as, where it is no text of UTF-8.
fn packed_in(counts: &RewriteCounts) -> Option<&'static str>
    ensures { option_map (λ cause. cause.now) result ≡ packed_in counts.now }
{
    if counts.long == 0 {
        packed_cause(begins_as(counts.text.opening.as_bytes()))
    } else {
        None
    }
}

fn packed_cause(begins_as: Beginning) -> Option<&'static str>
    ensures { option_map (λ cause. cause.now) result ≡ packed_cause begins_as }
{
    match begins_as {
        Beginning::Gzip => Some("the text is packed with gzip; unpack it first"),
        Beginning::Xz => Some("the text is packed with xz; unpack it first"),
        Beginning::Zstd => Some("the text is packed with zstd; unpack it first"),
        Beginning::Zip => Some("the text is a zip archive; unpack it first"),
        Beginning::Utf16 => Some("the text is UTF-16; convert it to UTF-8 first"),
        Beginning::Nothing
        | Beginning::Html
        | Beginning::DataUrl
        | Beginning::Json
        | Beginning::Script
        | Beginning::Other => None,
    }
}

// Whether the URLs of arguments stand in it, and no place was passed over.
fn are_mentioned(counts: &RewriteCounts) -> bool
    ensures { result ≡ are_mentioned counts.now }
{
    counts.text.mentions > 0 && counts.passed == 0
}

// How often they stand in it.
fn mentioned_cause(
    alloc: Global,
    arguments: &[(String, String)],
    mentions: u64,
) -> Result<Vec<u8>, AllocError>
    ensures { IfOk result (λ cause.
        cause.items ≡ mentioned_cause (map argument_of arguments.now) mentions) }
{
    let often = often_text(alloc, mentions)?;
    let mut text = mentioned_text(alloc, arguments)?;
    text.extend_from_slice(often.as_bytes())?;
    Ok(text)
}

// How often, for the end of the line.
fn often_text(alloc: Global, mentions: u64) -> Result<String, AllocError>
    ensures { IfOk result (λ text. string_bytes text ≡ often_text mentions) }
{
    let times = times_text(mentions);
    format!(in alloc; "{mentions}{times}, but in no place URL:LINE:COLUMN: see GUIDE, Events")
}

// Which URLs do, for one line: that of the only argument, as it prints.
fn mentioned_text(alloc: Global, arguments: &[(String, String)]) -> Result<Vec<u8>, AllocError>
    ensures { IfOk result (λ text. text.items ≡ mentioned_text (map argument_of arguments.now)) }
{
    match arguments {
        [(url, _)] => {
            let mut text = shown_url(alloc, url.as_bytes())?;
            text.extend_from_slice(b" stands here ")?;
            Ok(text)
        }
        _ => Vec::from_slice(alloc, URLS.as_bytes()),
    }
}

fn times_text(count: u64) -> &'static str
    ensures { result.now ≡ times_text count }
{
    if count == 1 { " time" } else { " times" }
}
