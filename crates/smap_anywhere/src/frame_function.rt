//! The function of the frame that a place is in, with the name that was written for it.
ghost use Rattle.std.specs.Prelude.{◌≡◌, ◌≤◌, ◌++◌, [], length, option_map, true};
ghost use Rattle.smap_anywhere.specs.FunctionSeen.{function_seen};
ghost use Rattle.smap_anywhere.specs.NamedParts.{begin_at, function_at, function_before, function_bytes, function_text, place_at};
ghost use Rattle.smap_anywhere.specs.Private.FunctionPut.{name_put};

use smap_pairs::Span;
use smap_trace::{HeadCut, Maps, head_cut};
use std::alloc::Global;

/// What is put for the function before a place, which has so many bytes there: its name or the one that was written for it,
/// and what stands behind it.
#[derive(Clone, Copy)]
pub struct FunctionPut<'a> {
    pub bytes: usize,
    pub name: &'a [u8],
    pub behind: &'a [u8],
}

/// What is put for the function of the frame that a place of a chunk is in, behind a byte up to which other places stand,
/// where names are known of any functions and its URL is this one: nothing, where there is none.
pub fn function_for<'a, M: Maps>(
    alloc: Global,
    maps: &'a M,
    url: &[u8],
    text: &'a [u8],
    from: usize,
    span: &Span,
) -> FunctionPut<'a>
    requires within { span.now.start ≤ length text.now }
    ensures bytes { result.bytes
        ≡ function_bytes (function_at M.names_any text.now from span.now) }
    ensures put { result.name.now ++ result.behind.now
        ≡ function_text (M.names maps.now url.now) (place_at M.names_any text.now from span.now)
        (function_at M.names_any text.now from span.now) }
{
    if !maps.knows_names() {
        return no_function();
    }
    let Some(function) = function_before(text, from, span) else {
        return no_function();
    };
    FunctionPut {
        bytes: function.name.len() + function.behind.len(),
        name: name_for(alloc, maps, url, &function, span),
        behind: function.behind,
    }
}

// Nothing.
fn no_function<'a>() -> FunctionPut<'a>
    ensures none { result.bytes ≡ 0 }
    ensures name { result.name.now ≡ [] }
    ensures behind { result.behind.now ≡ [] }
{
    FunctionPut {
        bytes: 0,
        name: &[],
        behind: &[],
    }
}

// The name that was written for a function, or its own.
fn name_for<'a, M: Maps>(
    alloc: Global,
    maps: &'a M,
    url: &[u8],
    function: &HeadCut<'a>,
    span: &Span,
) -> &'a [u8]
    ensures { result.now ≡ name_put (M.names maps.now url.now) function.now.name.now span.now }
{
    match maps.written_name(alloc, url, function.name, span.line, span.column) {
        Some(name) => name,
        None => function.name,
    }
}

/// The function of the frame that a place of a chunk is in, behind a byte up to which other places stand.
pub fn function_before<'a>(text: &'a [u8], from: usize, span: &Span) -> Option<HeadCut<'a>>
    requires within { span.now.start ≤ length text.now }
    ensures { option_map function_seen result ≡ function_before text.now from span.now }
{
    let head = match text.get(span.frame_start..span.start) {
        Some(head) => head,
        None => &[],
    };
    let cut = head_cut(head)?;
    if cut.name.len() + cut.behind.len() <= span.start.saturating_sub(from) {
        Some(cut)
    } else {
        None
    }
}

/// Where the part of a place of a chunk begins, behind a byte up to which other places stand: with the function of its
/// frame, where there is one.
pub fn begin_of_part(text: &[u8], from: usize, span: &Span) -> usize
    requires within { span.now.start ≤ length text.now }
    ensures { result ≡ begin_at true text.now from span.now }
{
    match function_before(text, from, span) {
        Some(function) => span
            .start
            .saturating_sub(function.name.len() + function.behind.len()),
        None => span.start,
    }
}
