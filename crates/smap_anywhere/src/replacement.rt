//! What stands in a place's stead.
ghost use Rattle.std.specs.Prelude.{◌≡◌, option_map};
ghost use Rattle.std.specs.List.{list_any};
ghost use Rattle.smap_anywhere.specs.Replaced.{is_quoting, text_in};
ghost use Rattle.smap_trace.specs.SightSeen.{replacement_seen};

use memchr::memchr2;
use smap_pairs::Span;
use smap_record::ReadyMap;
use smap_trace::{Replacement, original_at};
use std::alloc::Global;

/// What stands in the stead of a place whose URL has this map; `None` where there is none, or it has no original for the
/// place in a source whose name can stand anywhere.
pub fn find_replacement<'t>(
    alloc: Global,
    map: Option<&'t ReadyMap>,
    span: &Span,
) -> Option<Replacement<'t>>
    ensures { option_map replacement_seen result
        ≡ text_in (option_map (λ file. file.now.stated) map.entry) span.now.line span.now.column }
{
    let original = original_at(alloc, map?, span.line, span.column)?;
    let name = original.name?;
    if has_quoting(name.as_bytes()) {
        return None;
    }
    Some(Replacement {
        name,
        line: original.line,
        column: original.column,
    })
}

// Whether a quotation mark or a backslash stands in a text.
fn has_quoting(text: &[u8]) -> bool
    ensures { result ≡ list_any is_quoting text.now }
{
    match memchr2(b'"', b'\\', text) {
        Some(_) => true,
        None => false,
    }
}
