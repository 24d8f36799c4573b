//! Whether the canonical text of mappings is too long for a map.
ghost use Rattle.std.specs.Prelude.{◌≡◌, ◌+◌, ◌*◌, ◌≤◌, None, IsTrue};
ghost use Rattle.std.specs.List.{last_or};
ghost use Rattle.smap_mappings.specs.Encode.{is_text_too_long, list_fault};
ghost use Rattle.smap_mappings.specs.Limits.{most_text_bytes};
ghost use Rattle.smap_mappings.specs.Writing.{IsLengthOf};
ghost use Rattle.smap_compose.specs.Private.Length.{line_of};

use smap_mappings::laws::lists_in_order_have_no_fault;
use smap_mappings::{MOST_MAPPINGS_BYTES, TextLength};
use smap_record::Mapping;

// How many bytes a mapping adds to a canonical text at most, beside a `;` for each line that is passed: a `,` and five
// numbers of seven digits.
const MOST_MAPPING_BYTES: u64 = 36;

/// Whether the canonical text of these mappings has more bytes than a text may have. It is measured only where they are so
/// many, or on such lines, that it may have.
pub fn is_text_too_long(mappings: &[Mapping]) -> bool
    requires { list_fault mappings.now ≡ None }
    ensures { result ≡ is_text_too_long mappings.now }
{
    lists_in_order_have_no_fault();
    if have_few_bytes(mappings.len() as u64, last_line(mappings)) {
        return false;
    }
    text_length(mappings).bytes().is_none()
}

// Whether so many mappings on lines up to this one are too few for a text that is too long.
fn have_few_bytes(count: u64, line: u64) -> bool
    ensures { IsTrue result → 36 * count + line ≤ most_text_bytes }
{
    let most = MOST_MAPPINGS_BYTES as u64;
    line <= most && count <= (most - line) / MOST_MAPPING_BYTES
}

// The line of the last mapping, and 0 where there is none.
fn last_line(mappings: &[Mapping]) -> u64
    ensures { result ≡ line_of (last_or None mappings.now) }
{
    match mappings.last() {
        Some(mapping) => u64::from(mapping.line),
        None => 0,
    }
}

// The length of the canonical text.
fn text_length(mappings: &[Mapping]) -> TextLength
    requires { list_fault mappings.now ≡ None }
    ensures { IsLengthOf mappings.now result }
{
    lists_in_order_have_no_fault();
    let mut length = TextLength::new();
    for mapping in mappings {
        length.add(mapping);
    }
    length
}
