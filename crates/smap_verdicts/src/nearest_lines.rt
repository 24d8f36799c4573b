//! What is said of the mappings about a generated position.
ghost use Rattle.std.specs.Prelude.{◌≡◌, false, string_bytes, IfOk};
ghost use Rattle.std.specs.Option.{option_map_or};
ghost use Rattle.smap_explain.specs.Build.{place_of};
ghost use Rattle.smap_verdicts.specs.NearestLines.{has_line, is_on, line_text, mapping_text, nearest_text, origin_text};

use crate::facts_text::at_text;
use smap_explain::PrintedPlace;
use smap_record::{Mapping, Neighbours, Origin};
use std::alloc::{AllocError, Global};

/// Where the mappings nearest to a position on this line, from 0, stand, in whole sentences: lines that begin with two
/// blanks and end with an LF. Lines and columns print from 1.
#[tactic(auto, unfolding(crate::specs::NearestLines::nearest_text))]
pub fn nearest_text(alloc: Global, about: Neighbours, line: u32) -> Result<String, AllocError>
    ensures { IfOk result (λ text. string_bytes text ≡ nearest_text line about) }
{
    let none = line_text(alloc, line, about)?;
    let before = mapping_text(
        alloc,
        "  the last mapping at the position or before it",
        "  no mapping stands at the position or before it\n",
        about.before,
    )?;
    let after = mapping_text(
        alloc,
        "  the first mapping after it",
        "  no mapping stands after it\n",
        about.after,
    )?;
    format!(in alloc; "{none}{before}{after}")
}

// That the line has no mapping.
#[tactic(auto, unfolding(crate::specs::NearestLines::line_text))]
fn line_text(alloc: Global, line: u32, about: Neighbours) -> Result<String, AllocError>
    ensures { IfOk result (λ text. string_bytes text ≡ line_text line about) }
{
    if has_line(line, about) {
        return Ok(String::new(alloc));
    }
    let line = u64::from(line) + 1;
    format!(in alloc; "  line {line} has no mapping\n")
}

fn has_line(line: u32, about: Neighbours) -> bool
    ensures { result ≡ has_line line about }
{
    is_on_where(line, about.before) || is_on_where(line, about.after)
}

fn is_on_where(line: u32, mapping: Option<Mapping>) -> bool
    ensures { result ≡ option_map_or (is_on line) mapping false }
{
    match mapping {
        Some(mapping) => mapping.line == line,
        None => false,
    }
}

// Where a mapping stands, where there is one.
#[tactic(auto, unfolding(crate::specs::NearestLines::mapping_text))]
fn mapping_text(
    alloc: Global,
    words: &str,
    others: &str,
    mapping: Option<Mapping>,
) -> Result<String, AllocError>
    ensures { IfOk result (λ text. string_bytes text ≡ mapping_text words.now others.now mapping) }
{
    match mapping {
        Some(mapping) => {
            let place = at_text(alloc, place_of(mapping))?;
            let origin = origin_text(mapping.origin);
            format!(in alloc; "{words} is at {place}{origin}\n")
        }
        None => String::from_str(alloc, others),
    }
}

// Where a mapping stands, from 1.
fn place_of(mapping: Mapping) -> PrintedPlace
    ensures { result ≡ place_of mapping }
{
    PrintedPlace {
        line: u64::from(mapping.line) + 1,
        column: u64::from(mapping.column) + 1,
    }
}

fn origin_text(origin: Option<Origin>) -> &'static str
    ensures { result.now ≡ origin_text origin }
{
    match origin {
        Some(_) => "",
        None => ", and has no original position",
    }
}
