//! What is said of a file that is no JSON and of an index that is not built, in sentences.
ghost use Rattle.std.specs.Prelude.{◌≡◌, string_bytes, IfOk};
ghost use Rattle.smap_verdicts.specs.Explanation.{at_text, before_text, beginning_text, build_text, cut_text, found_text};
ghost use Rattle.smap_verdicts.specs.Explanation.{mapping_text, not_json_text, section_text};
ghost use Rattle.smap_verdicts.specs.Explanation.{stop_place_text, stop_text};

use smap_explain::{Beginning, BuildFacts, FoundValue, JsonStop, NotJsonFacts, PrintedPlace};
use smap_text::shown;
use std::alloc::{AllocError, Global};

/// What the file begins as, and where reading stopped, in lines that each end with an LF.
#[tactic(auto, unfolding(crate::specs::Explanation::not_json_text))]
pub fn not_json_text(alloc: Global, facts: &NotJsonFacts) -> Result<String, AllocError>
    ensures { IfOk result (λ text. string_bytes text ≡ not_json_text facts.now) }
{
    let begins = beginning_text(facts.begins_as);
    let stop = stop_text(alloc, &facts.stop)?;
    format!(in alloc; "  {begins}\n{stop}")
}

// What a file begins as.
fn beginning_text(begins_as: Beginning) -> &'static str
    ensures { result.now ≡ beginning_text begins_as }
{
    match begins_as {
        Beginning::Nothing => "the file holds nothing",
        Beginning::Gzip => "the file is packed with gzip",
        Beginning::Xz => "the file is packed with xz",
        Beginning::Zstd => "the file is packed with zstd",
        Beginning::Zip => "the file is a zip archive",
        Beginning::Utf16 => "the file is UTF-16, and JSON is UTF-8",
        Beginning::Html => "the file is HTML or XML",
        Beginning::DataUrl => "the file is a data: URL, not the map that it holds",
        Beginning::Script =>
            "the file is JavaScript with a sourceMappingURL: the map is the file that this names",
        Beginning::Json => "the file begins as JSON",
        Beginning::Other =>
            "the file is no JSON text, and of no kind that is often taken for a map",
    }
}

// Where reading stopped, with the text about it, where that is known.
#[tactic(auto, unfolding(crate::specs::Explanation::stop_text))]
fn stop_text(alloc: Global, stop: &Option<JsonStop>) -> Result<String, AllocError>
    ensures { IfOk result (λ text. string_bytes text ≡ stop_text stop.now) }
{
    match stop {
        Some(stop) => {
            let place = stop_place_text(alloc, stop)?;
            let before = shown(alloc, &stop.before)?;
            let after = shown(alloc, &stop.after)?;
            let cut = cut_text(stop.is_cut);
            format!(in alloc; "{place}..{before} » {after}..{cut}\n")
        }
        None => Ok(String::new(alloc)),
    }
}

// That the file ends too early.
fn cut_text(is_cut: bool) -> &'static str
    ensures { result.now ≡ cut_text is_cut }
{
    if is_cut {
        "; the file ends too early, as one that was cut does"
    } else {
        ""
    }
}

// The byte, the line and the column at which reading stopped.
#[tactic(auto, unfolding(crate::specs::Explanation::stop_place_text))]
fn stop_place_text(alloc: Global, stop: &JsonStop) -> Result<String, AllocError>
    ensures { IfOk result (λ text. string_bytes text ≡ stop_place_text stop.now) }
{
    let (byte, line, column) = (stop.byte, stop.line, stop.column);
    format!(in alloc; "  reading stopped at byte {byte} (line {line}, column {column}): ")
}

/// What stands at a place, with no LF.
#[tactic(auto, unfolding(crate::specs::Explanation::found_text))]
pub fn found_text(alloc: Global, found: &FoundValue) -> Result<String, AllocError>
    ensures { IfOk result (λ text. string_bytes text ≡ found_text found.now) }
{
    match found {
        FoundValue::Nothing => format!(in alloc; "missing"),
        FoundValue::Null => format!(in alloc; "null"),
        FoundValue::Boolean(true) => format!(in alloc; "true"),
        FoundValue::Boolean(false) => format!(in alloc; "false"),
        FoundValue::Whole(number) => format!(in alloc; "the number {number}"),
        FoundValue::Number => {
            format!(in alloc;
                "a number that is not written as a whole one from 0 to 18446744073709551615"
            )
        }
        FoundValue::Text(text) => {
            let text = shown(alloc, text)?;
            format!(in alloc; "the text \"{text}\"")
        }
        FoundValue::List(count) => format!(in alloc; "a list, of which the length is {count}"),
        FoundValue::Object => format!(in alloc; "an object"),
    }
}

/// Why an index is not built: the section, the one before it and the mapping, in lines that each end with an LF.
#[tactic(auto, unfolding(crate::specs::Explanation::build_text))]
pub fn build_text(alloc: Global, facts: BuildFacts) -> Result<String, AllocError>
    ensures { IfOk result (λ text. string_bytes text ≡ build_text facts) }
{
    let section = section_text(alloc, facts)?;
    let before = before_text(alloc, facts.offset_before)?;
    let mapping = mapping_text(alloc, facts.mapping)?;
    format!(in alloc; "{section}{before}{mapping}")
}

// Where the section begins.
#[tactic(auto, unfolding(crate::specs::Explanation::section_text))]
fn section_text(alloc: Global, facts: BuildFacts) -> Result<String, AllocError>
    ensures { IfOk result (λ text. string_bytes text ≡ section_text facts) }
{
    let (section, place) = (facts.section, at_text(alloc, facts.offset)?);
    format!(in alloc; "  section {section} begins at {place}\n")
}

// Where the section before it begins, where that is what is wrong.
#[tactic(auto, unfolding(crate::specs::Explanation::before_text))]
fn before_text(alloc: Global, place: Option<PrintedPlace>) -> Result<String, AllocError>
    ensures { IfOk result (λ text. string_bytes text ≡ before_text place) }
{
    match place {
        Some(place) => {
            let place = at_text(alloc, place)?;
            format!(in alloc; "  the section before it begins at {place}\n")
        }
        None => Ok(String::new(alloc)),
    }
}

// The mapping that is at fault, where that is what is wrong.
#[tactic(auto, unfolding(crate::specs::Explanation::mapping_text))]
fn mapping_text(alloc: Global, place: Option<PrintedPlace>) -> Result<String, AllocError>
    ensures { IfOk result (λ text. string_bytes text ≡ mapping_text place) }
{
    match place {
        Some(place) => {
            let place = at_text(alloc, place)?;
            format!(in alloc; "  the mapping that is at fault is at {place}\n")
        }
        None => Ok(String::new(alloc)),
    }
}

/// A line and a column.
#[tactic(auto, unfolding(crate::specs::Explanation::at_text))]
pub fn at_text(alloc: Global, place: PrintedPlace) -> Result<String, AllocError>
    ensures { IfOk result (λ text. string_bytes text ≡ at_text place) }
{
    let PrintedPlace { line, column } = place;
    format!(in alloc; "line {line}, column {column}")
}
