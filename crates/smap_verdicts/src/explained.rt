//! What is said of a refused map file in sentences.
ghost use Rattle.std.specs.Prelude.{◌≡◌, string_bytes, IfOk};
ghost use Rattle.smap_verdicts.specs.Keys.{asked_of, explanation_text, has_no_source, is_index};
ghost use Rattle.smap_verdicts.specs.Keys.{key_name, key_place_text, key_text, most_text, number_after};

use crate::facts_text::{build_text, found_text, not_json_text};
use crate::segment_lines::segment_text;
use smap_explain::{Explanation, Key, KeyFacts};
use std::alloc::{AllocError, Global};

/// Why a map file is refused, in whole sentences: lines that begin with two blanks and end with an LF, none where nothing
/// more is known. Lines and columns print from 1, bytes, sections, items and indices from 0.
#[tactic(auto, unfolding(crate::specs::Keys::explanation_text))]
pub fn explanation_text(alloc: Global, explanation: &Explanation) -> Result<String, AllocError>
    ensures { IfOk result (λ text. string_bytes text ≡ explanation_text explanation.now) }
{
    match explanation {
        Explanation::Nothing => Ok(String::new(alloc)),
        Explanation::TooLarge => format!(in alloc;
            "  the file has more than 67,108,864 bytes, which is the most that a map may have\n"
        ),
        Explanation::NotJson(facts) => not_json_text(alloc, facts),
        Explanation::NotObject(found) => {
            let found = found_text(alloc, found)?;
            format!(in alloc; "  the JSON value is {found}, and must be an object\n")
        }
        Explanation::Key(facts) => key_text(alloc, facts),
        Explanation::Segment(facts) => segment_text(alloc, facts),
        Explanation::Build(facts) => build_text(alloc, *facts),
    }
}

// What stands at a key, and what may.
#[tactic(auto, unfolding(crate::specs::Keys::key_text))]
fn key_text(alloc: Global, facts: &KeyFacts) -> Result<String, AllocError>
    ensures { IfOk result (λ text. string_bytes text ≡ key_text facts.now) }
{
    let place = key_place_text(alloc, facts)?;
    let found = found_text(alloc, &facts.found)?;
    let asked = asked_of(facts.key);
    let most = most_text(alloc, facts)?;
    format!(in alloc; "{place} is {found}, and {asked}{most}\n")
}

// The greatest number that may stand there, or that none may.
#[tactic(auto, unfolding(crate::specs::Keys::most_text))]
fn most_text(alloc: Global, facts: &KeyFacts) -> Result<String, AllocError>
    ensures { IfOk result (λ text. string_bytes text ≡ most_text facts.now) }
{
    if has_no_source(facts) {
        format!(in alloc; "; the map has no sources")
    } else {
        number_after(alloc, "; the greatest is ", facts.most)
    }
}

// Whether the item is an index of a source, and there is none.
fn has_no_source(facts: &KeyFacts) -> bool
    ensures { result ≡ has_no_source facts.now }
{
    is_index(facts.key) && facts.index.is_some() && facts.most.is_none()
}

fn is_index(key: Key) -> bool
    ensures { result ≡ is_index key }
{
    match key {
        Key::IgnoreList => true,
        Key::OldIgnoreList => true,
        _ => false,
    }
}

// The key, its section and its item.
#[tactic(auto, unfolding(crate::specs::Keys::key_place_text))]
fn key_place_text(alloc: Global, facts: &KeyFacts) -> Result<String, AllocError>
    ensures { IfOk result (λ text. string_bytes text ≡ key_place_text facts.now) }
{
    let key = key_name(facts.key);
    let section = number_after(alloc, " of section ", facts.section)?;
    let item = number_after(alloc, ", item ", facts.index)?;
    format!(in alloc; "  `{key}`{section}{item}")
}

// After these words, a number that there may be.
#[tactic(auto, unfolding(crate::specs::Keys::number_after))]
fn number_after(alloc: Global, words: &str, number: Option<u64>) -> Result<String, AllocError>
    ensures { IfOk result (λ text. string_bytes text ≡ number_after words.now number) }
{
    match number {
        Some(number) => format!(in alloc; "{words}{number}"),
        None => Ok(String::new(alloc)),
    }
}

/// A key as it is written in the file.
pub fn key_name(key: Key) -> &'static str
    ensures { result.now ≡ key_name key }
{
    match key {
        Key::Version => "version",
        Key::Sections => "sections",
        Key::Map => "map",
        Key::Offset => "offset",
        Key::OffsetLine => "line",
        Key::OffsetColumn => "column",
        Key::NestedSections => "sections",
        Key::Sources => "sources",
        Key::Names => "names",
        Key::SourcesContent => "sourcesContent",
        Key::IgnoreList => "ignoreList",
        Key::OldIgnoreList => "x_google_ignoreList",
        Key::File => "file",
        Key::SourceRoot => "sourceRoot",
        Key::Mappings => "mappings",
    }
}

// What may stand at it.
fn asked_of(key: Key) -> &'static str
    ensures { result.now ≡ asked_of key }
{
    match key {
        Key::Version => "the key must hold the number 3",
        Key::Sections => "the key may hold a list of at most 65,536 objects",
        Key::Map => "the key must hold an object",
        Key::Offset => "the key must hold an object with a line and a column",
        Key::OffsetLine => "the key must hold a whole number from 0 on",
        Key::OffsetColumn => "the key must hold a whole number from 0 on",
        Key::NestedSections => "the map of a section has none",
        Key::Sources =>
            "the key must hold a list of texts and nulls, at most 33,554,432 in the file",
        Key::Names => "the key may hold a list of texts, at most 33,554,432 in the file",
        Key::SourcesContent => "the key may hold a list of texts and nulls",
        Key::IgnoreList => "the key may hold a list of indices of sources",
        Key::OldIgnoreList => "the key may hold a list of indices of sources",
        Key::File => "the key may hold a text",
        Key::SourceRoot => "the key may hold a text",
        Key::Mappings => "the key must hold a text of at most 67,108,864 bytes",
    }
}
