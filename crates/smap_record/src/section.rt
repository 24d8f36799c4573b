//! The map of one section: its sources, its names and its mappings.
ghost use Rattle.std.specs.Prelude.{◌≡◌, ◌<◌, ◌≤◌, ◌↔◌, ◌+◌, ◌∷◌, [], ℕ, length, map, option_map, string_bytes, None, Some, IfErr, IfOk, IfSome, IsOk, OnOk};
ghost use Rattle.std.specs.List.{All};
ghost use Rattle.serde_json.specs.View.{view};
ghost use Rattle.smap_mappings.specs.Accepted.{IsAccepted};
ghost use Rattle.smap_mappings.specs.Faults.{first_fault};
ghost use Rattle.smap_mappings.specs.Limits.{most_text_bytes};
ghost use Rattle.smap_mappings.specs.Mappings.{mappings_of};
ghost use Rattle.smap_mappings.specs.Within.{IsWithin};
ghost use Rattle.smap_mappings.specs.declared.fault.Fault.{Fault};
ghost use Rattle.smap_mappings.specs.declared.packed_text.TextRefusal.{TextRefusal};
ghost use Rattle.smap_index.specs.Parts.{whole_text};
ghost use Rattle.smap_record.specs.Limits.{most_listed};
ghost use Rattle.smap_record.specs.Given.{GivesRead};
ghost use Rattle.smap_record.specs.Section.{contents_in, ignored_in, mappings_in, names_in, section_in, sources_in};
ghost use Rattle.smap_record.specs.Private.Marked.{AreMarksAt};
ghost use Rattle.smap_record.specs.Private.Seen.{fields_seen, section_seen, texts_seen};

use crate::MOST_LISTED;
use crate::fields::{read_text, take_fields};
use crate::ignored::{ignored_flags, none_ignored};
use crate::json::{nullable_texts, texts};
use crate::refusal::MapRefusal;
use serde_json::{Map, Value};
use smap_index::{MarkedText, TextMarks};
use smap_mappings::{PackedText, TextRefusal};
use std::alloc::Global;

/// The number of a section, from 0, where it begins, and how many sources and names the sections before it have.
#[derive(Clone, Copy)]
pub struct SectionPlace {
    pub number: u64,
    pub line: u32,
    pub column: u32,
    pub source_base: u32,
    pub name_base: u32,
}

impl SectionPlace {
    /// The first section, which begins at the start.
    pub const START: SectionPlace = SectionPlace {
        number: 0,
        line: 0,
        column: 0,
        source_base: 0,
        name_base: 0,
    };
}

/// What a section states of its sources: the `sourceRoot` of all, and by place the text of each, its content, and
/// whether it is to be ignored.
#[derive(Drop)]
pub struct SectionSources {
    pub root: Option<String>,
    pub texts: Vec<Option<String>>,
    pub contents: Vec<Option<String>>,
    pub ignored: Vec<bool>,
}

/// What the map of a section states: its sources, its names and its mappings.
#[derive(Drop)]
pub struct SectionMap {
    pub sources: SectionSources,
    pub names: Vec<String>,
    pub text: PackedText,
    /// The checkpoints of an index that has the text alone, where they were asked for.
    pub marks: Option<TextMarks>,
}

/// Reads the section at a place, whose map has these members, and the checkpoints of its text at an interval, where there
/// is one.
#[tactic(auto, using(crate::proofs::SectionLaws::same_length), unfolding(crate::specs::Section::section_in))]
pub fn read_section(
    alloc: Global,
    place: SectionPlace,
    members: Map<String, Value>,
    interval: Option<u32>,
) -> Result<SectionMap, MapRefusal>
    requires sources_before { place.source_base ≤ most_listed }
    requires names_before { place.name_base ≤ most_listed }
    ensures statement { GivesRead section_seen result
        (section_in place (fields_seen members.entries)) }
    ensures few_sources { IfOk result
        (λ section. place.source_base + length section.sources.texts.items ≤ most_listed) }
    ensures few_names { IfOk result
        (λ section. place.name_base + length section.names.items ≤ most_listed) }
    ensures within { IfOk result
        (λ section. All (IsWithin (length section.sources.texts.items) (length section.names.items))
        (mappings_of section.text)) }
    ensures marked { IfOk result
        (λ section. IfSome section.marks (AreMarksAt interval (whole_text section.text ∷ []))) }
{
    let fields = take_fields(members);
    let texts = read_sources(alloc, place.source_base, fields.sources)?;
    let names = read_names(alloc, place.name_base, fields.names)?;
    let contents = read_contents(alloc, fields.contents)?;
    let ignored = read_ignored(alloc, fields.ignored, texts.len())?;
    let root = read_text(fields.root)?;
    let (text, marks) = read_mappings(
        alloc,
        place.number,
        fields.mappings,
        texts.len() as u32,
        names.len() as u32,
        interval,
    )?;
    Ok(SectionMap {
        sources: SectionSources {
            root,
            texts,
            contents,
            ignored,
        },
        names,
        text,
        marks,
    })
}

// The sources, where this many stand before them.
fn read_sources(
    alloc: Global,
    before: u32,
    field: Option<Value>,
) -> Result<Vec<Option<String>>, MapRefusal>
    requires { before ≤ most_listed }
    ensures statement { GivesRead (λ texts. texts_seen texts.items) result
        (sources_in before (option_map view field)) }
    ensures few { IfOk result (λ texts. before + length texts.items ≤ most_listed) }
{
    let Some(value) = field else {
        return Err(MapRefusal::Sources);
    };
    match nullable_texts(alloc, value)? {
        Some(texts) if texts.len() <= MOST_LISTED - before as usize => Ok(texts),
        _ => Err(MapRefusal::Sources),
    }
}

// The names, where this many stand before them.
fn read_names(alloc: Global, before: u32, field: Option<Value>) -> Result<Vec<String>, MapRefusal>
    requires { before ≤ most_listed }
    ensures statement { GivesRead (λ names. map string_bytes names.items) result
        (names_in before (option_map view field)) }
    ensures few { IfOk result (λ names. before + length names.items ≤ most_listed) }
{
    let Some(value) = field else {
        return Ok(Vec::new(alloc));
    };
    match texts(alloc, value)? {
        Some(names) if names.len() <= MOST_LISTED - before as usize => Ok(names),
        _ => Err(MapRefusal::Names),
    }
}

// The texts of the sources.
fn read_contents(alloc: Global, field: Option<Value>) -> Result<Vec<Option<String>>, MapRefusal>
    ensures { GivesRead (λ contents. texts_seen contents.items) result
        (contents_in (option_map view field)) }
{
    let Some(value) = field else {
        return Ok(Vec::new(alloc));
    };
    match nullable_texts(alloc, value)? {
        Some(contents) => Ok(contents),
        None => Err(MapRefusal::SourcesContent),
    }
}

// Which of the sources are to be ignored.
fn read_ignored(
    alloc: Global,
    field: Option<Value>,
    sources: usize,
) -> Result<Vec<bool>, MapRefusal>
    ensures { GivesRead (λ flags. flags.items) result (ignored_in sources (option_map view field)) }
{
    let Some(value) = field else {
        return Ok(none_ignored(alloc, sources)?);
    };
    match ignored_flags(alloc, &value, sources)? {
        Some(flags) => Ok(flags),
        None => Err(MapRefusal::IgnoreList),
    }
}

// The mappings of the section with this number, where it has this many sources and names, and their checkpoints at an
// interval, where there is one.
#[tactic(auto, unfolding(crate::specs::Section::mappings_in))]
fn read_mappings(
    alloc: Global,
    number: u64,
    field: Option<Value>,
    sources: u32,
    names: u32,
    interval: Option<u32>,
) -> Result<(PackedText, Option<TextMarks>), MapRefusal>
    ensures statement { GivesRead (λ read. read.0) result
        (mappings_in number sources names (option_map view field)) }
    ensures within { IfOk result (λ read. All (IsWithin sources names) (mappings_of read.0)) }
    ensures marked { IfOk result (λ read. IfSome read.1
        (AreMarksAt interval (whole_text read.0 ∷ []))) }
{
    let Some(Value::String(text)) = field else {
        return Err(MapRefusal::Mappings);
    };
    match check_text(alloc, text, sources, names, interval) {
        Ok(read) => Ok(read),
        Err((TextRefusal::TextTooLong, _)) => Err(MapRefusal::Mappings),
        Err((TextRefusal::Fault(fault), _)) => Err(MapRefusal::Text(number, fault)),
    }
}

// Checks a text, and makes its checkpoints in the same walk, where an interval is given for them.
fn check_text(
    alloc: Global,
    text: String,
    sources: u32,
    names: u32,
    interval: Option<u32>,
) -> Result<(PackedText, Option<TextMarks>), (TextRefusal, String)>
    ensures accepted { IsOk result ↔ ((length (string_bytes text) ≤ most_text_bytes)
        × IsAccepted (string_bytes text) sources names) }
    ensures inside { IfOk result (λ read. read.0 ≡ string_bytes text) }
    ensures clean { OnOk result (first_fault (string_bytes text) sources names ≡ None) }
    ensures within { OnOk result (All (IsWithin sources names) (mappings_of (string_bytes text))) }
    ensures too_long { IfErr result (λ e.
        (e.0 ≡ TextRefusal.TextTooLong) ↔ (most_text_bytes < length (string_bytes text))) }
    ensures faulty { IfErr result (λ e. (fault : Fault) → e.0 ≡ TextRefusal.Fault fault
        → first_fault (string_bytes text) sources names ≡ Some fault) }
    ensures marked { IfOk result (λ read. IfSome read.1
        (AreMarksAt interval (whole_text read.0 ∷ []))) }
{
    match interval {
        Some(interval) => {
            let (text, marks) = MarkedText::check(
                alloc, text, sources, names, interval,
            )?.into_fields();
            Ok((text, Some(marks)))
        }
        None => Ok((PackedText::check(text, sources, names)?, None)),
    }
}
