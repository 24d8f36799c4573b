//! Why a map file is refused.
ghost use Rattle.std.specs.Prelude.{◌≡◌, ◌≤◌, length, option_and_then, option_map, IfOk, IfSome};
ghost use Rattle.std.specs.Result.{result_ok};
ghost use Rattle.serde_json.specs.View.{members_view, view};
ghost use Rattle.smap_mappings.specs.Limits.{most_text_bytes};
ghost use Rattle.smap_record.specs.FileText.{value_of_file};
ghost use Rattle.smap_record.specs.Record.{members_in};
ghost use Rattle.smap_explain.specs.Beginning.{begins_as};
ghost use Rattle.smap_explain.specs.Explain.{IsExplained, IsKeyReported, IsSegmentReported, IsTextReported, OfObject, build_explained, build_facts_of, in_limits, key_explained, segment_explained, stated, stated_in, stated_mappings};
ghost use Rattle.smap_explain.specs.Found.{found, found_seen};
ghost use Rattle.smap_explain.specs.KeyFacts.{key_facts, key_seen};
ghost use Rattle.smap_explain.specs.Private.Explain.{mappings_seen};
ghost use Rattle.smap_explain.specs.Stop.{IsStopReported};

use crate::beginning::begins_as;
use crate::build::build_facts;
use crate::explanation::{
    BuildFacts, Explanation, FoundValue, JsonStop, KeyFacts, NotJsonFacts, SegmentFacts,
};
use crate::found::found_in;
use crate::key_facts::key_facts;
use crate::sections::{listed, mappings_text, section_map};
use crate::segment::segment_facts;
use crate::stop::{stop_of, told_by};
use serde_json::{Error, Map, Value};
use smap_index::BuildRefusal;
use smap_mappings::{LIMIT, MOST_MAPPINGS_BYTES};
use smap_record::{MapRefusal, file_members, file_parts, json_text};
use std::alloc::{AllocError, Global};

/// What is known of why the map file of these bytes is refused so; nothing where its bytes give no such refusal. The file is
/// read again, which takes as much memory as reading it took.
#[tactic(auto, unfolding(crate::specs::Explain::IsExplained))]
pub fn explain(alloc: Global, bytes: &[u8], refusal: MapRefusal) -> Result<Explanation, AllocError>
    ensures { IfOk result (λ explanation. IsExplained bytes.now refusal explanation) }
{
    match refusal {
        MapRefusal::TooLarge => Ok(Explanation::TooLarge),
        MapRefusal::NotJson => Ok(Explanation::NotJson(not_json_facts(alloc, bytes)?)),
        MapRefusal::NotObject => Ok(Explanation::NotObject(value_found(alloc, bytes)?)),
        MapRefusal::Version
        | MapRefusal::Sections
        | MapRefusal::SectionOffset(_)
        | MapRefusal::Nested(_)
        | MapRefusal::Sources
        | MapRefusal::Names
        | MapRefusal::SourcesContent
        | MapRefusal::IgnoreList
        | MapRefusal::FileOrRoot
        | MapRefusal::Mappings => key_explanation(alloc, bytes, refusal),
        MapRefusal::Text(section, _) => text_explanation(alloc, bytes, section),
        MapRefusal::Build(refusal) => {
            Ok(build_explained(build_facts_of(alloc, bytes, refusal)?))
        }
        MapRefusal::Url | MapRefusal::Memory | MapRefusal::LongNames => Ok(Explanation::Nothing),
    }
}

// What a file that is no JSON text begins as, and where reading it stops.
fn not_json_facts(alloc: Global, bytes: &[u8]) -> Result<NotJsonFacts, AllocError>
    ensures { IfOk result (λ facts. (facts.begins_as ≡ begins_as bytes.now)
        × IsStopReported bytes.now facts.stop) }
{
    Ok(NotJsonFacts {
        begins_as: begins_as(bytes),
        stop: stop_in(alloc, bytes)?,
    })
}

// Where reading the file stops, if it does.
fn stop_in(alloc: Global, bytes: &[u8]) -> Result<Option<JsonStop>, AllocError>
    ensures { IfOk result (IsStopReported bytes.now) }
{
    match file_value(alloc, bytes)? {
        Ok(_) => Ok(None),
        Err(error) => Ok(Some(stop_of(alloc, bytes, told_by(&error))?)),
    }
}

// The JSON value of the file.
fn value_found(alloc: Global, bytes: &[u8]) -> Result<FoundValue, AllocError>
    ensures { IfOk result (λ value. found_seen value ≡ found (value_of_file bytes.now)) }
{
    match file_value(alloc, bytes)? {
        Ok(value) => found_in(alloc, Some(&value)),
        Err(_) => found_in(alloc, None),
    }
}

// The JSON value of the file, or why it is none.
fn file_value(alloc: Global, bytes: &[u8]) -> Result<Result<Value, Error>, AllocError>
    ensures { IfOk result (λ read. option_map view (result_ok read) ≡ value_of_file bytes.now) }
{
    match Value::from_slice(alloc, json_text(bytes)) {
        Ok(value) => Ok(Ok(value)),
        Err(error) if error.is_memory() => Err(AllocError),
        Err(error) => Ok(Err(error)),
    }
}

// The members of the object that the file is.
fn object_of(alloc: Global, bytes: &[u8]) -> Result<Option<Map<String, Value>>, AllocError>
    ensures { IfOk result (λ object. option_map (λ members. members_view members.entries) object
        ≡ result_ok (members_in bytes.now)) }
{
    match file_members(alloc, bytes) {
        Ok(members) => Ok(Some(members)),
        Err(MapRefusal::Memory) => Err(AllocError),
        Err(_) => Ok(None),
    }
}

// What stands at the key for which the file is refused.
fn key_facts_of(
    alloc: Global,
    bytes: &[u8],
    refusal: MapRefusal,
) -> Result<Option<KeyFacts>, AllocError>
    ensures { IfOk result (λ facts. option_map key_seen facts
        ≡ option_and_then (λ entries. key_facts entries refusal)
        (result_ok (members_in bytes.now))) }
{
    match object_of(alloc, bytes)? {
        Some(members) => key_facts(alloc, &members, refusal),
        None => Ok(None),
    }
}

fn key_explanation(
    alloc: Global,
    bytes: &[u8],
    refusal: MapRefusal,
) -> Result<Explanation, AllocError>
    ensures { IfOk result (IsKeyReported bytes.now refusal) }
{
    Ok(key_explained(key_facts_of(alloc, bytes, refusal)?))
}

fn key_explained(facts: Option<KeyFacts>) -> Explanation
    ensures { result ≡ key_explained facts }
{
    match facts {
        Some(facts) => Explanation::Key(facts),
        None => Explanation::Nothing,
    }
}

// The first faulty segment of a section of the file.
fn segment_facts_of(
    alloc: Global,
    bytes: &[u8],
    section: u64,
) -> Result<Option<SegmentFacts>, AllocError>
    ensures { IfOk result (λ facts. OfObject bytes.now (IsSegmentReported section) facts) }
{
    match object_of(alloc, bytes)? {
        Some(members) => segment_reported(alloc, &members, section),
        None => Ok(None),
    }
}

fn segment_reported(
    alloc: Global,
    members: &Map<String, Value>,
    section: u64,
) -> Result<Option<SegmentFacts>, AllocError>
    ensures { IfOk result (λ facts.
        IsSegmentReported section (members_view members.now.entries) facts) }
{
    match stated_mappings(members, section) {
        Some(
            Mappings {
                text,
                sources,
                names,
            },
        ) => segment_facts(alloc, section, text, sources, names),
        None => Ok(None),
    }
}

/// The mappings text of a section, and how many sources and names its map has.
#[derive(Clone, Copy)]
pub struct Mappings<'a> {
    pub text: &'a str,
    pub sources: u32,
    pub names: u32,
}

fn stated_mappings(members: &Map<String, Value>, section: u64) -> Option<Mappings<'_>>
    ensures stated { option_map mappings_seen result
        ≡ stated_mappings (members_view members.now.entries) section }
    ensures short { IfSome result (λ stated. length stated.text.now ≤ most_text_bytes) }
{
    match section_map(members, section) {
        Some(map) => stated_in(map),
        None => None,
    }
}

fn stated_in(map: &Map<String, Value>) -> Option<Mappings<'_>>
    ensures stated { option_map mappings_seen result ≡ stated_in (members_view map.now.entries) }
    ensures short { IfSome result (λ stated. length stated.text.now ≤ most_text_bytes) }
{
    match mappings_text(map) {
        Some(text) => in_limits(text, listed(map, "sources"), listed(map, "names")),
        None => None,
    }
}

fn in_limits(text: &str, sources: u64, names: u64) -> Option<Mappings<'_>>
    ensures stated { option_map mappings_seen result
        ≡ in_limits (stated text.now sources names) }
    ensures short { IfSome result (λ stated. length stated.text.now ≤ most_text_bytes) }
{
    let limit = u64::from(LIMIT);
    if text.len() <= MOST_MAPPINGS_BYTES && sources <= limit && names <= limit {
        let (sources, names) = (sources as u32, names as u32);
        Some(Mappings {
            text,
            sources,
            names,
        })
    } else {
        None
    }
}

fn text_explanation(alloc: Global, bytes: &[u8], section: u64) -> Result<Explanation, AllocError>
    ensures { IfOk result (IsTextReported bytes.now section) }
{
    Ok(segment_explained(segment_facts_of(alloc, bytes, section)?))
}

fn segment_explained(facts: Option<SegmentFacts>) -> Explanation
    ensures { result ≡ segment_explained facts }
{
    match facts {
        Some(facts) => Explanation::Segment(facts),
        None => Explanation::Nothing,
    }
}

// Why the index of the file is not built.
fn build_facts_of(
    alloc: Global,
    bytes: &[u8],
    refusal: BuildRefusal,
) -> Result<Option<BuildFacts>, AllocError>
    ensures { IfOk result (λ facts. facts ≡ build_facts_of bytes.now refusal) }
{
    match file_parts(alloc, bytes) {
        Ok(parts) => Ok(build_facts(alloc, &parts, refusal)),
        Err(MapRefusal::Memory) => Err(AllocError),
        Err(_) => Ok(None),
    }
}

fn build_explained(facts: Option<BuildFacts>) -> Explanation
    ensures { result ≡ build_explained facts }
{
    match facts {
        Some(facts) => Explanation::Build(facts),
        None => Explanation::Nothing,
    }
}
