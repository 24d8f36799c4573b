//! What is known of why a map file is refused, as members of a JSON object.
ghost use Rattle.std.specs.Prelude.{◌≡◌, codes, option_map, IfOk, OnOk};
ghost use Rattle.serde_json.specs.Data.{put};
ghost use Rattle.serde_json.specs.View.{members_view, view};
ghost use Rattle.smap_verdicts.specs.Facts.{beginning_name, integer, numbers_value, numbers_where, place_value, printed_value, put_where, with_build, with_explanation, with_found, with_key, with_measure, with_measure_where, with_not_json, with_segment, with_size};
ghost use Rattle.smap_verdicts.specs.Texts.{count};

use crate::as_json::put_text;
use crate::explained::key_name;
use crate::facts_text::found_text;
use crate::measure_text::{printed, quantity_name};
use serde_json::{Map, Value, put};
use smap_explain::{
    Beginning, BuildFacts, Explanation, FoundValue, KeyFacts, Measure, NotJsonFacts, PrintedPlace,
    Quantity, SegmentFacts,
};
use std::alloc::{AllocError, Global};

/// Adds what is known of why a map is refused to the members of its refusal.
#[tactic(auto, unfolding(crate::specs::Facts::with_explanation))]
pub fn put_explanation(
    members: &mut Map<String, Value>,
    alloc: Global,
    explanation: &Explanation,
) -> Result<(), AllocError>
    ensures { OnOk result (members_view members.new.entries
        ≡ with_explanation explanation.now (members_view members.old.entries)) }
{
    match explanation {
        Explanation::Nothing => Ok(()),
        Explanation::TooLarge => put_size(members, alloc),
        Explanation::NotJson(facts) => put_not_json(members, alloc, facts),
        Explanation::NotObject(found) => put_found(members, alloc, found),
        Explanation::Key(facts) => put_key(members, alloc, facts),
        Explanation::Segment(facts) => put_segment(members, alloc, facts),
        Explanation::Build(facts) => put_build_facts(members, alloc, *facts),
    }
}

// Adds how many bytes a map has at most.
fn put_size(members: &mut Map<String, Value>, alloc: Global) -> Result<(), AllocError>
    ensures { OnOk result (members_view members.new.entries
        ≡ with_size (members_view members.old.entries)) }
{
    put(members, alloc, "most", Value::from(67108864u64))
}

// Adds what a file that is no JSON text begins as, and the byte at which reading it stopped.
fn put_not_json(
    members: &mut Map<String, Value>,
    alloc: Global,
    facts: &NotJsonFacts,
) -> Result<(), AllocError>
    ensures { OnOk result (members_view members.new.entries
        ≡ with_not_json facts.now (members_view members.old.entries)) }
{
    let begins_as = beginning_name(facts.begins_as);
    put_text(members, alloc, "beginsAs", begins_as)?;
    match &facts.stop {
        Some(stop) => put(members, alloc, "stoppedAt", Value::from(stop.byte)),
        None => Ok(()),
    }
}

// Adds what stands in the place of another value.
fn put_found(
    members: &mut Map<String, Value>,
    alloc: Global,
    found: &FoundValue,
) -> Result<(), AllocError>
    ensures { OnOk result (members_view members.new.entries
        ≡ with_found found.now (members_view members.old.entries)) }
{
    let found = found_text(alloc, found)?;
    put_text(members, alloc, "found", &found)
}

// Adds a key, its section and its item, what stands there, and the greatest number that may.
fn put_key(
    members: &mut Map<String, Value>,
    alloc: Global,
    facts: &KeyFacts,
) -> Result<(), AllocError>
    ensures { OnOk result (members_view members.new.entries
        ≡ with_key facts.now (members_view members.old.entries)) }
{
    put_text(members, alloc, "key", key_name(facts.key))?;
    put_found(members, alloc, &facts.found)?;
    put_count(members, alloc, "section", facts.section)?;
    put_count(members, alloc, "item", facts.index)?;
    put_count(members, alloc, "most", facts.most)
}

// Adds a number at a key, where there is one.
fn put_count(
    members: &mut Map<String, Value>,
    alloc: Global,
    key: &str,
    number: Option<u64>,
) -> Result<(), AllocError>
    ensures { OnOk result (members_view members.new.entries
        ≡ put_where key.now (option_map count number) (members_view members.old.entries)) }
{
    match number {
        Some(number) => put(members, alloc, key, Value::from(number)),
        None => Ok(()),
    }
}

// Adds the text of a segment, its column and its numbers, and what is asked of which value.
fn put_segment(
    members: &mut Map<String, Value>,
    alloc: Global,
    facts: &SegmentFacts,
) -> Result<(), AllocError>
    ensures { OnOk result (members_view members.new.entries
        ≡ with_segment facts.now (members_view members.old.entries)) }
{
    put_text(members, alloc, "segment", &facts.text)?;
    put_count(members, alloc, "generatedColumn", facts.column)?;
    put_numbers(members, alloc, &facts.numbers)?;
    match facts.measure {
        Some(measure) => put_measure(members, alloc, measure),
        None => Ok(()),
    }
}

fn put_numbers(
    members: &mut Map<String, Value>,
    alloc: Global,
    numbers: &Option<Vec<i32>>,
) -> Result<(), AllocError>
    ensures { OnOk result (members_view members.new.entries
        ≡ put_where (codes "numbers") (numbers_where (option_map (λ list. list.items) numbers.now))
        (members_view members.old.entries)) }
{
    match numbers {
        Some(numbers) => {
            let numbers = numbers_value(alloc, numbers)?;
            put(members, alloc, "numbers", numbers)
        }
        None => Ok(()),
    }
}

fn numbers_value(alloc: Global, numbers: &[i32]) -> Result<Value, AllocError>
    ensures { IfOk result (λ value. view value ≡ numbers_value numbers.now) }
{
    let mut values = Vec::with_capacity(alloc, numbers.len())?;
    for number in numbers {
        values.push(Value::from(*number))?;
    }
    Ok(Value::Array(values))
}

// Adds a value of the segment, what it is, and what it may be.
fn put_measure(
    members: &mut Map<String, Value>,
    alloc: Global,
    measure: Measure,
) -> Result<(), AllocError>
    ensures { OnOk result (members_view members.new.entries
        ≡ with_measure measure (members_view members.old.entries)) }
{
    let Measure {
        quantity,
        value,
        least,
        most,
    } = measure;
    put(
        members,
        alloc,
        "value",
        Value::from(printed(quantity, value)),
    )?;
    put_text(members, alloc, "quantity", quantity_name(quantity))?;
    put_limit(members, alloc, "least", quantity, least)?;
    put_limit(members, alloc, "most", quantity, most)
}

// Adds a limit of the value, where there is one.
fn put_limit(
    members: &mut Map<String, Value>,
    alloc: Global,
    key: &str,
    quantity: Quantity,
    limit: Option<i64>,
) -> Result<(), AllocError>
    ensures { OnOk result (members_view members.new.entries
        ≡ put_where key.now (option_map (printed_value quantity) limit)
        (members_view members.old.entries)) }
{
    match limit {
        Some(limit) => put(members, alloc, key, Value::from(printed(quantity, limit))),
        None => Ok(()),
    }
}

// Adds where a section begins, where the one before it does, and the mapping at fault.
fn put_build_facts(
    members: &mut Map<String, Value>,
    alloc: Global,
    facts: BuildFacts,
) -> Result<(), AllocError>
    ensures { OnOk result (members_view members.new.entries
        ≡ with_build facts (members_view members.old.entries)) }
{
    put_place(members, alloc, "offset", Some(facts.offset))?;
    put_place(members, alloc, "offsetBefore", facts.offset_before)?;
    put_place(members, alloc, "mapping", facts.mapping)
}

// Adds a place, where there is one.
fn put_place(
    members: &mut Map<String, Value>,
    alloc: Global,
    key: &str,
    place: Option<PrintedPlace>,
) -> Result<(), AllocError>
    ensures { OnOk result (members_view members.new.entries
        ≡ put_where key.now (option_map place_value place) (members_view members.old.entries)) }
{
    match place {
        Some(place) => {
            let place = place_value(alloc, place)?;
            put(members, alloc, key, place)
        }
        None => Ok(()),
    }
}

fn place_value(alloc: Global, place: PrintedPlace) -> Result<Value, AllocError>
    ensures { IfOk result (λ value. view value ≡ place_value place) }
{
    let mut members = Map::new(alloc);
    put(&mut members, alloc, "column", Value::from(place.column))?;
    put(&mut members, alloc, "line", Value::from(place.line))?;
    Ok(Value::Object(members))
}

// What a file begins as, in a word.
fn beginning_name(begins_as: Beginning) -> &'static str
    ensures { result.now ≡ beginning_name begins_as }
{
    match begins_as {
        Beginning::Nothing => "nothing",
        Beginning::Gzip => "gzip",
        Beginning::Xz => "xz",
        Beginning::Zstd => "zstd",
        Beginning::Zip => "zip",
        Beginning::Utf16 => "utf-16",
        Beginning::Html => "html",
        Beginning::DataUrl => "data-url",
        Beginning::Script => "javascript",
        Beginning::Json => "json",
        Beginning::Other => "other",
    }
}
