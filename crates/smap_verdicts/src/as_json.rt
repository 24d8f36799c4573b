//! Why a map file is refused, as JSON.
ghost use Rattle.std.specs.Prelude.{◌≡◌, string_bytes, IfOk, OnOk};
ghost use Rattle.serde_json.specs.Data.{no_members, put, string};
ghost use Rattle.serde_json.specs.View.{members_view, view};
ghost use Rattle.serde_json.specs.Written.{compact_text};
ghost use Rattle.smap_verdicts.specs.Private.Put.{part_members, put_all};
ghost use Rattle.smap_verdicts.specs.Refusal.{build_section_member, fault_members, index_members};
ghost use Rattle.smap_verdicts.specs.Refusal.{refusal_members, refusal_value, refused_members, section_member};

use crate::facts_json::put_explanation;
use serde_json::{Map, Value, put};
use smap_codes::Code;
use smap_explain::Explanation;
use smap_record::{BuildRefusal, Fault, MapRefusal};
use std::alloc::{AllocError, Global};

/// The refusal of the map at a path and what is known of why it is refused as JSON, on one line, with no LF. Lines and
/// columns count from 1, bytes, sections, items and indices from 0.
#[tactic(auto, using(crate::proofs::FactsLaws::no_float))]
pub fn refusal_json(
    alloc: Global,
    path: &str,
    refusal: MapRefusal,
    explanation: &Explanation,
) -> Result<String, AllocError>
    ensures { IfOk result (λ text. string_bytes text
        ≡ compact_text (refusal_value path.now refusal explanation.now)) }
{
    let value = refusal_value(alloc, path, refusal, explanation)?;
    value.to_string(alloc)
}

// The same as a value.
fn refusal_value(
    alloc: Global,
    path: &str,
    refusal: MapRefusal,
    explanation: &Explanation,
) -> Result<Value, AllocError>
    ensures { IfOk result (λ value. view value ≡ refusal_value path.now refusal explanation.now) }
{
    let mut members = refusal_members(alloc, path, refusal)?;
    put_explanation(&mut members, alloc, explanation)?;
    Ok(Value::Object(members))
}

// The members of the refusal itself.
fn refusal_members(
    alloc: Global,
    path: &str,
    refusal: MapRefusal,
) -> Result<Map<String, Value>, AllocError>
    ensures { IfOk result (λ members. members_view members.entries
        ≡ refusal_members path.now refusal) }
{
    let mut members = refused_members(alloc, path, refusal.code())?;
    put_parts(&mut members, alloc, refusal)?;
    Ok(members)
}

// How the refusal is called, and of which map it is.
fn refused_members(alloc: Global, path: &str, code: Code) -> Result<Map<String, Value>, AllocError>
    ensures { IfOk result (λ members. members_view members.entries
        ≡ refused_members path.now code no_members) }
{
    let mut members = Map::new(alloc);
    put_text(&mut members, alloc, "name", code.name())?;
    put(&mut members, alloc, "ok", Value::Bool(false))?;
    put_text(&mut members, alloc, "path", path)?;
    put_text(&mut members, alloc, "refusal", code.label())?;
    Ok(members)
}

// Adds the parts of the refusal, where it has some.
fn put_parts(
    members: &mut Map<String, Value>,
    alloc: Global,
    refusal: MapRefusal,
) -> Result<(), AllocError>
    ensures { OnOk result (members_view members.new.entries
        ≡ put_all (part_members refusal) (members_view members.old.entries)) }
{
    match refusal {
        MapRefusal::SectionOffset(section) | MapRefusal::Nested(section) => {
            put_section(members, alloc, section)
        }
        MapRefusal::Text(section, fault) => {
            put_fault(members, alloc, fault)?;
            put_section(members, alloc, section)
        }
        MapRefusal::Build(refusal) => put_build(members, alloc, refusal),
        _ => Ok(()),
    }
}

// Adds the first fault of the mappings of a section.
fn put_fault(
    members: &mut Map<String, Value>,
    alloc: Global,
    fault: Fault,
) -> Result<(), AllocError>
    ensures { OnOk result (members_view members.new.entries
        ≡ put_all (fault_members fault no_members) (members_view members.old.entries)) }
{
    let kind = fault.kind.code();
    put(members, alloc, "byte", Value::from(fault.byte))?;
    put_text(members, alloc, "fault", kind.label())?;
    put_text(members, alloc, "faultName", kind.name())?;
    put(
        members,
        alloc,
        "line",
        Value::from(u64::from(fault.line) + 1),
    )
}

// Adds why the index is not built, with the section, where there is one.
fn put_build(
    members: &mut Map<String, Value>,
    alloc: Global,
    refusal: BuildRefusal,
) -> Result<(), AllocError>
    ensures { OnOk result (members_view members.new.entries
        ≡ put_all (index_members refusal (build_section_member refusal))
        (members_view members.old.entries)) }
{
    let code = refusal.code();
    put_text(members, alloc, "index", code.label())?;
    put_text(members, alloc, "indexName", code.name())?;
    match refusal {
        BuildRefusal::SectionOrder(section)
        | BuildRefusal::SectionOverlap(section)
        | BuildRefusal::PositionRange(section) => put_section(members, alloc, section),
        BuildRefusal::Interval | BuildRefusal::Memory => Ok(()),
    }
}

fn put_section(
    members: &mut Map<String, Value>,
    alloc: Global,
    section: u64,
) -> Result<(), AllocError>
    ensures { OnOk result (members_view members.new.entries
        ≡ put_all (section_member section) (members_view members.old.entries)) }
{
    put(members, alloc, "section", Value::from(section))
}

/// Adds a text at a key.
pub fn put_text(
    members: &mut Map<String, Value>,
    alloc: Global,
    key: &str,
    text: &str,
) -> Result<(), AllocError>
    ensures { OnOk result (members_view members.new.entries
        ≡ put key.now (string text.now) (members_view members.old.entries)) }
{
    put(members, alloc, key, Value::try_from_str(alloc, text)?)
}
