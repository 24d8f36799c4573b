//! The debug id of a map (the proposal of debug ids for ECMA-426): a text that ties a map to its generated file.
ghost use Rattle.std.specs.Prelude.{◌≡◌, ◌<◌, length, option_and_then, option_map, string_bytes, IfOk, OnErr, OnOk};
ghost use Rattle.serde_json.specs.Data.{member, no_members, object, string};
ghost use Rattle.serde_json.specs.Find.{as_str};
ghost use Rattle.serde_json.specs.View.{members_view, view};
ghost use Rattle.serde_json.specs.Written.{compact_text};
ghost use Rattle.smap_record.specs.DebugId.{debug_id_in, id_member, with_debug_id};
ghost use Rattle.smap_record.specs.Private.SameRecord.{IsSameRecord};

use crate::fields::take;
use crate::json::text;
use serde_json::{Map, Value, json};
use std::alloc::{AllocError, Global};

/// Moves the debug id out of the members of a map file, where it has one. What the map states stays.
#[tactic(auto, unfolding(crate::specs::DebugId::debug_id_in))]
pub fn take_debug_id(members: &mut Map<String, Value>) -> Option<String>
    ensures id { option_map string_bytes result ≡ debug_id_in (members_view members.old.entries) }
    ensures record { IsSameRecord
        (members_view members.old.entries) (members_view members.new.entries) }
{
    let newer = text_of(take(members, "debugId"));
    let older = text_of(take(members, "debug_id"));
    newer.or(older)
}

// The text that a value is, where there is one.
fn text_of(value: Option<Value>) -> Option<String>
    ensures { option_map string_bytes result
        ≡ option_and_then as_str (option_map view value) }
{
    text(value?)
}

/// Writes a debug id into the text of a written map, as the last member of its object. Where memory
/// runs out, the text stays.
pub fn put_debug_id(alloc: Global, written: &mut Vec<u8>, id: &str) -> Result<(), AllocError>
    requires some { 0 < length written.old.items }
    ensures put { OnOk result (written.new.items ≡ with_debug_id id.now written.old.items) }
    ensures stays { OnErr result (written.new.items ≡ written.old.items) }
{
    let object = object_of(alloc, id)?;
    let member = &object.as_bytes()[1..];
    let end = written.len() - 1;
    written.reserve_exact(member.len())?;
    written.extend_from_slice(member)?;
    written[end] = b',';
    Ok(())
}

// The object that has this debug id alone.
fn object_of(alloc: Global, id: &str) -> Result<String, AllocError>
    ensures { IfOk result (λ text. string_bytes text
        ≡ compact_text (object (id_member id.now))) }
{
    let value = value_of(alloc, id)?;
    value.to_string(alloc)
}

fn value_of(alloc: Global, id: &str) -> Result<Value, AllocError>
    ensures { IfOk result (λ value. view value ≡ object (id_member id.now)) }
{
    json!(in alloc; { "debugId": id })
}
