//! JSON values taken apart: their texts are moved out, and not copied.
ghost use Rattle.std.specs.Prelude.{◌≡◌, map, option_map, string_bytes, IfOk};
ghost use Rattle.serde_json.specs.Find.{as_object, as_str};
ghost use Rattle.serde_json.specs.View.{members_view, view};
ghost use Rattle.smap_record.specs.Json.{list_of, number_below, text_or_null};
ghost use Rattle.smap_record.specs.Private.Seen.{texts_seen};

use serde_json::{Map, Value};
use std::alloc::{AllocError, Global};

/// The members of the object that a value is.
pub fn object(value: Value) -> Option<Map<String, Value>>
    ensures { option_map (λ members. members_view members.entries) result ≡ as_object (view value) }
{
    match value {
        Value::Object(members) => Some(members),
        _ => None,
    }
}

pub fn text(value: Value) -> Option<String>
    ensures { option_map string_bytes result ≡ as_str (view value) }
{
    match value {
        Value::String(text) => Some(text),
        _ => None,
    }
}

pub fn text_or_null(value: Value) -> Option<Option<String>>
    ensures { option_map (option_map string_bytes) result ≡ text_or_null (view value) }
{
    match value {
        Value::Null => Some(None),
        Value::String(text) => Some(Some(text)),
        _ => None,
    }
}

pub fn texts(alloc: Global, value: Value) -> Result<Option<Vec<String>>, AllocError>
    ensures { IfOk result (λ list. option_map (λ texts. map string_bytes texts.items) list
        ≡ list_of as_str (view value)) }
{
    let Value::Array(items) = value else {
        return Ok(None);
    };
    let mut texts = Vec::with_capacity(alloc, items.len())?;
    for item in items {
        let Some(text) = text(item) else {
            return Ok(None);
        };
        texts.push(text)?;
    }
    Ok(Some(texts))
}

/// A list of texts and nulls.
pub fn nullable_texts(
    alloc: Global,
    value: Value,
) -> Result<Option<Vec<Option<String>>>, AllocError>
    ensures { IfOk result (λ list. option_map (λ texts. texts_seen texts.items) list
        ≡ list_of text_or_null (view value)) }
{
    let Value::Array(items) = value else {
        return Ok(None);
    };
    let mut texts = Vec::with_capacity(alloc, items.len())?;
    for item in items {
        let Some(text) = text_or_null(item) else {
            return Ok(None);
        };
        texts.push(text)?;
    }
    Ok(Some(texts))
}

/// The index below `limit` that a value is.
pub fn index_below(limit: usize, value: &Value) -> Option<usize>
    ensures { result ≡ number_below limit (view value.now) }
{
    match value.as_u64() {
        Some(number) if number < limit as u64 => Some(number as usize),
        _ => None,
    }
}
