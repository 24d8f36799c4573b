//! What a JSON value is.
ghost use Rattle.std.specs.Prelude.{◌≡◌, option_copied, option_map, IfOk};
ghost use Rattle.serde_json.specs.View.{number_view, view};
ghost use Rattle.smap_explain.specs.Found.{found, found_seen, number_found, value_found};

use crate::explanation::FoundValue;
use crate::front_of_text::front_of_text;
use serde_json::{Number, Value};
use std::alloc::{AllocError, Global};

/// What stands at a place where this value stands, or none.
pub fn found_in(alloc: Global, value: Option<&Value>) -> Result<FoundValue, AllocError>
    ensures { IfOk result (λ given. found_seen given
        ≡ found (option_map view (option_copied value.entry))) }
{
    match value {
        Some(value) => found_value(alloc, value),
        None => Ok(FoundValue::Nothing),
    }
}

fn found_value(alloc: Global, value: &Value) -> Result<FoundValue, AllocError>
    ensures { IfOk result (λ given. found_seen given ≡ value_found (view value.now)) }
{
    match value {
        Value::Null => Ok(FoundValue::Null),
        Value::Bool(value) => Ok(FoundValue::Boolean(*value)),
        Value::Number(value) => Ok(found_number(value)),
        Value::String(text) => Ok(FoundValue::Text(front_of_text(alloc, text.as_bytes())?)),
        Value::Array(items) => Ok(FoundValue::List(items.len() as u64)),
        Value::Object(_) => Ok(FoundValue::Object),
    }
}

fn found_number(number: &Number) -> FoundValue
    ensures { found_seen result ≡ number_found (number_view number.now) }
{
    match number.as_u64() {
        Some(value) => FoundValue::Whole(value),
        None => FoundValue::Number,
    }
}
