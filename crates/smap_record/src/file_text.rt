//! From the bytes of a map file to its JSON value.
ghost use Rattle.std.specs.Prelude.{◌≡◌, ◌<◌, Err, length, ok_or};
ghost use Rattle.serde_json.specs.View.{members_view, view};
ghost use Rattle.smap_record.specs.FileText.{json_text, value_of_file, without_guard_line, without_mark};
ghost use Rattle.smap_record.specs.Limits.{most_file_bytes};
ghost use Rattle.smap_record.specs.Record.{members_in};
ghost use Rattle.smap_record.specs.Given.{GivesRead};
ghost use Rattle.smap_record.specs.declared.refusal.MapRefusal.TheVariants.{NotJson, TooLarge};

use crate::MOST_FILE_BYTES;
use crate::json::object;
use crate::refusal::MapRefusal;
use serde_json::{Map, Value};
use std::alloc::Global;

/// The members of the object that is the JSON value of a file, where that is not too large. No memory is taken before
/// it is known to be so.
pub fn file_members(alloc: Global, bytes: &[u8]) -> Result<Map<String, Value>, MapRefusal>
    ensures members { GivesRead (λ members. members_view members.entries) result
        (members_in bytes.now) }
    ensures too_large { most_file_bytes < length bytes.now → result ≡ Err TooLarge }
{
    if bytes.len() > MOST_FILE_BYTES {
        return Err(MapRefusal::TooLarge);
    }
    match object(file_value(alloc, bytes)?) {
        Some(members) => Ok(members),
        None => Err(MapRefusal::NotObject),
    }
}

fn file_value(alloc: Global, bytes: &[u8]) -> Result<Value, MapRefusal>
    ensures { GivesRead view result (ok_or (value_of_file bytes.now) NotJson) }
{
    match Value::from_slice(alloc, json_text(bytes)) {
        Ok(value) => Ok(value),
        Err(error) if error.is_memory() => Err(MapRefusal::Memory),
        Err(_) => Err(MapRefusal::NotJson),
    }
}

/// What stands after a byte order mark of UTF-8 and a guard line that begins with the four characters `)]}'`: the part of
/// a file that is to be JSON.
pub fn json_text(bytes: &[u8]) -> &[u8]
    ensures { result.now ≡ json_text bytes.now }
{
    without_guard_line(without_mark(bytes))
}

/// The bytes after a byte order mark of UTF-8, where one stands there.
pub fn without_mark(bytes: &[u8]) -> &[u8]
    ensures { result.now ≡ without_mark bytes.now }
{
    if bytes.starts_with(&[0xEF, 0xBB, 0xBF]) {
        &bytes[3..]
    } else {
        bytes
    }
}

// The bytes after a guard line, where one stands there.
fn without_guard_line(bytes: &[u8]) -> &[u8]
    ensures { result.now ≡ without_guard_line bytes.now }
{
    if !bytes.starts_with(b")]}'") {
        return bytes;
    }
    match bytes.iter().position(|&byte| byte == b'\n') {
        Some(end) => &bytes[end + 1..],
        None => &[],
    }
}
