//! A place of a map file at which something stands.
ghost use Rattle.std.specs.Prelude.{◌≡◌, option_copied, option_map, IfOk};
ghost use Rattle.serde_json.specs.View.{view};
ghost use Rattle.smap_explain.specs.KeyFacts.{at_item, at_key, in_offset, in_section, key_seen, key_reported};

use crate::explanation::{Key, KeyFacts};
use crate::found::found_in;
use serde_json::Value;
use smap_mappings::LIMIT;
use std::alloc::{AllocError, Global};

/// A place of a map file: a key, the section that it is of, an item of the list at it, and the greatest number there.
#[derive(Clone, Copy)]
pub struct KeyPlace {
    pub key: Key,
    pub section: Option<u64>,
    pub index: Option<u64>,
    pub most: Option<u64>,
}

/// The place of a key of the outer object.
pub fn at_key(key: Key) -> KeyPlace
    ensures { result ≡ at_key key }
{
    KeyPlace {
        key,
        section: None,
        index: None,
        most: None,
    }
}

/// The place of an item of the list at such a key.
pub fn at_item(key: Key, index: u64) -> KeyPlace
    ensures { result ≡ at_item key index }
{
    KeyPlace {
        key,
        section: None,
        index: Some(index),
        most: None,
    }
}

/// The place of a key in a section, whose number counts from 0.
pub fn in_section(key: Key, section: u64) -> KeyPlace
    ensures { result ≡ in_section key section }
{
    KeyPlace {
        key,
        section: Some(section),
        index: None,
        most: None,
    }
}

/// The place of a number in the offset of a section.
pub fn in_offset(key: Key, section: u64) -> KeyPlace
    ensures { result ≡ in_offset key section }
{
    KeyPlace {
        key,
        section: Some(section),
        index: None,
        most: Some(u64::from(LIMIT)),
    }
}

/// What stands at a place.
pub fn key_reported(
    alloc: Global,
    place: KeyPlace,
    value: Option<&Value>,
) -> Result<KeyFacts, AllocError>
    ensures { IfOk result (λ facts. key_seen facts
        ≡ key_reported place (option_map view (option_copied value.entry))) }
{
    let found = found_in(alloc, value)?;
    Ok(KeyFacts {
        key: place.key,
        section: place.section,
        index: place.index,
        found,
        most: place.most,
    })
}
