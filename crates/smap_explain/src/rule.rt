//! What the keys of a section's map are to hold, and what is wrong with what they hold.
ghost use Rattle.std.specs.Prelude.{◌≡◌, map, position};
ghost use Rattle.serde_json.specs.View.{members_view, view};
ghost use Rattle.smap_explain.specs.Rule.{asked_key, greatest_below, is_needed, is_wrong_item, key_of, key_text, most_in, most_item, rule_of, wrong_in, wrong_list, wrong_text, wrong_value};

use crate::explanation::Key;
use crate::sections::{field, list, listed};
use serde_json::{Map, Value};

/// A key of a section's map.
#[derive(Clone, Copy)]
pub enum MapKey {
    Sources,
    Names,
    SourcesContent,
    IgnoreList,
    OldIgnoreList,
    SourceRoot,
    Mappings,
}

/// What the items of a list are to be.
#[derive(Clone, Copy)]
pub enum ItemRule {
    Text,
    TextOrNull,
    IndexBelow(u64),
}

/// What a value is to be.
#[derive(Clone, Copy)]
pub enum Rule {
    Text,
    ListOf(ItemRule),
}

/// What is wrong: the value itself, or this item of it, from 0.
#[derive(Clone, Copy)]
pub enum Wrong {
    Value,
    Item(u64),
}

/// The key that is asked: the older one of the ignored sources, where the newer one is absent.
pub fn asked_key(key: MapKey, members: &Map<String, Value>) -> MapKey
    ensures { result ≡ asked_key key (members_view members.now.entries) }
{
    match key {
        MapKey::IgnoreList => match field(members, "ignoreList") {
            Some(_) => MapKey::IgnoreList,
            None => MapKey::OldIgnoreList,
        },
        other => other,
    }
}

/// What is wrong with what stands at a key.
pub fn wrong_in(key: MapKey, members: &Map<String, Value>) -> Option<Wrong>
    ensures { result ≡ wrong_in key (members_view members.now.entries) }
{
    match field(members, key_text(key)) {
        Some(value) => wrong_value(rule_of(key, members), value),
        None => {
            if is_needed(key) {
                Some(Wrong::Value)
            } else {
                None
            }
        }
    }
}

/// What a key is to hold.
pub fn rule_of(key: MapKey, members: &Map<String, Value>) -> Rule
    ensures { result ≡ rule_of key (members_view members.now.entries) }
{
    match key {
        MapKey::Sources => Rule::ListOf(ItemRule::TextOrNull),
        MapKey::Names => Rule::ListOf(ItemRule::Text),
        MapKey::SourcesContent => Rule::ListOf(ItemRule::TextOrNull),
        MapKey::IgnoreList => Rule::ListOf(ItemRule::IndexBelow(listed(members, "sources"))),
        MapKey::OldIgnoreList => Rule::ListOf(ItemRule::IndexBelow(listed(members, "sources"))),
        MapKey::SourceRoot => Rule::Text,
        MapKey::Mappings => Rule::Text,
    }
}

// Whether a key may not be absent.
fn is_needed(key: MapKey) -> bool
    ensures { result ≡ is_needed key }
{
    match key {
        MapKey::Sources => true,
        MapKey::Names => false,
        MapKey::SourcesContent => false,
        MapKey::IgnoreList => false,
        MapKey::OldIgnoreList => false,
        MapKey::SourceRoot => false,
        MapKey::Mappings => true,
    }
}

/// The text of a key.
pub fn key_text(key: MapKey) -> &'static str
    ensures { result.now ≡ key_text key }
{
    match key {
        MapKey::Sources => "sources",
        MapKey::Names => "names",
        MapKey::SourcesContent => "sourcesContent",
        MapKey::IgnoreList => "ignoreList",
        MapKey::OldIgnoreList => "x_google_ignoreList",
        MapKey::SourceRoot => "sourceRoot",
        MapKey::Mappings => "mappings",
    }
}

/// The key, as it is reported.
pub fn key_of(key: MapKey) -> Key
    ensures { result ≡ key_of key }
{
    match key {
        MapKey::Sources => Key::Sources,
        MapKey::Names => Key::Names,
        MapKey::SourcesContent => Key::SourcesContent,
        MapKey::IgnoreList => Key::IgnoreList,
        MapKey::OldIgnoreList => Key::OldIgnoreList,
        MapKey::SourceRoot => Key::SourceRoot,
        MapKey::Mappings => Key::Mappings,
    }
}

fn wrong_value(rule: Rule, value: &Value) -> Option<Wrong>
    ensures { result ≡ wrong_value rule (view value.now) }
{
    match rule {
        Rule::Text => wrong_text(value),
        Rule::ListOf(items) => wrong_list(items, value),
    }
}

fn wrong_text(value: &Value) -> Option<Wrong>
    ensures { result ≡ wrong_text (view value.now) }
{
    match value.as_str() {
        Some(_) => None,
        None => Some(Wrong::Value),
    }
}

fn wrong_list(rule: ItemRule, value: &Value) -> Option<Wrong>
    ensures { result ≡ wrong_list rule (view value.now) }
{
    match list(value) {
        Some(items) => match first_wrong_item(rule, items) {
            Some(index) => Some(Wrong::Item(index as u64)),
            None => None,
        },
        None => Some(Wrong::Value),
    }
}

fn first_wrong_item(rule: ItemRule, items: &[Value]) -> Option<usize>
    ensures { result ≡ position (is_wrong_item rule) (map view items.now) }
{
    items.iter().position(|item| is_wrong_item(rule, item))
}

fn is_wrong_item(rule: ItemRule, item: &Value) -> bool
    ensures { result ≡ is_wrong_item rule (view item.now) }
{
    match rule {
        ItemRule::Text => !item.is_string(),
        ItemRule::TextOrNull => match item {
            Value::Null => false,
            Value::String(_) => false,
            _ => true,
        },
        ItemRule::IndexBelow(limit) => match item.as_u64() {
            Some(number) => number >= limit,
            None => true,
        },
    }
}

/// The greatest number that a wrong item might have been, where there is one.
pub fn most_in(wrong: Wrong, rule: Rule) -> Option<u64>
    ensures { result ≡ most_in wrong rule }
{
    match wrong {
        Wrong::Value => None,
        Wrong::Item(_) => most_item(rule),
    }
}

fn most_item(rule: Rule) -> Option<u64>
    ensures { result ≡ most_item rule }
{
    match rule {
        Rule::ListOf(ItemRule::IndexBelow(limit)) => greatest_below(limit),
        Rule::ListOf(ItemRule::Text) => None,
        Rule::ListOf(ItemRule::TextOrNull) => None,
        Rule::Text => None,
    }
}

fn greatest_below(limit: u64) -> Option<u64>
    ensures { result ≡ greatest_below limit }
{
    if limit == 0 { None } else { Some(limit - 1) }
}
