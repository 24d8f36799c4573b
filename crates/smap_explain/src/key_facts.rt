//! What stands at the key for which a map file is refused.
ghost use Rattle.std.specs.Prelude.{◌≡◌, option_map, IfOk};
ghost use Rattle.std.specs.Option.{option_or};
ghost use Rattle.serde_json.specs.View.{members_view};
ghost use Rattle.smap_explain.specs.KeyFacts.{file_facts, key_facts, key_seen, map_key_facts};
ghost use Rattle.smap_explain.specs.declared.rule.MapKey.TheVariants.{SourceRoot};

use crate::explanation::{Key, KeyFacts};
use crate::key_place::{at_key, key_reported};
use crate::map_key_facts::map_key_facts;
use crate::rule::MapKey;
use crate::section_facts::{nested_facts, offset_facts, sections_facts};
use crate::sections::{field, member};
use serde_json::{Map, Value};
use smap_record::MapRefusal;
use std::alloc::{AllocError, Global};

/// What stands at the key for which a map with these members is refused so; nothing where the refusal is of no key.
#[tactic(auto, unfolding(crate::specs::KeyFacts::key_facts))]
pub fn key_facts(
    alloc: Global,
    members: &Map<String, Value>,
    refusal: MapRefusal,
) -> Result<Option<KeyFacts>, AllocError>
    ensures { IfOk result (λ facts. option_map key_seen facts
        ≡ key_facts (members_view members.now.entries) refusal) }
{
    match refusal {
        MapRefusal::Version => {
            let version = member(members, "version");
            Ok(Some(key_reported(alloc, at_key(Key::Version), version)?))
        }
        MapRefusal::Sections => sections_facts(alloc, members),
        MapRefusal::SectionOffset(number) => offset_facts(alloc, members, number),
        MapRefusal::Nested(number) => nested_facts(alloc, members, number),
        MapRefusal::Sources => map_key_facts(alloc, members, MapKey::Sources),
        MapRefusal::Names => map_key_facts(alloc, members, MapKey::Names),
        MapRefusal::SourcesContent => map_key_facts(alloc, members, MapKey::SourcesContent),
        MapRefusal::IgnoreList => map_key_facts(alloc, members, MapKey::IgnoreList),
        MapRefusal::FileOrRoot => file_or_root_facts(alloc, members),
        MapRefusal::Mappings => map_key_facts(alloc, members, MapKey::Mappings),
        MapRefusal::TooLarge
        | MapRefusal::NotJson
        | MapRefusal::NotObject
        | MapRefusal::Text(_, _)
        | MapRefusal::Build(_)
        | MapRefusal::Url
        | MapRefusal::Memory
        | MapRefusal::LongNames => Ok(None),
    }
}

// `file`, where it is no text, and else the first `sourceRoot` that is none.
fn file_or_root_facts(
    alloc: Global,
    members: &Map<String, Value>,
) -> Result<Option<KeyFacts>, AllocError>
    ensures { IfOk result (λ facts. option_map key_seen facts
        ≡ option_or (file_facts (members_view members.now.entries))
        (map_key_facts SourceRoot (members_view members.now.entries))) }
{
    match file_facts(alloc, members)? {
        Some(facts) => Ok(Some(facts)),
        None => map_key_facts(alloc, members, MapKey::SourceRoot),
    }
}

fn file_facts(alloc: Global, members: &Map<String, Value>) -> Result<Option<KeyFacts>, AllocError>
    ensures { IfOk result (λ facts. option_map key_seen facts
        ≡ file_facts (members_view members.now.entries)) }
{
    let Some(file) = field(members, "file") else {
        return Ok(None);
    };
    match file.as_str() {
        Some(_) => Ok(None),
        None => Ok(Some(key_reported(alloc, at_key(Key::File), Some(file))?)),
    }
}
