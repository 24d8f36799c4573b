//! The sources of a map, from what its sections state of them.
ghost use Rattle.std.specs.Prelude.{◌≡◌, ◌⊎◌, ◌++◌, false, drop, is_some, map, flat_map, option_copied, option_map, slice_get, string_bytes, unwrap_or, IfOk, IfErr, IsTrue};
ghost use Rattle.std.specs.Option.{option_flatten};
ghost use Rattle.std.specs.Vec.Iter.{into_iter_items};
ghost use Rattle.smap_resolve.specs.SourceName.{name_of, source_name};
ghost use Rattle.smap_record.specs.Private.Seen.{sources_seen, texts_seen};
ghost use Rattle.smap_record.specs.Sources.{source_of, sources_stated, NamesASource};
ghost use Rattle.smap_record.specs.declared.refusal.MapRefusal.TheVariants as refusals;

use crate::entry::SourceEntry;
use crate::refusal::MapRefusal;
use crate::section::SectionSources;
use smap_resolve::{SourceName, resolve};
use std::alloc::Global;
use std::vec::IntoIter;
use url::Url;

/// The sources of the sections, in order.
pub fn sources(
    alloc: Global,
    sections: Vec<SectionSources>,
    base: Option<&Url>,
) -> Result<Vec<SourceEntry>, MapRefusal>
    ensures list { IfOk result (λ sources. map source_of sources.items
        ≡ flat_map (sources_stated (option_copied base.entry)) (map sources_seen sections.items)) }
    ensures refused { IfErr result (λ refusal. (refusal ≡ refusals.Memory)
        ⊎ ((refusal ≡ refusals.Url) × NamesASource
        (flat_map (sources_stated (option_copied base.entry)) (map sources_seen sections.items)))) }
{
    let mut sources = Vec::new(alloc);
    for section in sections {
        add_sources(alloc, section, base, &mut sources)?;
    }
    Ok(sources)
}

// Adds the sources of a section to those before them. Each has its name, and by place its content and its
// flag; a source beyond the contents has none.
fn add_sources(
    alloc: Global,
    section: SectionSources,
    base: Option<&Url>,
    sources: &mut Vec<SourceEntry>,
) -> Result<(), MapRefusal>
    ensures list { IfOk result (λ _. map source_of sources.new.items
        ≡ map source_of sources.old.items
        ++ sources_stated (option_copied base.entry) (sources_seen section)) }
    ensures refused { IfErr result (λ refusal. (refusal ≡ refusals.Memory)
        ⊎ ((refusal ≡ refusals.Url)
        × NamesASource (sources_stated (option_copied base.entry) (sources_seen section)))) }
{
    let SectionSources {
        root,
        texts,
        contents,
        ignored,
    } = section;
    let mut contents = contents.into_iter();
    let mut flags = ignored.into_iter();
    for text in texts {
        let content = next_content(&mut contents);
        let ignored = next_flag(&mut flags);
        let name = source_name(alloc, text_of(&root), text, base)?;
        sources.push(SourceEntry {
            name,
            content,
            ignored,
        })?;
    }
    Ok(())
}

fn source_name(
    alloc: Global,
    root: Option<&str>,
    text: Option<String>,
    base: Option<&Url>,
) -> Result<Option<SourceName>, MapRefusal>
    ensures name { IfOk result (λ name. option_map name_of name
        ≡ option_map (λ t. source_name (option_copied root.entry) t (option_copied base.entry))
        (option_map string_bytes text)) }
    ensures refused { IfErr result (λ refusal. (refusal ≡ refusals.Memory)
        ⊎ ((refusal ≡ refusals.Url) × IsTrue (is_some text))) }
{
    match text {
        Some(text) => Ok(Some(resolve(alloc, root, &text, base)?)),
        None => Ok(None),
    }
}

// The text of a root, where there is one.
pub fn text_of(root: &Option<String>) -> Option<&str>
    ensures { option_copied result ≡ option_map string_bytes root.now }
{
    match root {
        Some(root) => Some(root.as_str()),
        None => None,
    }
}

fn next_content(contents: &mut IntoIter<Option<String>>) -> Option<String>
    ensures content { option_map string_bytes result
        ≡ option_flatten (slice_get (texts_seen (into_iter_items contents.old)) 0) }
    ensures onward { into_iter_items contents.new ≡ drop 1 (into_iter_items contents.old) }
{
    match contents.next() {
        Some(content) => content,
        None => None,
    }
}

fn next_flag(flags: &mut IntoIter<bool>) -> bool
    ensures flag { result ≡ unwrap_or (slice_get (into_iter_items flags.old) 0) false }
    ensures onward { into_iter_items flags.new ≡ drop 1 (into_iter_items flags.old) }
{
    match flags.next() {
        Some(flag) => flag,
        None => false,
    }
}
