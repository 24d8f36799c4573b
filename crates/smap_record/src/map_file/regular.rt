//! A map that no file was read for.
ghost use Rattle.std.specs.Prelude.{◌≡◌, ◌∷◌, [], None, true, IfOk, length, map, option_map, string_bytes};
ghost use Rattle.std.specs.List.{All};
ghost use Rattle.smap_mappings.specs.Mappings.{mappings_of};
ghost use Rattle.smap_mappings.specs.Within.{IsWithin};
ghost use Rattle.smap_index.specs.Faults.{is_interval, part_fault};
ghost use Rattle.smap_index.specs.Parts.{whole_text};
ghost use Rattle.smap_record.specs.ReadBack.{IsRegularMap};
ghost use Rattle.smap_record.specs.Regular.{regular_map};
ghost use Rattle.smap_record.specs.Sources.{source_of};

use super::MapFile;
use crate::entry::SourceEntry;
use crate::joined::part;
use crate::section::SectionPlace;
use smap_index::laws::one_text_is_its_mappings;
use smap_index::{BuildRefusal, Index, MarkedText};
use std::alloc::{AllocError, Global};

impl MapFile {
    /// The regular map with these sources, these names, this generated file and this mappings text, and with an index as
    /// `read` builds one. The sources keep their names: none is resolved.
    pub fn regular(
        alloc: Global,
        sources: Vec<SourceEntry>,
        names: Vec<String>,
        file: Option<String>,
        mappings: String,
        k: u32,
    ) -> Result<MapFile, AllocError>
        requires regular { IsRegularMap (length sources.items) (length names.items)
            (string_bytes mappings) }
        requires interval { is_interval k ≡ true }
        ensures { IfOk result (λ made. made
            ≡ regular_map (map source_of sources.items) (map string_bytes names.items)
            (option_map string_bytes file) (string_bytes mappings) k) }
    {
        let text = checked(alloc, mappings, sources.len() as u32, names.len() as u32, k);
        one_text_is_its_mappings();
        Ok(MapFile {
            index: index_of(alloc, text)?,
            sources,
            names,
            file,
            sections: 1,
        })
    }
}

// A text that a map with so many sources and names may have, with its checkpoints at this interval.
fn checked(alloc: Global, text: String, sources: u32, names: u32, k: u32) -> MarkedText
    requires { IsRegularMap sources names (string_bytes text) }
    ensures text { result.text ≡ string_bytes text }
    ensures interval { result.marks.k ≡ k }
    ensures within { All (IsWithin sources names) (mappings_of result.text) }
{
    match MarkedText::check(alloc, text, sources, names, k) {
        Ok(marked) => marked,
        Err(_) => unreachable!("a regular map may have the text"),
    }
}

// The index of a text that is the one part.
fn index_of(alloc: Global, marked: MarkedText) -> Result<Index, AllocError>
    requires sound { part_fault (whole_text marked.text ∷ []) ≡ None }
    requires interval { is_interval marked.marks.k ≡ true }
    ensures parts { IfOk result (λ index. index.parts ≡ whole_text marked.text ∷ []) }
    ensures interval { IfOk result (λ index. index.k ≡ marked.marks.k) }
{
    let (text, marks) = marked.into_fields();
    let parts = vec![in alloc; part(SectionPlace::START, text)]?;
    match Index::of_marks(parts, marks) {
        Ok(index) => Ok(index),
        Err(refusal) => Err(no_memory(refusal)),
    }
}

// Parts without a fault are refused only where memory runs out.
fn no_memory(_refusal: BuildRefusal) -> AllocError
    requires { _refusal ≡ BuildRefusal.Memory }
{
    AllocError
}
