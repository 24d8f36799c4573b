//! A map that maps compose to.
ghost use Rattle.std.specs.Prelude.{◌≡◌, ◌≤◌, ℕ, option_copied, None, true, false, length, string_bytes, IfOk};
ghost use Rattle.std.specs.List.{All};
ghost use Rattle.smap_mappings.specs.Canonical.{canonical_text};
ghost use Rattle.smap_mappings.specs.Encode.{is_text_too_long, list_fault};
ghost use Rattle.smap_mappings.specs.Exact.{GivesOr};
ghost use Rattle.smap_mappings.specs.Mappings.{mappings_of};
ghost use Rattle.smap_mappings.specs.Within.{IsWithin};
ghost use Rattle.smap_index.specs.Faults.{is_interval};
ghost use Rattle.smap_index.specs.Parts.{joined};
ghost use Rattle.smap_record.specs.Limits.{most_listed, most_file_bytes};
ghost use Rattle.smap_record.specs.ReadBack.{IsRegularMap, ReadsBackAs};
ghost use Rattle.smap_record.specs.Written.{written};
ghost use Rattle.smap_compose.specs.AsMap.{as_map};
ghost use Rattle.smap_compose.specs.Composition.{unless_too_long};
ghost use Rattle.smap_compose.specs.LeftOut.{contents_where};
ghost use Rattle.smap_compose.specs.Private.Parts.{AreFit, parts_seen};
ghost use Rattle.smap_compose.specs.declared.refusal.ComposeRefusal.TheVariants.{Memory};

use crate::length::is_text_too_long;
use crate::listing::{owned_names, owned_sources};
use crate::parts::Parts;
use crate::refusal::ComposeRefusal;
use smap_index::laws::one_text_is_its_mappings;
use smap_mappings::laws::lists_in_order_have_no_fault;
use smap_mappings::{MOST_MAPPINGS_BYTES, TextWriter};
use smap_record::{MapFile, Mapping, SourceEntry, copied_text, write_owned, write_record};
use std::alloc::{AllocError, Global};
use std::marker::Model;

/// Holds the mappings, and the sources and names of all maps.
#[derive(Drop)]
pub struct Composed {
    mappings: Vec<Mapping>,
    sources: Vec<SourceEntry>,
    names: Vec<String>,
    file: Option<String>,
}

impl Model for Composed {
    ghost use Rattle.smap_compose.specs.AsMap.{as_map};
    ghost use Rattle.smap_compose.specs.Composition.{Composition};
    ghost use Rattle.smap_compose.specs.Composed.{composed_seen, IsComposed};

    ghost Value = { Composition };

    ghost view = { composed_seen };

    ghost invariant = { IsComposed };
}

/// The map of these parts, with texts of its own. The contents may be left out.
pub fn composed_map(
    alloc: Global,
    parts: Parts<'_>,
    without_contents: bool,
) -> Result<Composed, ComposeRefusal>
    requires { AreFit parts }
    ensures { GivesOr Memory (λ composed. composed) result
        (unless_too_long (contents_where without_contents (parts_seen parts.entry))) }
{
    if is_text_too_long(&parts.mappings) {
        return Err(ComposeRefusal::TooLarge);
    }
    let listing = parts.listing;
    Ok(Composed {
        mappings: parts.mappings,
        sources: owned_sources(alloc, listing.sources, without_contents)?,
        names: owned_names(alloc, &listing.names)?,
        file: copied_text(alloc, listing.file)?,
    })
}

// For how many bytes of a mapping room is made at first. Most have fewer.
const ROOM_OF_MAPPING: usize = 8;

// The canonical text of these mappings.
fn text_of(alloc: Global, mappings: &[Mapping]) -> Result<String, AllocError>
    requires no_fault { list_fault mappings.now ≡ None }
    requires short { is_text_too_long mappings.now ≡ false }
    ensures text { IfOk result (λ text. string_bytes text ≡ canonical_text mappings.now) }
    ensures decodes { IfOk result (λ text. mappings_of (string_bytes text) ≡ mappings.now) }
    ensures regular { IfOk result (λ text. (sources names : ℕ)
        → sources ≤ most_listed → names ≤ most_listed
        → All (IsWithin sources names) mappings.now
        → IsRegularMap sources names (string_bytes text)) }
{
    lists_in_order_have_no_fault();
    let room = mappings.len().saturating_mul(ROOM_OF_MAPPING);
    let mut writer = TextWriter::with_capacity(alloc, room.min(MOST_MAPPINGS_BYTES))?;
    for mapping in mappings {
        writer.push(mapping)?;
    }
    Ok(writer.into_text())
}

impl Composed {
    /// The mappings of the composed map, in order. The call takes no memory.
    pub fn mappings(&self) -> &[Mapping]
        ensures { result.now ≡ self.now.mappings }
    {
        &self.mappings
    }

    /// The composed map as the text of one regular map, as `write_record` makes it. The same map is read of it again,
    /// where it isn't too large, save that the names of its sources may be resolved once more.
    pub fn write(&self, alloc: Global) -> Result<Vec<u8>, AllocError>
        ensures text { IfOk result (λ bytes. bytes.items ≡ written self.now.sources self.now.names
            self.now.file (canonical_text self.now.mappings)) }
        ensures reads_back { IfOk result (λ bytes. length bytes.items ≤ most_file_bytes
            → ReadsBackAs bytes.items self.now.mappings self.now.sources
            self.now.names self.now.file) }
    {
        let text = text_of(alloc, &self.mappings)?;
        write_record(alloc, &self.sources, &self.names, self.file(), &text)
    }

    /// The same of a map that is let go: its texts are moved, and its mappings go before they are put together.
    pub fn write_owned(self, alloc: Global) -> Result<Vec<u8>, AllocError>
        ensures text { IfOk result (λ bytes. bytes.items ≡ written self.sources self.names
            self.file (canonical_text self.mappings)) }
        ensures reads_back { IfOk result (λ bytes. length bytes.items ≤ most_file_bytes
            → ReadsBackAs bytes.items self.mappings self.sources self.names self.file) }
    {
        let Composed {
            mappings,
            sources,
            names,
            file,
        } = self;
        let text = text_of(alloc, &mappings)?;
        drop(mappings);
        write_owned(alloc, sources, names, file, text)
    }

    /// The same map with an index, as `MapFile::read` builds one: it is looked up and composed on, and no text of it is
    /// written. The sources keep their names.
    pub fn into_map(self, alloc: Global, k: u32) -> Result<MapFile, AllocError>
        requires { is_interval k ≡ true }
        ensures map { IfOk result (λ made. made ≡ as_map self k) }
        ensures mappings { IfOk result (λ made. joined made.stated.parts ≡ self.mappings) }
    {
        let Composed {
            mappings,
            sources,
            names,
            file,
        } = self;
        let text = text_of(alloc, &mappings)?;
        drop(mappings);
        one_text_is_its_mappings();
        MapFile::regular(alloc, sources, names, file, text, k)
    }

    // The name of the generated file, where there is one.
    fn file(&self) -> Option<&str>
        ensures { option_copied result ≡ self.now.file }
    {
        self.file.as_deref()
    }
}
