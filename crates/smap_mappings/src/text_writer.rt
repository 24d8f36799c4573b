//! The writer of a canonical text.
ghost use Rattle.std.specs.Prelude.{◌≡◌, ◌+◌, ◌≤◌, ◌++◌, [], ◌∷◌, ℕ, List, OnOk, IfOk, None, replicate, string_bytes, false};
ghost use Rattle.std.specs.List.{All};
ghost use Rattle.smap_mappings.specs.Range.{is_mapping_past_limit};
ghost use Rattle.smap_mappings.specs.Mappings.{mappings_of};
ghost use Rattle.smap_mappings.specs.Accepted.{IsAccepted};
ghost use Rattle.smap_mappings.specs.Within.{IsWithin};
ghost use Rattle.smap_mappings.specs.Canonical.{separators, canonical_text};
ghost use Rattle.smap_mappings.specs.Encode.{list_fault};
ghost use Rattle.smap_mappings.specs.Private.Reading.{fields_in};
ghost use Rattle.smap_mappings.specs.Private.OneMore.{CanBeSpelled, spelled};
ghost use Rattle.smap_mappings.specs.declared.mapping.Mapping.{Mapping};

use crate::last_values::LastValues;
use crate::mapping::Mapping;
use crate::segment::Segment;
use crate::vlq::write_vlq;
use std::alloc::{AllocError, Global};
use std::marker::Model;

/// Writes the canonical text of mappings that are given one by one (ECMA-426, Mappings structure), into room that is
/// made once.
#[derive(Drop)]
pub struct TextWriter {
    last: LastValues,
    bytes: Vec<u8>,
}

impl Model for TextWriter {
    ghost use Rattle.smap_mappings.specs.Writing.{WrittenText};

    ghost Value = { WrittenText };

    ghost view = { λ t. record { last = t.last; bytes = t.bytes.items } };
}

impl TextWriter {
    ghost use Rattle.smap_mappings.specs.Writing.{IsWritten};

    /// No mapping so far, and room for this many bytes.
    pub fn with_capacity(alloc: Global, bytes: usize) -> Result<Self, AllocError>
        ensures { IfOk result (λ writer. IsWritten [] writer) }
    {
        Ok(TextWriter {
            last: LastValues::none(),
            bytes: Vec::with_capacity(alloc, bytes)?,
        })
    }

    /// Writes the next mapping. The caller gives one of which no number is past 2147483647. After a refusal the text
    /// is of no more use.
    #[inline(always)]
    pub fn push(&mut self, mapping: &Mapping) -> Result<(), AllocError>
        requires state { (list : List Mapping) × IsWritten list self.old }
        requires in_range { is_mapping_past_limit mapping.now ≡ false }
        ensures { OnOk result ((list : List Mapping) → IsWritten list self.old
            → IsWritten (list ++ mapping.now ∷ []) self.new) }
    {
        let segment = self.last.segment(mapping);
        write_separators(&self.last.mapping, mapping, &mut self.bytes)?;
        write_segment(&segment, &mut self.bytes)?;
        self.last = self.last.after(mapping);
        Ok(())
    }

    /// The text of the mappings so far. Where they are in order, it decodes to them.
    pub fn into_text(self) -> String
        requires state { (list : List Mapping) × IsWritten list self }
        ensures text { (list : List Mapping) → IsWritten list self
            → string_bytes result ≡ canonical_text list }
        ensures decodes { (list : List Mapping) → list_fault list ≡ None
            → mappings_of (canonical_text list) ≡ list }
        ensures accepted { (list : List Mapping) → list_fault list ≡ None
            → (sources names : ℕ) → All (IsWithin sources names) list
            → IsAccepted (canonical_text list) sources names }
    {
        match String::from_utf8(self.bytes) {
            Ok(text) => text,
            Err(_) => unreachable!("letters, `,` and `;` are ASCII"),
        }
    }
}

// Writes what stands before the segment of a mapping after this one.
#[inline(always)]
fn write_separators(
    last: &Option<Mapping>,
    mapping: &Mapping,
    out: &mut Vec<u8>,
) -> Result<(), AllocError>
    ensures { OnOk result (out.new.items ≡ out.old.items ++ separators last.now mapping.now) }
{
    match last {
        Some(earlier) if earlier.line == mapping.line => {
            out.push(b',')?;
            Ok(())
        }
        Some(earlier) => write_line_ends(mapping.line.saturating_sub(earlier.line), out),
        None => write_line_ends(mapping.line, out),
    }
}

fn write_line_ends(lines: u32, out: &mut Vec<u8>) -> Result<(), AllocError>
    ensures { OnOk result (out.new.items ≡ out.old.items ++ replicate lines 59) }
{
    for _ in 0..lines {
        out.push(b';')?;
    }
    Ok(())
}

#[inline(always)]
fn write_segment(segment: &Segment, out: &mut Vec<u8>) -> Result<(), AllocError>
    requires { CanBeSpelled (fields_in segment.now) }
    ensures { OnOk result (out.new.items ≡ out.old.items ++ spelled (fields_in segment.now)) }
{
    write_vlq(segment.column, out)?;
    let Some(origin) = segment.origin else {
        return Ok(());
    };
    write_vlq(origin.source, out)?;
    write_vlq(origin.line, out)?;
    write_vlq(origin.column, out)?;
    match origin.name {
        Some(name) => write_vlq(name, out),
        None => Ok(()),
    }
}
