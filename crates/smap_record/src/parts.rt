//! The parts of a map's index, before it is built.
ghost use Rattle.std.specs.Prelude.{◌≡◌};
ghost use Rattle.smap_record.specs.Given.{GivesRead};
ghost use Rattle.smap_record.specs.Record.{parts_of};

use crate::file_text::file_members;
use crate::joined::{JoinedSections, read_sections};
use crate::outer::read_outer;
use crate::refusal::MapRefusal;
use smap_index::Part;
use std::alloc::Global;

/// The parts of the index of the map in a file of these bytes, a part for each section, before it is asked whether an
/// index is built of them; or why the map is refused before that.
#[tactic(auto, unfolding(crate::specs::Record::parts_of))]
pub fn file_parts(alloc: Global, bytes: &[u8]) -> Result<Vec<Part>, MapRefusal>
    ensures { GivesRead (λ parts. parts.items) result (parts_of bytes.now) }
{
    let members = file_members(alloc, bytes)?;
    let outer = read_outer(alloc, members)?;
    let JoinedSections {
        parts,
        marks: _,
        sources: _,
        names: _,
    } = read_sections(alloc, outer.entries, None)?;
    Ok(parts)
}
