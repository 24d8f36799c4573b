//! How many bytes of a generated text each source makes.
ghost use Rattle.std.specs.Prelude.{◌≡◌, ◌<◌, ◌+◌, ◌^◌, length, sum, IfOk, IfSome};
ghost use Rattle.smap_index.specs.Parts.{joined};
ghost use Rattle.smap_fit.specs.Private.Counts.{counts_after, unmapped_after};
ghost use Rattle.smap_fit.specs.Shares.{IsBytesBySource};

use crate::counts::{add, no_counts};
use crate::line_ends::place_after;
use crate::owners::Owners;
use crate::text_lines::code_of;
use smap_record::MapFile;
use std::alloc::{AllocError, Global};

/// How many bytes of a generated text come from each source, and how many from none.
#[derive(Drop)]
pub struct BytesBySource {
    pub sources: Vec<u64>,
    pub unmapped: u64,
}

impl BytesBySource {
    // Adds the bytes of a character that this source owns, or none.
    fn add(&mut self, owner: Option<u32>, bytes: u64)
        requires within { IfSome owner (λ source. source < length self.old.sources.items) }
        requires fits { sum self.old.sources.items + self.old.unmapped + bytes < 2 ^ 64 }
        ensures sources { self.new.sources.items
            ≡ counts_after self.old.sources.items owner bytes }
        ensures unmapped { self.new.unmapped ≡ unmapped_after self.old.unmapped owner bytes }
    {
        match owner {
            Some(source) => add(&mut self.sources, source, bytes),
            None => self.unmapped += bytes,
        }
    }
}

/// How many bytes of the generated text of a map each source makes: a mapping owns the text from its column to the next
/// mapping of its line, or to the line's end. What stands before a line's first mapping, line ends, and what mappings
/// without an origin own come from none. Of mappings at one position the last owns; one past its line's end owns
/// nothing, and one between the two units of a character begins behind it. Lines end in LF, CR LF, CR, U+2028 or U+2029.
/// A byte order mark at the start is no column, and comes from none.
pub fn bytes_by_source(
    alloc: Global,
    map: &MapFile,
    generated: &str,
) -> Result<BytesBySource, AllocError>
    ensures { IfOk result (λ bytes. IsBytesBySource
        (length map.now.stated.sources) (joined map.now.stated.parts) generated.now
        bytes.sources.items bytes.unmapped) }
{
    let code = code_of(generated);
    let mut bytes = BytesBySource {
        sources: no_counts(alloc, map)?,
        unmapped: (generated.len() - code.len()) as u64,
    };
    let mut owners = Owners::new(map.mappings(alloc));
    let (mut line, mut column): (u64, u64) = (0, 0);
    let mut rest = code.chars();
    while let Some(character) = rest.next() {
        let owner = owners.owner_of(character, line, column);
        bytes.add(owner, character.len_utf8() as u64);
        (line, column) = place_after(line, column, character, rest.as_str());
    }
    Ok(bytes)
}
