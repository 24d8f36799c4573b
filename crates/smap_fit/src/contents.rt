//! The contents of a map's sources.
ghost use Rattle.std.specs.Prelude.{◌≡◌, option_map, IfOk};
ghost use Rattle.smap_record.specs.Sources.{source_of};
ghost use Rattle.smap_fit.specs.Agreement.{contents_of, original_lines};
ghost use Rattle.smap_fit.specs.Lines.{lines_in};
ghost use Rattle.smap_fit.specs.Private.Texts.{kept_contents, kept_lines, line_texts};

use crate::text_lines::TextLines;
use smap_record::{MapFile, SourceEntry};
use std::alloc::{AllocError, Global};

/// The contents of a map's sources, each cut into its lines, where a source has one.
#[derive(Drop)]
pub struct Contents<'a> {
    pub sources: Vec<Option<TextLines<'a>>>,
}

impl<'a> Contents<'a> {
    /// Those of a map. A map has far fewer sources than a number of 32 bits counts, so that the first refusal never comes.
    pub fn of(alloc: Global, map_file: &'a MapFile) -> Result<Self, AllocError>
        ensures { IfOk result (λ contents. kept_contents contents
            ≡ contents_of map_file.now.stated.sources) }
    {
        let Ok(count) = u32::try_from(map_file.sources()) else {
            return Err(AllocError);
        };
        let mut sources = Vec::with_capacity(alloc, count as usize)?;
        for i in 0..count {
            if let Some(source) = map_file.source(i) {
                sources.push(lines_of(alloc, source)?)?;
            }
        }
        Ok(Contents { sources })
    }

    /// The lines of the content of a source, where there is one.
    pub fn lines(&self, source: u32) -> Option<&TextLines<'a>>
        ensures { option_map (λ text. line_texts text.now) result
            ≡ original_lines (kept_contents self.now) source }
    {
        match self.sources.get(source as usize) {
            Some(Some(lines)) => Some(lines),
            _ => None,
        }
    }
}

// The lines of the content of a source, where it has one.
fn lines_of(alloc: Global, source: &SourceEntry) -> Result<Option<TextLines<'_>>, AllocError>
    ensures { IfOk result (λ lines. kept_lines lines
        ≡ option_map lines_in (source_of source.now).content) }
{
    match source.content.as_deref() {
        Some(content) => Ok(Some(TextLines::of(alloc, content)?)),
        None => Ok(None),
    }
}
