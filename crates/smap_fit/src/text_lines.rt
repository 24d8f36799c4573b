//! A text that is cut into its lines.
ghost use Rattle.std.specs.Prelude.{◌≡◌, ◌+◌, length, option_map, slice_get, IfOk};
ghost use Rattle.std.specs.Str.{chars};
ghost use Rattle.smap_fit.specs.Lines.{code_of, lines_in, mark_bytes};
ghost use Rattle.smap_fit.specs.Private.Texts.{line_texts};

use crate::characters::split_character;
use smap_text::split_line;
use std::alloc::{AllocError, Global};

/// The lines of a text, without their ends.
#[derive(Drop)]
pub struct TextLines<'a> {
    pub lines: Vec<&'a str>,
}

impl<'a> TextLines<'a> {
    /// Those of the code in a text.
    pub fn of(alloc: Global, text: &'a str) -> Result<Self, AllocError>
        ensures { IfOk result (λ cut. line_texts cut ≡ lines_in text.now) }
    {
        let mut lines = Vec::new(alloc);
        let mut rest = Some(code_of(text));
        while let Some(text) = rest {
            let (line, behind) = split_line(text);
            lines.push(line)?;
            rest = behind;
        }
        Ok(TextLines { lines })
    }

    /// The line of this number, from 0.
    pub fn line(&self, line: u32) -> Option<&'a str>
        ensures { option_map (λ line. chars line.now) result
            ≡ slice_get (line_texts self.now) line }
    {
        self.lines.get(line as usize).copied()
    }
}

/// The text without a byte order mark at its start, which engines pass over.
pub fn code_of(text: &str) -> &str
    ensures code { chars result.now ≡ code_of (chars text.now) }
    ensures bytes { length result.now + mark_bytes (chars text.now) ≡ length text.now }
{
    match split_character(text) {
        Some(('\u{FEFF}', code)) => code,
        _ => text,
    }
}
