//! A place in a text.
ghost use Rattle.std.specs.Prelude.{◌≡◌, ◌≤◌, List, ℕ, Some, option_copied, option_map, slice_get};
ghost use Rattle.std.specs.Bool.{OnTrue};
ghost use Rattle.std.specs.Str.{chars};
ghost use Rattle.smap_fit.specs.Private.Places.{IsLeft, IsPlace};
ghost use Rattle.smap_fit.specs.Private.Texts.{line_texts};
ghost use Rattle.smap_fit.specs.Standing.{left_in, standing_in};

use crate::line_place::LinePlace;
use crate::standing::{Spot, Standing};
use crate::text_lines::TextLines;

/// A place in a text, from which a walk goes on along its line: the number of the line, from 0, and the place in it.
#[derive(Drop)]
pub struct TextPlace<'a> {
    pub line: u32,
    pub here: LinePlace<'a>,
}

impl<'a> TextPlace<'a> {
    /// The start of a text.
    pub fn start(text: &TextLines<'a>) -> Self
        ensures { IsPlace (line_texts text.now) result.line
            result.here.column result.here.before result.here.left.now }
    {
        TextPlace {
            line: 0,
            here: LinePlace::start(first_line(text)),
        }
    }

    /// How a position stands in the text, and what is there. The place goes to it, or to the last before it on its line that
    /// there is: along the line, or from its start where the place is on another or past the position.
    pub fn spot(&mut self, text: &TextLines<'a>, line: u32, column: u32) -> Spot<'a>
        requires { IsPlace (line_texts text.now) self.old.line
            self.old.here.column self.old.here.before self.old.here.left.now }
        ensures place { IsPlace (line_texts text.now) self.new.line
            self.new.here.column self.new.here.before self.new.here.left.now }
        ensures standing { result.standing ≡ standing_in (line_texts text.now) line column }
        ensures text { option_map (λ text. chars text) (option_copied result.text)
            ≡ left_in (line_texts text.now) line column }
    {
        let Some(characters) = text.line(line) else {
            return Spot {
                standing: Standing::PastText,
                text: None,
            };
        };
        self.reach(line, column, characters);
        self.here.standing(column)
    }

    // Goes to the start of a line of these characters, unless the place is on it and not past the column.
    fn reach(&mut self, line: u32, column: u32, characters: &'a str)
        ensures line { self.new.line ≡ line }
        ensures column { self.new.here.column ≤ column }
        ensures left { (lines : List (List ℕ))
            → slice_get lines line ≡ Some (chars characters.now)
            → IsPlace lines self.old.line self.old.here.column self.old.here.before
            self.old.here.left.now
            → IsLeft (chars characters.now) self.new.here.column self.new.here.before
            (chars self.new.here.left.now) }
    {
        if self.is_before(line, column) {
            return;
        }
        self.line = line;
        self.here = LinePlace::start(characters);
    }

    // Whether the place is on this line, and not past the column.
    fn is_before(&self, line: u32, column: u32) -> bool
        ensures { OnTrue result ((self.now.line ≡ line) × (self.now.here.column ≤ column)) }
    {
        self.line == line && self.here.column <= column
    }
}

// The first line of a text; nothing where there is none.
fn first_line<'a>(text: &TextLines<'a>) -> &'a str
    ensures { (whole : List ℕ) → slice_get (line_texts text.now) 0 ≡ Some whole
        → chars result.now ≡ whole }
{
    match text.line(0) {
        Some(line) => line,
        None => "",
    }
}
