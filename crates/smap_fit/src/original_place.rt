//! A place in the content of a source.
ghost use Rattle.std.specs.Prelude.{◌≡◌, List, ℕ, Option, Some, option_copied, option_map};
ghost use Rattle.std.specs.Str.{chars};
ghost use Rattle.smap_fit.specs.Agreement.{agreement_by, original_lines};
ghost use Rattle.smap_fit.specs.Private.Places.{IsOriginal, IsPlace};
ghost use Rattle.smap_fit.specs.Private.Texts.{kept_contents, line_texts};

use crate::agreement::{Agreement, agreement_at};
use crate::contents::Contents;
use crate::line_place::LinePlace;
use crate::text_lines::TextLines;
use crate::text_place::TextPlace;
use smap_record::Origin;

/// A place in the content of a source, from which a walk goes on: the source by its index, and the place in it.
#[derive(Drop)]
pub struct OriginalPlace<'a> {
    pub source: u32,
    pub place: TextPlace<'a>,
}

impl<'a> OriginalPlace<'a> {
    /// The start of the first source's content, where it has one.
    pub fn start(contents: &Contents<'a>) -> Self
        ensures { IsOriginal (kept_contents contents.now) result.source result.place.line
            result.place.here.column result.place.here.before result.place.here.left.now }
    {
        OriginalPlace {
            source: 0,
            place: first_place(contents),
        }
    }

    /// How the origin of a mapping, if it has one, agrees with what the generated line has from its place on, if something
    /// is there. The place goes to the origin.
    pub fn agreement(
        &mut self,
        contents: &Contents<'a>,
        text: Option<&str>,
        origin: Option<Origin>,
    ) -> Agreement
        requires { IsOriginal (kept_contents contents.now) self.old.source self.old.place.line
            self.old.place.here.column self.old.place.here.before self.old.place.here.left.now }
        ensures place { IsOriginal (kept_contents contents.now) self.new.source
            self.new.place.line self.new.place.here.column self.new.place.here.before
            self.new.place.here.left.now }
        ensures agreement { result
            ≡ agreement_by (option_map (λ text. chars text) (option_copied text.entry))
            (kept_contents contents.now) origin }
    {
        let Some(origin) = origin else {
            return Agreement::Unknown;
        };
        let Some(lines) = contents.lines(origin.source) else {
            return Agreement::Unknown;
        };
        self.reach(origin.source, lines);
        let original = self.place.spot(lines, origin.line, origin.column);
        agreement_at(text, original)
    }

    // Goes to the start of a source of these lines, unless the place is in it.
    fn reach(&mut self, source: u32, lines: &TextLines<'a>)
        ensures source { self.new.source ≡ source }
        ensures place { (contents : List (Option (List (List ℕ))))
            → original_lines contents source ≡ Some (line_texts lines.now)
            → IsOriginal contents self.old.source self.old.place.line
            self.old.place.here.column self.old.place.here.before self.old.place.here.left.now
            → IsPlace (line_texts lines.now) self.new.place.line
            self.new.place.here.column self.new.place.here.before self.new.place.here.left.now }
    {
        if self.source == source {
            return;
        }
        self.source = source;
        self.place = TextPlace::start(lines);
    }
}

// The start of the first source's content, where it has one.
fn first_place<'a>(contents: &Contents<'a>) -> TextPlace<'a>
    ensures { IsOriginal (kept_contents contents.now) 0 result.line
        result.here.column result.here.before result.here.left.now }
{
    match contents.lines(0) {
        Some(lines) => TextPlace::start(lines),
        None => TextPlace {
            line: 0,
            here: LinePlace::start(""),
        },
    }
}
