//! A place in a line.
ghost use Rattle.std.specs.Prelude.{◌≡◌, ◌≤◌, List, ℕ, None, option_copied, option_map};
ghost use Rattle.std.specs.Str.{chars};
ghost use Rattle.smap_fit.specs.Private.Places.{IsLeft};
ghost use Rattle.smap_fit.specs.Standing.{goes_on, is_substitution, left_on, standing_on};

use crate::characters::{split_character, units_of};
use crate::standing::{Spot, Standing};
use crate::words::is_word_character;

/// A place in a line: how many UTF-16 code units are before it, the character before it, and what is left behind it.
#[derive(Drop)]
pub struct LinePlace<'a> {
    pub column: u32,
    pub before: Option<char>,
    pub left: &'a str,
}

impl<'a> LinePlace<'a> {
    /// The start of a line.
    pub fn start(line: &'a str) -> Self
        ensures column { result.column ≡ 0 }
        ensures left { IsLeft (chars line.now) 0 result.before (chars result.left.now) }
    {
        LinePlace {
            column: 0,
            before: None,
            left: line,
        }
    }

    /// How a column that is not before the place stands in its line, and what is there. The place goes on to it, or to the
    /// last before it that there is.
    pub fn standing(&mut self, column: u32) -> Spot<'a>
        requires { self.old.column ≤ column }
        ensures column { self.new.column ≤ column }
        ensures left { (whole : List ℕ)
            → IsLeft whole self.old.column self.old.before (chars self.old.left.now)
            → IsLeft whole self.new.column self.new.before (chars self.new.left.now) }
        ensures standing { (whole : List ℕ)
            → IsLeft whole self.old.column self.old.before (chars self.old.left.now)
            → result.standing ≡ standing_on None whole column }
        ensures text { (whole : List ℕ)
            → IsLeft whole self.old.column self.old.before (chars self.old.left.now)
            → option_map (λ text. chars text) (option_copied result.text) ≡ left_on whole column }
    {
        let here = LinePlace {
            column: self.column,
            before: self.before,
            left: self.left,
        };
        let (here, spot) = walked(here, column);
        *self = here;
        spot
    }

    // Whether a word goes on from the character before the place to the one at it.
    fn goes_on(&self) -> bool
        ensures { result ≡ goes_on self.now.before (chars self.now.left.now) }
    {
        let Some(before) = self.before else {
            return false;
        };
        let Some((next, behind)) = split_character(self.left) else {
            return false;
        };
        is_word_character(before) && is_word_character(next) && !is_substitution(next, behind)
    }
}

// The place of a column that is not before this place, or the last before it that there is, and how the column stands.
// (It is given the place itself, so that a walk keeps it at hand.)
#[inline(always)]
fn walked<'a>(mut here: LinePlace<'a>, column: u32) -> (LinePlace<'a>, Spot<'a>)
    requires { here.column ≤ column }
    ensures column { result.0.column ≤ column }
    ensures left { (whole : List ℕ)
        → IsLeft whole here.entry.column here.entry.before (chars here.entry.left.now)
        → IsLeft whole result.0.column result.0.before (chars result.0.left.now) }
    ensures standing { (whole : List ℕ)
        → IsLeft whole here.entry.column here.entry.before (chars here.entry.left.now)
        → result.1.standing ≡ standing_on None whole column }
    ensures text { (whole : List ℕ)
        → IsLeft whole here.entry.column here.entry.before (chars here.entry.left.now)
        → option_map (λ text. chars text) (option_copied result.1.text) ≡ left_on whole column }
{
    while here.column < column {
        let Some((character, left)) = split_character(here.left) else {
            let spot = Spot {
                standing: Standing::PastText,
                text: None,
            };
            return (here, spot);
        };
        let units = units_of(character);
        if column - here.column < units {
            let spot = Spot {
                standing: Standing::InsideWord,
                text: None,
            };
            return (here, spot);
        }
        here.column += units;
        here.before = Some(character);
        here.left = left;
    }
    if here.goes_on() {
        let spot = Spot {
            standing: Standing::InsideWord,
            text: Some(here.left),
        };
        (here, spot)
    } else {
        let spot = Spot {
            standing: Standing::Fits,
            text: Some(here.left),
        };
        (here, spot)
    }
}

// Whether a substitution in a template begins with this character, which this text follows.
fn is_substitution(character: char, behind: &str) -> bool
    ensures { result ≡ is_substitution character (chars behind.now) }
{
    match split_character(behind) {
        Some((next, _)) => character == '$' && next == '{',
        None => false,
    }
}
