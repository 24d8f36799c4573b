//! How a walk through a text goes on.
ghost use Rattle.std.specs.Prelude.{◌≡◌, ◌+◌, ◌*◌, ◌<◌, ◌^◌, ◌∷◌, true, length};
ghost use Rattle.std.specs.List.{list_all};
ghost use Rattle.smap_declarations.specs.Bytes.{behind_word, word_in};
ghost use Rattle.smap_declarations.specs.Private.Passing.{IsPastWord, is_ascii};
ghost use Rattle.smap_declarations.specs.Walk.{before_after, begins_word, origin, place_after, start};

use crate::walk::{Before, DeclarationPlace, keyword_of};

// A place on a walk through a text: what stands before it, where it is, and what is left of the text.
#[derive(Clone, Copy)]
pub struct Walk<'t> {
    pub before: Before,
    pub place: DeclarationPlace,
    pub rest: &'t [u8],
}

impl<'t> Walk<'t> {
    // A text's start.
    #[inline(always)]
    pub fn start(text: &'t [u8]) -> Walk<'t>
        ensures before { result.before ≡ start }
        ensures place { result.place ≡ origin }
        ensures rest { result.rest.now ≡ text.now }
    {
        Walk {
            before: Before::start(),
            place: DeclarationPlace::origin(),
            rest: text,
        }
    }

    // Behind the byte that the rest begins with.
    #[inline(always)]
    pub fn past_byte(self, byte: u8, behind: &'t [u8]) -> Walk<'t>
        requires line { self.place.line + 1 < 2 ^ 32 }
        requires column { self.place.column + 2 < 2 ^ 32 }
        ensures before { result.before ≡ before_after self.entry.before byte self.entry.rest.now }
        ensures place { result.place ≡ place_after self.entry.place byte behind.now }
        ensures rest { result.rest.now ≡ behind.now }
    {
        Walk {
            before: self.before.after(byte, self.rest),
            place: self.place.after(byte, behind),
            rest: behind,
        }
    }

    // Behind the word that the rest begins with, or behind its first byte where it has others than of ASCII.
    #[inline(always)]
    pub fn past_word(self, byte: u8, behind: &'t [u8], word: &'t [u8], after: &'t [u8]) -> Walk<'t>
        requires rest { self.rest.now ≡ byte ∷ behind.now }
        requires word { word.now ≡ word_in self.rest.now }
        requires after { after.now ≡ behind_word self.rest.now }
        requires begins { begins_word self.before byte ≡ true }
        requires line { self.place.line + length self.rest.now < 2 ^ 32 }
        requires column { self.place.column + 2 * length self.rest.now < 2 ^ 32 }
        ensures { IsPastWord self.entry.before self.entry.place self.entry.rest.now
            result.before result.place result.rest.now }
    {
        if is_ascii(word) {
            Walk {
                before: Before {
                    byte,
                    keyword: keyword_of(word),
                },
                place: DeclarationPlace {
                    line: self.place.line,
                    column: self.place.column + word.len() as u32,
                },
                rest: after,
            }
        } else {
            self.past_byte(byte, behind)
        }
    }
}

// Whether all bytes are of ASCII.
#[inline(always)]
fn is_ascii(word: &[u8]) -> bool
    ensures { result ≡ list_all is_ascii word.now }
{
    word.iter().all(|byte| *byte < 0x80)
}
