//! What stands before a byte of a generated text, and the byte's place.
ghost use Rattle.std.specs.Prelude.{◌≡◌, ◌+◌, ◌<◌, ◌^◌, option_copied};
ghost use Rattle.smap_declarations.specs.Walk.{before_after, begins_word, ends_line, is_at_or_before, is_between, is_separator_behind, keyword_of, keyword_past, origin, place_after, start, units_at};

use crate::bytes::{has_first, is_blank, is_word_byte, split_byte, split_word};

/// A place in a generated text: its line and its column in UTF-16 code units, both from 0.
#[derive(Clone, Copy, Debug, PartialEq, Eq)]
pub struct DeclarationPlace {
    pub line: u32,
    pub column: u32,
}

// What a function or a class declares itself by.
#[derive(Clone, Copy)]
pub enum Keyword {
    Function,
    Class,
}

// The byte before a place, 0 at the text's start, and the keyword behind which nothing else stands.
#[derive(Clone, Copy)]
pub struct Before {
    pub byte: u8,
    pub keyword: Option<Keyword>,
}

// The keyword that a word is.
pub fn keyword_of(word: &[u8]) -> Option<Keyword>
    ensures { result ≡ keyword_of word.now }
{
    if word == b"function".as_slice() {
        Some(Keyword::Function)
    } else if word == b"class".as_slice() {
        Some(Keyword::Class)
    } else {
        None
    }
}

impl Before {
    // A text's start.
    pub fn start() -> Before
        ensures { result ≡ start }
    {
        Before {
            byte: 0,
            keyword: None,
        }
    }

    // Whether a word begins with this byte.
    #[inline(always)]
    pub fn begins_word(self, byte: u8) -> bool
        ensures { result ≡ begins_word self byte }
    {
        is_word_byte(byte) && !is_word_byte(self.byte)
    }

    // What stands behind a byte that begins this text.
    #[inline(always)]
    #[tactic(auto, unfolding(crate::specs::Walk::before_after))]
    pub fn after(self, byte: u8, text: &[u8]) -> Before
        ensures { result ≡ before_after self byte text.now }
    {
        let keyword = if self.begins_word(byte) {
            keyword_of(split_word(text).0)
        } else if is_word_byte(byte) {
            self.keyword
        } else {
            keyword_past(self.keyword, byte)
        };
        Before { byte, keyword }
    }
}

// The keyword behind which nothing else stands, after a byte that is of no word.
#[inline(always)]
fn keyword_past(keyword: Option<Keyword>, byte: u8) -> Option<Keyword>
    ensures { result ≡ keyword_past keyword byte }
{
    match keyword {
        Some(keyword) if is_between(keyword, byte) => Some(keyword),
        Some(_) => None,
        None => None,
    }
}

fn is_between(keyword: Keyword, byte: u8) -> bool
    ensures { result ≡ is_between keyword byte }
{
    match keyword {
        Keyword::Function => is_blank(byte) || byte == b'*',
        Keyword::Class => is_blank(byte),
    }
}

impl DeclarationPlace {
    // The place at a text's start.
    pub(crate) fn origin() -> DeclarationPlace
        ensures { result ≡ origin }
    {
        DeclarationPlace { line: 0, column: 0 }
    }

    // The place behind a byte, which this text follows.
    #[inline(always)]
    #[tactic(auto, unfolding(crate::specs::Walk::place_after))]
    pub(crate) fn after(self, byte: u8, behind: &[u8]) -> DeclarationPlace
        requires line { self.line + 1 < 2 ^ 32 }
        requires column { self.column + 2 < 2 ^ 32 }
        ensures { result ≡ place_after self byte behind.now }
    {
        if ends_line(byte, behind) {
            DeclarationPlace {
                line: self.line + 1,
                column: 0,
            }
        } else {
            DeclarationPlace {
                line: self.line,
                column: self.column + units_at(byte),
            }
        }
    }

    // Whether this place is not after that.
    #[inline(always)]
    pub(crate) fn is_at_or_before(self, other: DeclarationPlace) -> bool
        ensures { result ≡ is_at_or_before self other }
    {
        self.line < other.line || (self.line == other.line && self.column <= other.column)
    }
}

// Whether a line ends with this byte, or with the character that it begins.
#[inline(always)]
fn ends_line(byte: u8, behind: &[u8]) -> bool
    ensures { result ≡ ends_line byte behind.now }
{
    byte == b'\n'
        || (byte == b'\r' && !has_first(b'\n', behind))
        || (byte == 0xE2 && is_separator_behind(behind))
}

fn is_separator_behind(text: &[u8]) -> bool
    ensures { result ≡ is_separator_behind text.now }
{
    match split_byte(text) {
        Some((byte, behind)) => {
            byte == 0x80 && (has_first(0xA8, behind) || has_first(0xA9, behind))
        }
        None => false,
    }
}

// The UTF-16 code units of the character that a byte begins; none of a byte within a character.
#[inline(always)]
fn units_at(byte: u8) -> u32
    ensures { result ≡ units_at byte }
{
    match byte {
        0..0x80 => 1,
        0x80..0xC0 => 0,
        0xC0..0xF0 => 1,
        _ => 2,
    }
}
