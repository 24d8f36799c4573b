//! The lines of a text that is read part by part.
ghost use Rattle.std.specs.Prelude.{◌≡◌, ◌==◌, ◌+◌, ◌≤◌, ◌<◌, ◌^◌, ◌++◌, ℕ, List, count_by, length};
ghost use Rattle.smap_lines.specs.Lines.{lines_with_ends};
ghost use Rattle.smap_anywhere.specs.Private.LineEnds.{AreLinesOf, has_open_line};

use memchr::memchr;

/// The lines that were read: how many are ended, and whether one is open behind them.
#[derive(Clone, Copy)]
pub struct LinesRead {
    pub ended: u64,
    pub is_open: bool,
}

impl LinesRead {
    /// Bytes more were read.
    pub fn go_on(&mut self, bytes: &[u8])
        requires { self.old.ended + length bytes.now < 2 ^ 64 }
        ensures { (text : List ℕ) → AreLinesOf text self.old →
            AreLinesOf (text ++ bytes.now) self.new }
    {
        self.ended += count_ends(bytes) as u64;
        self.is_open = is_open_behind(self.is_open, bytes);
    }

    /// How many there are, with the open one.
    pub fn all(&self) -> u64
        requires { self.now.ended < 2 ^ 63 }
        ensures { (text : List ℕ) → AreLinesOf text self.now →
            result ≡ length (lines_with_ends text) }
    {
        self.ended + u64::from(self.is_open)
    }
}

// How many LFs stand in a text.
fn count_ends(text: &[u8]) -> usize
    ensures count { result ≡ count_by (λ byte. byte == 10) text.now }
    ensures few { result ≤ length text.now }
{
    let mut count = 0;
    let mut rest = text;
    while let Some(place) = memchr(b'\n', rest) {
        count += 1;
        rest = &rest[place + 1..];
    }
    count
}

// Whether a text ends in a line without an LF, where it ends in these bytes, and what stands before them in one, or not.
fn is_open_behind(was_open: bool, bytes: &[u8]) -> bool
    ensures { (text : List ℕ) → was_open ≡ has_open_line text →
        result ≡ has_open_line (text ++ bytes.now) }
{
    match bytes.split_last() {
        None => was_open,
        Some((byte, _)) => *byte != b'\n',
    }
}
