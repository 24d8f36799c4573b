//! Short texts in rooms of fixed size.
ghost use Rattle.std.specs.Prelude.{◌≡◌, ◌++◌, ◌+◌, ◌<◌, ◌≤◌, [], IfSome, decimal, false, length, true};
ghost use Rattle.smap_printing.specs.Private.ShortText.{most_short};

use itoa::write_digits;
use std::marker::Model;

// How many bytes such a text has at most.
const MOST_SHORT: usize = 256;

// How many digits a number has at most.
const MOST_DECIMAL_DIGITS: usize = 20;

// How many bytes a piece has at most.
const MOST_PIECE: usize = 64;

/// A text of at most 256 bytes.
#[derive(Drop)]
pub struct ShortText {
    bytes: [u8; MOST_SHORT],
    length: usize,
}

impl Model for ShortText {
    ghost use Rattle.std.specs.Prelude.{ℕ, ◌≤◌, List, take};
    ghost use Rattle.smap_printing.specs.Private.ShortText.{most_short};

    ghost Value = { List ℕ };

    ghost view = { λ text. take text.length text.bytes };

    ghost invariant = { λ text. text.length ≤ most_short };
}

impl ShortText {
    /// No text yet.
    #[inline(always)]
    pub fn new() -> ShortText
        ensures { result ≡ [] }
    {
        ShortText {
            bytes: [0; MOST_SHORT],
            length: 0,
        }
    }

    #[inline(always)]
    pub fn bytes(&self) -> &[u8]
        ensures { result.now ≡ self.now }
    {
        &self.bytes[..self.length]
    }

    /// Puts a piece behind the text, if there is room for it, and says whether there is.
    #[inline(always)]
    pub fn add(&mut self, piece: &[u8]) -> bool
        ensures added { result ≡ true → self.new ≡ self.old ++ piece.now }
        ensures full { result ≡ false → self.new ≡ self.old }
    {
        if piece.len() > MOST_SHORT - self.length {
            return false;
        }
        let end = self.length + piece.len();
        self.bytes[self.length..end].copy_from_slice(piece);
        self.length = end;
        true
    }

    /// Puts a number behind the text, if there is room for any, and says whether there is. Its digits are counted first, so
    /// that they are written where they stand.
    #[inline(always)]
    pub fn add_number(&mut self, number: u64) -> bool
        ensures added { result ≡ true → self.new ≡ self.old ++ decimal number }
        ensures full { result ≡ false → self.new ≡ self.old }
    {
        if MOST_SHORT - self.length < MOST_DECIMAL_DIGITS {
            return false;
        }
        // Each count stands apart, so that its digits are written without asking again how many there are.
        if number < 10 {
            self.add_digits(number, 1);
        } else if number < 100 {
            self.add_digits(number, 2);
        } else if number < 1000 {
            self.add_digits(number, 3);
        } else if number < 10_000 {
            self.add_digits(number, 4);
        } else {
            self.add_digits(number, count_digits(number));
        }
        true
    }

    // Puts a number of so many digits behind the text.
    #[inline(always)]
    fn add_digits(&mut self, number: u64, count: usize)
        requires digits { count ≡ length (decimal number) }
        requires room { length self.old + 20 ≤ most_short }
        ensures { self.new ≡ self.old ++ decimal number }
    {
        let end = self.length + count;
        write_digits(number, &mut self.bytes, end);
        self.length = end;
    }

    /// Puts a piece of fixed size behind the text, if there is room for any, and says whether there is.
    #[inline(always)]
    pub fn add_piece(&mut self, piece: &ShortPiece) -> bool
        ensures added { result ≡ true → self.new ≡ self.old ++ piece.now }
        ensures full { result ≡ false → self.new ≡ self.old }
    {
        if MOST_SHORT - self.length < MOST_PIECE {
            return false;
        }
        let end = self.length + MOST_PIECE;
        self.bytes[self.length..end].copy_from_slice(&piece.bytes);
        self.length += piece.length;
        true
    }

    #[inline(always)]
    pub fn clear(&mut self)
        ensures { self.new ≡ [] }
    {
        self.length = 0;
    }
}

/// A text of at most 64 bytes that is put again and again, and so by a copy of fixed size.
#[derive(Drop)]
pub struct ShortPiece {
    bytes: [u8; MOST_PIECE],
    length: usize,
}

impl Model for ShortPiece {
    ghost use Rattle.std.specs.Prelude.{ℕ, ◌≤◌, List, take};
    ghost use Rattle.smap_printing.specs.Private.ShortText.{most_piece};

    ghost Value = { List ℕ };

    ghost view = { λ piece. take piece.length piece.bytes };

    ghost invariant = { λ piece. piece.length ≤ most_piece };
}

impl ShortPiece {
    /// This text, if it is not too long.
    pub fn of(text: &[u8]) -> Option<ShortPiece>
        ensures { IfSome result (λ piece. piece ≡ text.now) }
    {
        if text.len() > MOST_PIECE {
            return None;
        }
        let mut bytes = [0; MOST_PIECE];
        bytes[..text.len()].copy_from_slice(text);
        Some(ShortPiece {
            bytes,
            length: text.len(),
        })
    }

    #[inline(always)]
    pub fn bytes(&self) -> &[u8]
        ensures { result.now ≡ self.now }
    {
        &self.bytes[..self.length]
    }
}

// How many digits a number has.
#[inline(always)]
fn count_digits(number: u64) -> usize
    ensures { result ≡ length (decimal number) }
{
    let mut left = number;
    let mut more = 0;
    while left >= 10_000 {
        left /= 10_000;
        more += 4;
    }
    more + count_few_digits(left)
}

// How many digits a number below 10000 has.
#[inline(always)]
fn count_few_digits(number: u64) -> usize
    requires { number < 10000 }
    ensures { result ≡ length (decimal number) }
{
    if number < 100 {
        return if number < 10 { 1 } else { 2 };
    }
    if number < 1000 { 3 } else { 4 }
}
