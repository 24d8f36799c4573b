//! Brackets in pairs.
ghost use Rattle.std.specs.Prelude.{◌≡◌, ◌<◌, ◌^◌, ◌-◌};
ghost use Rattle.smap_pairs.specs.Brackets.{closed_with, has_paired_brackets, is_none_closed, none_closed};
ghost use Rattle.smap_pairs.specs.Signs.{text_of};

use crate::seen::SeenByte;

/// How many brackets of each kind a text closes that are opened before it.
#[derive(Clone, Copy)]
pub struct Closed {
    pub round: usize,
    pub square: usize,
    pub curly: usize,
}

impl Closed {
    /// None, as an empty text does.
    pub fn none() -> Closed
        ensures { result ≡ none_closed }
    {
        Closed {
            round: 0,
            square: 0,
            curly: 0,
        }
    }

    /// How many there are with a byte before the text, and `None` where that is a bracket which the text leaves open.
    pub fn with(mut self, byte: u8) -> Option<Closed>
        requires round { self.round < 2 ^ 64 - 1 }
        requires square { self.square < 2 ^ 64 - 1 }
        requires curly { self.curly < 2 ^ 64 - 1 }
        ensures { result ≡ closed_with byte self }
    {
        match byte {
            b'(' => self.round = self.round.checked_sub(1)?,
            b')' => self.round += 1,
            b'[' => self.square = self.square.checked_sub(1)?,
            b']' => self.square += 1,
            b'{' => self.curly = self.curly.checked_sub(1)?,
            b'}' => self.curly += 1,
            _ => {}
        }
        Some(self)
    }

    /// Whether there is none.
    pub fn is_none(self) -> bool
        ensures { result ≡ is_none_closed self }
    {
        self.round == 0 && self.square == 0 && self.curly == 0
    }
}

/// Whether each bracket of a text is closed by one of its kind behind it, and each that closes one does so.
pub fn has_paired_brackets(text: &[SeenByte]) -> bool
    ensures { result ≡ has_paired_brackets (text_of text.now) }
{
    let mut closed = Closed::none();
    let mut at = text.len();
    while at > 0 {
        at -= 1;
        match closed.with(text[at].byte) {
            Some(with) => closed = with,
            None => return false,
        }
    }
    closed.is_none()
}
