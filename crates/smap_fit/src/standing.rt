//! How a place stands in a text.

/// How a place of a map stands in a generated text.
#[derive(Clone, Copy)]
pub enum Standing {
    /// Where a word begins or ends, outside of words, or at a line's end.
    Fits,
    /// Past the last line, or past its line's end.
    PastText,
    /// Between two characters of a word, or between the two units of a character.
    InsideWord,
}

/// How a place stands in a text, and what its line has from there on: nothing past the text or inside a pair of units.
#[derive(Clone, Copy)]
pub struct Spot<'a> {
    pub standing: Standing,
    pub text: Option<&'a str>,
}
