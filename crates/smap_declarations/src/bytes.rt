//! Words and blanks in the bytes of a text of JavaScript.
ghost use Rattle.std.specs.Prelude.{◌≡◌, ◌∷◌, [], MatchOption};
ghost use Rattle.std.specs.List.{prefix_len};
ghost use Rattle.smap_declarations.specs.Brackets.{has_first};
ghost use Rattle.smap_declarations.specs.Bytes.{behind_blanks, behind_word, is_blank, is_word_byte, word_in};

// Of each byte, whether it is of a word. A table, so that it costs one look-up.
const WORD_BYTES: [bool; 256] = [
    false, false, false, false, false, false, false, false, false, false, false, false, false,
    false, false, false, false, false, false, false, false, false, false, false, false, false,
    false, false, false, false, false, false, false, false, false, false, true, false, false,
    false, false, false, false, false, false, false, false, false, true, true, true, true, true,
    true, true, true, true, true, false, false, false, false, false, false, false, true, true,
    true, true, true, true, true, true, true, true, true, true, true, true, true, true, true, true,
    true, true, true, true, true, true, true, true, false, false, false, false, true, false, true,
    true, true, true, true, true, true, true, true, true, true, true, true, true, true, true, true,
    true, true, true, true, true, true, true, true, true, false, false, false, false, false, true,
    true, true, true, true, true, true, true, true, true, true, true, true, true, true, true, true,
    true, true, true, true, true, true, true, true, true, true, true, true, true, true, true, true,
    true, true, true, true, true, true, true, true, true, true, true, true, true, true, true, true,
    true, true, true, true, true, true, true, true, true, true, true, true, true, true, true, true,
    true, true, true, true, true, true, true, true, true, true, true, true, true, true, true, true,
    true, true, true, true, true, true, true, true, true, true, true, true, true, true, true, true,
    true, true, true, true, true, true, true, true, true, true, true, true, true, true, true, true,
    true, true, true, true, true, true, true, true, true, true, true, true, true, true, true,
];

// Whether a byte is of a word: a letter, a digit, `_`, `$` or one above 0x7F.
#[inline(always)]
pub fn is_word_byte(byte: u8) -> bool
    ensures { result ≡ is_word_byte byte }
{
    WORD_BYTES[byte as usize]
}

// Whether a byte is a tab, a line feed, a form feed, a carriage return or a space.
#[inline(always)]
pub fn is_blank(byte: u8) -> bool
    ensures { result ≡ is_blank byte }
{
    byte.is_ascii_whitespace()
}

// The first byte of a text and what follows it, where there is one.
#[inline(always)]
pub fn split_byte(text: &[u8]) -> Option<(u8, &[u8])>
    ensures { MatchOption result (text.now ≡ []) (λ split. text.now ≡ split.0 ∷ split.1.now) }
{
    match text.split_first() {
        Some((first, behind)) => Some((*first, behind)),
        None => None,
    }
}

// Whether a text begins with this byte.
#[inline(always)]
pub fn has_first(byte: u8, text: &[u8]) -> bool
    ensures { result ≡ has_first byte text.now }
{
    match split_byte(text) {
        Some((first, _)) => first == byte,
        None => false,
    }
}

// The word that a text begins with, which may be empty, and what is behind it.
#[inline(always)]
pub fn split_word(text: &[u8]) -> (&[u8], &[u8])
    ensures word { result.0.now ≡ word_in text.now }
    ensures behind { result.1.now ≡ behind_word text.now }
{
    text.split_at(word_length(text))
}

// How many bytes that word has.
fn word_length(text: &[u8]) -> usize
    ensures { result ≡ prefix_len is_word_byte text.now }
{
    for n in 0..text.len() {
        if !is_word_byte(text[n]) {
            return n;
        }
    }
    text.len()
}

// What is behind the blanks that a text begins with.
#[inline(always)]
pub fn behind_blanks(text: &[u8]) -> &[u8]
    ensures { result.now ≡ behind_blanks text.now }
{
    text.split_at(blanks_length(text)).1
}

// How many these are.
fn blanks_length(text: &[u8]) -> usize
    ensures { result ≡ prefix_len is_blank text.now }
{
    for n in 0..text.len() {
        if !is_blank(text[n]) {
            return n;
        }
    }
    text.len()
}
