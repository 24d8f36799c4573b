//! Which characters make words, and which words are the same.
ghost use Rattle.std.specs.Prelude.{◌≡◌, ◌∷◌, [], MatchOption};
ghost use Rattle.std.specs.Str.{bytes_eq, chars};
ghost use Rattle.smap_fit.specs.Words.{begin_alike, is_category_of_words, is_word_character, word_in};

use crate::characters::split_character;
use ucd_category::{GeneralCategory, GeneralCategoryGroup};

// Of each character of ASCII, whether it is one of a word. A table, so that it costs one look-up.
const ASCII_WORDS: [bool; 128] = [
    false, false, false, false, false, false, false, false, false, false, false, false, false,
    false, false, false, false, false, false, false, false, false, false, false, false, false,
    false, false, false, false, false, false, false, false, false, false, true, false, false,
    false, false, false, false, false, false, false, false, false, true, true, true, true, true,
    true, true, true, true, true, false, false, false, false, false, false, false, true, true,
    true, true, true, true, true, true, true, true, true, true, true, true, true, true, true, true,
    true, true, true, true, true, true, true, true, false, false, false, false, true, false, true,
    true, true, true, true, true, true, true, true, true, true, true, true, true, true, true, true,
    true, true, true, true, true, true, true, true, true, false, false, false, false, false,
];

/// Whether a character is one of a word: a letter, a mark or a digit of Unicode, `_`, `$`, or one of the two joiners.
#[inline(always)]
#[tactic(auto, using(crate::proofs::WordTable::word_of_ascii_is))]
pub fn is_word_character(character: char) -> bool
    ensures { result ≡ is_word_character character }
{
    let code = character as u32;
    if code < 128 {
        ASCII_WORDS[code as usize]
    } else {
        is_of_words(character)
    }
}

// The same, by its category.
fn is_of_words(character: char) -> bool
    ensures { result ≡ is_word_character character }
{
    matches!(character, '_' | '$' | '\u{200C}' | '\u{200D}')
        || is_category_of_words(GeneralCategory::for_char(character))
}

// Whether characters of a category are letters, marks or digits.
fn is_category_of_words(category: GeneralCategory) -> bool
    ensures { result ≡ is_category_of_words category }
{
    GeneralCategoryGroup::Letter.contains(category)
        || GeneralCategoryGroup::Mark.contains(category)
        || category.number() == GeneralCategory::DecimalNumber.number()
}

/// Whether both texts begin with the same word, or with the same character of none.
pub fn begin_alike(first: &str, second: &str) -> bool
    ensures { result ≡ begin_alike (chars first.now) (chars second.now) }
{
    let Some((a, behind_a)) = split_character(first) else {
        return false;
    };
    let Some((b, behind_b)) = split_character(second) else {
        return false;
    };
    if a != b {
        return false;
    }
    if !is_word_character(a) {
        return true;
    }
    go_on_alike(behind_a, behind_b)
}

// Whether both texts go on with the same characters of a word.
fn go_on_alike(first: &str, second: &str) -> bool
    ensures { result ≡ bytes_eq (word_in (chars first.now)) (word_in (chars second.now)) }
{
    let (mut rest, mut other) = (first, second);
    while let Some((a, behind_a)) = split_word_character(rest) {
        let Some((b, behind_b)) = split_word_character(other) else {
            return false;
        };
        if a != b {
            return false;
        }
        rest = behind_a;
        other = behind_b;
    }
    match split_word_character(other) {
        Some(_) => false,
        None => true,
    }
}

// The first character of a text, where it is one of a word, and what follows it.
fn split_word_character(text: &str) -> Option<(char, &str)>
    ensures { MatchOption result (word_in (chars text.now) ≡ [])
        (λ split. word_in (chars text.now) ≡ split.0 ∷ word_in (chars split.1.now)) }
{
    let (first, behind) = split_character(text)?;
    if is_word_character(first) {
        Some((first, behind))
    } else {
        None
    }
}
