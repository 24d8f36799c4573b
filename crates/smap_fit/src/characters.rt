//! Characters of a text, one after another.
ghost use Rattle.std.specs.Prelude.{◌≡◌, ◌∷◌, ◌++◌, [], encode_utf8, IfSome, MatchOption};
ghost use Rattle.std.specs.Str.{chars};
ghost use Rattle.smap_text.specs.Units.{units_of};

/// The first character of a text and what follows it, where there is one.
pub fn split_character(text: &str) -> Option<(char, &str)>
    ensures chars { MatchOption result (chars text.now ≡ [])
        (λ split. chars text.now ≡ split.0 ∷ chars split.1.now) }
    ensures bytes { IfSome result (λ split. text.now ≡ encode_utf8 split.0 ++ split.1.now) }
{
    let mut characters = text.chars();
    match characters.next() {
        Some(first) => Some((first, characters.as_str())),
        None => None,
    }
}

/// How many UTF-16 code units a character is.
pub fn units_of(character: char) -> u32
    ensures { result ≡ units_of character }
{
    character.len_utf16() as u32
}
