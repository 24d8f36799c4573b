//! Where the lines of a text end (ECMAScript, line terminator sequences).
ghost use Rattle.std.specs.Prelude.{◌≡◌, ◌+◌, ◌<◌, ◌^◌};
ghost use Rattle.std.specs.Str.{chars};
ghost use Rattle.smap_fit.specs.Owners.{column_after, ends_line, line_after};
ghost use Rattle.smap_text.specs.Lines.{has_line_feed_first, is_line_end};

/// Whether a character is a line end, or a part of one.
pub fn is_line_end(character: char) -> bool
    ensures { result ≡ is_line_end character }
{
    matches!(character, '\n' | '\r' | '\u{2028}' | '\u{2029}')
}

/// Where the character behind one at this line and column stands, with which this text begins.
pub fn place_after(line: u64, column: u64, character: char, following: &str) -> (u64, u64)
    requires line { line + 1 < 2 ^ 64 }
    requires column { column + 2 < 2 ^ 64 }
    ensures line { result.0 ≡ line_after line character (chars following.now) }
    ensures column { result.1 ≡ column_after column character (chars following.now) }
{
    if ends_line(character, following) {
        (line + 1, 0)
    } else {
        (line, column + character.len_utf16() as u64)
    }
}

// Whether a line ends with a character, which this text follows.
fn ends_line(character: char, following: &str) -> bool
    ensures { result ≡ ends_line character (chars following.now) }
{
    is_line_end(character) && !(character == '\r' && has_line_feed_first(following))
}

// Whether a text begins with an LF.
fn has_line_feed_first(text: &str) -> bool
    ensures { result ≡ has_line_feed_first (chars text.now) }
{
    match text.as_bytes().first() {
        Some(byte) => *byte == b'\n',
        None => false,
    }
}
