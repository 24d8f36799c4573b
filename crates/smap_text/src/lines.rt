//! The lines of a text (ECMAScript, line terminator sequences).
ghost use Rattle.std.specs.Prelude.{◌≡◌, ◌≤◌, ◌-◌, ◌∷◌, length, drop, take, option_copied, option_map, slice_get};
ghost use Rattle.std.specs.Prelude.{IfSome, MatchOption};
ghost use Rattle.std.specs.Str.{chars};
ghost use Rattle.smap_text.specs.Private.Ends.{end_bytes, line_bytes};
ghost use Rattle.smap_text.specs.Begins.{BeginsAt};
ghost use Rattle.smap_text.specs.Lines.{IsSliceAt, lines_behind, lines_of};
ghost use Rattle.smap_text.specs.Rest.{IsEndFrom};

/// The line of this number, from 0, without its line end; `None` where there are fewer. Lines end in LF, CR LF, CR,
/// U+2028 or U+2029, and an empty content has one empty line.
pub fn line_at(content: &str, line: u32) -> Option<&str>
    ensures text { option_map (λ text. chars text.now) result
        ≡ slice_get (lines_of (chars content.now)) line }
    ensures slice { IfSome result (λ text. IsSliceAt content.now line text.now) }
{
    let rest = rest_from(content, line)?;
    Some(split_line(rest).0)
}

/// What a text has from its line of this number on, from 0, where it has that line.
pub fn rest_from(text: &str, line: u32) -> Option<&str>
    ensures { MatchOption result (length (lines_of (chars text.now)) ≤ line)
        (λ rest. IsEndFrom text.now line rest.now) }
{
    let mut rest = text;
    for _passed in 0..line {
        rest = split_line(rest).1?;
    }
    Some(rest)
}

/// The first line of a text, without its end, and what follows that end; `None` where the line has none.
pub fn split_line(text: &str) -> (&str, Option<&str>)
    ensures lines { lines_of (chars text.now)
        ≡ chars result.0.now ∷ lines_behind (option_copied result.1) }
    ensures front { take (length result.0.now) text.now ≡ result.0.now }
    ensures rest { IfSome result.1 (λ rest.
        drop (length text.now - length rest.now) text.now ≡ rest.now) }
    ensures begins { IfSome result.1 (λ rest.
        BeginsAt text.now 1 (length text.now - length rest.now)) }
{
    let bytes = text.as_bytes();
    let end = line_bytes(bytes);
    let line = &text[..end];
    match end_bytes(&bytes[end..]) {
        0 => (line, None),
        length => (line, Some(&text[end + length..])),
    }
}

// How many bytes stand before the first line end of a text.
fn line_bytes(bytes: &[u8]) -> usize
    ensures bytes { result ≡ line_bytes bytes.now }
    ensures within { result ≤ length bytes.now }
{
    for end in 0..bytes.len() {
        if end_bytes(&bytes[end..]) > 0 {
            return end;
        }
    }
    bytes.len()
}

// How many bytes the line end has that begins a text; 0 where none does.
#[inline(always)]
fn end_bytes(bytes: &[u8]) -> usize
    ensures { result ≡ end_bytes bytes.now }
{
    match bytes {
        [b'\n', ..] => 1,
        [b'\r', b'\n', ..] => 2,
        [b'\r', ..] => 1,
        [0xE2, 0x80, 0xA8 | 0xA9, ..] => 3,
        _ => 0,
    }
}
