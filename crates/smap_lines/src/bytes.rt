//! The bytes of a line, and where it ends.
ghost use Rattle.std.specs.Prelude.{◌≡◌, ◌≤◌, ◌∷◌, ◌++◌, false, length, IfSome, IsNone};
ghost use Rattle.std.specs.Char.{is_ascii_control};
ghost use Rattle.std.specs.List.{list_any, prefix_len};
ghost use Rattle.smap_lines.specs.Bytes.{is_blank};
ghost use Rattle.smap_lines.specs.Lines.{end_in, has_line_end};

use memchr::memchr;

/// How many blanks, which are spaces and tabs, a text begins with.
pub fn blanks(text: &[u8]) -> usize
    ensures count { result ≡ prefix_len is_blank text.now }
    ensures within { result ≤ length text.now }
{
    text.iter()
        .take_while(|byte| **byte == b' ' || **byte == b'\t')
        .count()
}

/// Whether a control character of ASCII stands in a text.
pub fn has_control(text: &[u8]) -> bool
    ensures { result ≡ list_any is_ascii_control text.now }
{
    // No byte is asked whether to stop, so that many are tested at once.
    let mut found = false;
    for byte in text {
        found |= byte.is_ascii_control();
    }
    found
}

/// The bytes before the first LF, and those after it, where there is one.
pub fn cut_at_line_end(text: &[u8]) -> Option<(&[u8], &[u8])>
    ensures cut { IfSome result (λ cut. text.now ≡ cut.0.now ++ 10 ∷ cut.1.now) }
    ensures first { IfSome result (λ cut. has_line_end cut.0.now ≡ false) }
    ensures none { IsNone result → has_line_end text.now ≡ false }
{
    let place = memchr(b'\n', text)?;
    Some((&text[..place], &text[place + 1..]))
}

/// The LF of a line, where it has one.
pub fn end_of_line(is_ended: bool) -> &'static [u8]
    ensures { result.now ≡ end_in is_ended }
{
    if is_ended { b"\n" } else { b"" }
}
