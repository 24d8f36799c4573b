//! URLs of frames that are told by the bytes of their line alone to be one and no more.
ghost use Rattle.std.specs.Prelude.{◌≡◌, ◌≤◌, length};
ghost use Rattle.std.specs.List.{list_all};
ghost use Rattle.smap_pairs.specs.Private.Bare.{begins_bare, is_bare, is_bare_before, is_bare_byte, is_quote_or_bracket};

use crate::pairs::Pair;
use crate::seen::bytes_by_themselves;

/// Whether what stands from byte `start` of a line to a pair is one URL, as far as that is told by the bytes alone: no
/// escape stands before its end, it begins as many do, and its bytes are visible ASCII without quotation marks and brackets.
pub fn is_bare_before(text: &[u8], start: usize, pair: &Pair) -> bool
    requires start { start ≤ pair.now.start }
    requires end { pair.now.start ≤ length text.now }
    ensures { result ≡ is_bare_before text.now start pair.now }
{
    pair.piece <= start
        && is_bare(&text[start..pair.start])
        && pair.start <= bytes_by_themselves(text)
}

fn is_bare(url: &[u8]) -> bool
    ensures { result ≡ is_bare url.now }
{
    begins_bare(url) && has_bare_bytes(url)
}

fn begins_bare(url: &[u8]) -> bool
    ensures { result ≡ begins_bare url.now }
{
    url.starts_with(b"https://")
        || url.starts_with(b"/")
        || url.starts_with(b"http://")
        || url.starts_with(b"file:///")
}

fn has_bare_bytes(url: &[u8]) -> bool
    ensures { result ≡ list_all is_bare_byte url.now }
{
    url.iter().all(|byte| is_bare_byte(*byte))
}

// Whether a byte is visible ASCII, and neither a quotation mark nor a bracket.
fn is_bare_byte(byte: u8) -> bool
    ensures { result ≡ is_bare_byte byte }
{
    b' ' < byte && byte < 0x7f && !is_quote_or_bracket(byte)
}

fn is_quote_or_bracket(byte: u8) -> bool
    ensures { result ≡ is_quote_or_bracket byte }
{
    matches!(
        byte,
        b'"' | b'\'' | b'`' | b'<' | b'>' | b'(' | b')' | b'[' | b']' | b'{' | b'}'
    )
}
