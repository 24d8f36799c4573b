//! The escapes of a line.
ghost use Rattle.std.specs.Prelude.{◌≡◌, ◌+◌, ◌<◌, ◌≤◌, ◌∷◌, [], length, IfSome, IsSome};
ghost use Rattle.smap_pairs.specs.Escapes.{ending_of, escape_from, escape_of, hexadecimal, meant_by, number_of, octal, of_size};
ghost use Rattle.smap_pairs.specs.Private.EscapeWithin.{IsWithin};

/// An escape: how many bytes it has, and the character that it means.
#[derive(Clone, Copy)]
pub struct Escape {
    pub size: usize,
    pub means: u16,
}

/// The escape that a text begins with. It reads no more than that, and behind it a run of backslashes and five bytes.
#[tactic(auto, unfolding(crate::specs::Escapes::escape_of))]
pub fn escape_of(text: &[u8]) -> Option<Escape>
    ensures escape { result ≡ escape_of text.now }
    ensures within { IfSome result (IsWithin text.now) }
{
    match *text.first()? {
        b'\\' => longest_escape(text),
        b'#' => of_size(4, octal(text)),
        _ => None,
    }
}

// The number that three octal digits behind a `#` write, where it is that of a control character.
fn octal(text: &[u8]) -> Option<u16>
    ensures number { result ≡ octal text.now }
    ensures within { IsSome result → 4 ≤ length text.now }
{
    match text {
        [_, b'0', high, low, ..] => {
            if b'0' <= *high && *high <= b'3' && b'0' <= *low && *low <= b'7' {
                Some(8 * u16::from(*high - b'0') + u16::from(*low - b'0'))
            } else {
                None
            }
        }
        _ => None,
    }
}

// The longest escape that a text begins with, in one pass.
#[tactic(auto, using(crate::proofs::EscapesLaws::escape_steps))]
fn longest_escape(text: &[u8]) -> Option<Escape>
    ensures escape { result ≡ escape_from 0 0 None text.now }
    ensures within { IfSome result (IsWithin text.now) }
{
    let mut found = None;
    let mut size = 0;
    let mut rest = text;
    while let Some((byte, behind)) = rest.split_first() {
        if *byte == b'\\' {
            size += 1;
            rest = behind;
            continue;
        }
        let Some(ending) = ending_of(rest) else {
            return found;
        };
        size += ending.size;
        found = Some(Escape {
            size,
            means: ending.means,
        });
        if ending.means != u16::from(b'\\') {
            return found;
        }
        rest = &rest[ending.size..];
    }
    found
}

// The ending that a text begins with, and what it means.
#[tactic(auto, unfolding(crate::specs::Escapes::ending_of))]
fn ending_of(text: &[u8]) -> Option<Escape>
    ensures ending { result ≡ ending_of text.now }
    ensures within { IfSome result (IsWithin text.now) }
{
    let (byte, rest) = text.split_first()?;
    match *byte {
        b'u' => of_size(5, number_of_four(rest)),
        b'x' => of_size(3, number_of_two(rest)),
        letter => of_size(1, meant_by(letter)),
    }
}

// An escape of so many bytes, if it means something.
fn of_size(size: usize, means: Option<u16>) -> Option<Escape>
    ensures { result ≡ of_size size means }
{
    Some(Escape {
        size,
        means: means?,
    })
}

// The number that the first four bytes of a text write.
fn number_of_four(text: &[u8]) -> Option<u16>
    ensures number { result ≡ number_of 4 text.now }
    ensures within { IsSome result → 4 ≤ length text.now }
{
    match text {
        [a, b, c, d, ..] => Some(u16::from(pair(*a, *b)?) * 256 + u16::from(pair(*c, *d)?)),
        _ => None,
    }
}

// The number that the first two bytes of a text write.
fn number_of_two(text: &[u8]) -> Option<u16>
    ensures number { result ≡ number_of 2 text.now }
    ensures within { IsSome result → 2 ≤ length text.now }
{
    match text {
        [a, b, ..] => Some(u16::from(pair(*a, *b)?)),
        _ => None,
    }
}

// The number that two hexadecimal digits write.
fn pair(high: u8, low: u8) -> Option<u8>
    ensures { result ≡ hexadecimal 0 (high ∷ low ∷ []) }
{
    Some(digit(high)? * 16 + digit(low)?)
}

// The value of a hexadecimal digit.
fn digit(byte: u8) -> Option<u8>
    ensures value { result ≡ hexadecimal 0 (byte ∷ []) }
    ensures below { IfSome result (λ value. value < 16) }
{
    match byte {
        b'0'..=b'9' => Some(byte - b'0'),
        b'A'..=b'F' => Some(byte - b'A' + 10),
        b'a'..=b'f' => Some(byte - b'a' + 10),
        _ => None,
    }
}

// What a letter or a quotation mark means behind a backslash.
fn meant_by(byte: u8) -> Option<u16>
    ensures { result ≡ meant_by byte }
{
    match byte {
        b'n' => Some(10),
        b'r' => Some(13),
        b't' => Some(9),
        b'b' => Some(8),
        b'f' => Some(12),
        b'"' | b'\'' => Some(u16::from(byte)),
        _ => None,
    }
}
