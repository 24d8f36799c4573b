//! Kinds of bytes.
ghost use Rattle.std.specs.Prelude.{◌≡◌};
ghost use Rattle.smap_pairs.specs.Bytes.{is_control, is_edge_byte, is_letter_or_digit};

/// Whether a byte is a letter or a digit, as each byte of a character beyond ASCII counts.
pub fn is_letter_or_digit(byte: u8) -> bool
    ensures { result ≡ is_letter_or_digit byte }
{
    byte.is_ascii_alphanumeric() || byte >= 0x80
}

// Of each byte, whether a URL may begin behind it. A table, so that it costs one look-up.
const EDGES: [bool; 256] = [
    true, true, true, true, true, true, true, true, true, true, true, true, true, true, true, true,
    true, true, true, true, true, true, true, true, true, true, true, true, true, true, true, true,
    true, true, true, true, false, false, true, true, true, true, true, false, true, false, false,
    false, false, false, false, false, false, false, false, false, false, false, false, true, true,
    true, true, true, true, false, false, false, false, false, false, false, false, false, false,
    false, false, false, false, false, false, false, false, false, false, false, false, false,
    false, false, false, true, false, true, true, false, true, false, false, false, false, false,
    false, false, false, false, false, false, false, false, false, false, false, false, false,
    false, false, false, false, false, false, false, false, true, true, true, false, true, false,
    false, false, false, false, false, false, false, false, false, false, false, false, false,
    false, false, false, false, false, false, false, false, false, false, false, false, false,
    false, false, false, false, false, false, false, false, false, false, false, false, false,
    false, false, false, false, false, false, false, false, false, false, false, false, false,
    false, false, false, false, false, false, false, false, false, false, false, false, false,
    false, false, false, false, false, false, false, false, false, false, false, false, false,
    false, false, false, false, false, false, false, false, false, false, false, false, false,
    false, false, false, false, false, false, false, false, false, false, false, false, false,
    false, false, false, false, false, false, false, false, false, false, false, false, false,
    false, false, false, false, false, false, false, false, false, false,
];

/// Whether a URL may begin behind a byte.
pub fn is_edge_byte(byte: u8) -> bool
    ensures { result ≡ is_edge_byte byte }
{
    EDGES[byte as usize]
}

/// Whether a byte is a blank or a control byte.
pub fn is_control(byte: u8) -> bool
    ensures { result ≡ is_control byte }
{
    byte <= b' ' || byte == 0x7f
}
