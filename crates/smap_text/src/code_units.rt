//! UTF-16 code units of a text.
ghost use Rattle.std.specs.Prelude.{◌≡◌};
ghost use Rattle.smap_text.specs.Private.Ends.{bytes_by_first, units_by_first};
ghost use Rattle.smap_text.specs.Units.{units_in};

/// How many UTF-16 code units a text has: one for each character below U+10000, two for any other.
pub fn units(text: &str) -> u64
    ensures { result ≡ units_in text.now }
{
    let bytes = text.as_bytes();
    let mut units: u64 = 0;
    let mut at = 0;
    while at < bytes.len() {
        units += units_by_first(bytes[at]);
        at += bytes_by_first(bytes[at]);
    }
    units
}

// How many bytes a character has, by its first byte.
#[inline(always)]
pub fn bytes_by_first(byte: u8) -> usize
    ensures { result ≡ bytes_by_first byte }
{
    match byte {
        0..0x80 => 1,
        0x80..0xE0 => 2,
        0xE0..0xF0 => 3,
        _ => 4,
    }
}

// How many units a character has, by its first byte.
#[inline(always)]
pub fn units_by_first(byte: u8) -> u64
    ensures { result ≡ units_by_first byte }
{
    if byte < 0xF0 { 1 } else { 2 }
}
