//! Base64 digits (ECMA-426, Base64 VLQ).
ghost use Rattle.std.specs.Prelude.{◌≡◌, ◌<◌, [], ◌∷◌};
ghost use Rattle.smap_mappings.specs.Base64.{digit_of};
ghost use Rattle.smap_mappings.specs.Canonical.{letter_of};
ghost use Rattle.smap_mappings.specs.Vlq.{number_of};

// No byte's value: digits are 0 to 63.
const NO_DIGIT: u8 = 64;

// Of each byte, its value as a digit. A table, so that a digit costs one look-up.
const DIGITS: [u8; 256] = [
    64, 64, 64, 64, 64, 64, 64, 64, 64, 64, 64, 64, 64, 64, 64, 64, 64, 64, 64, 64, 64, 64, 64, 64,
    64, 64, 64, 64, 64, 64, 64, 64, 64, 64, 64, 64, 64, 64, 64, 64, 64, 64, 64, 62, 64, 64, 64, 63,
    52, 53, 54, 55, 56, 57, 58, 59, 60, 61, 64, 64, 64, 64, 64, 64, 64, 0, 1, 2, 3, 4, 5, 6, 7, 8,
    9, 10, 11, 12, 13, 14, 15, 16, 17, 18, 19, 20, 21, 22, 23, 24, 25, 64, 64, 64, 64, 64, 64, 26,
    27, 28, 29, 30, 31, 32, 33, 34, 35, 36, 37, 38, 39, 40, 41, 42, 43, 44, 45, 46, 47, 48, 49, 50,
    51, 64, 64, 64, 64, 64, 64, 64, 64, 64, 64, 64, 64, 64, 64, 64, 64, 64, 64, 64, 64, 64, 64, 64,
    64, 64, 64, 64, 64, 64, 64, 64, 64, 64, 64, 64, 64, 64, 64, 64, 64, 64, 64, 64, 64, 64, 64, 64,
    64, 64, 64, 64, 64, 64, 64, 64, 64, 64, 64, 64, 64, 64, 64, 64, 64, 64, 64, 64, 64, 64, 64, 64,
    64, 64, 64, 64, 64, 64, 64, 64, 64, 64, 64, 64, 64, 64, 64, 64, 64, 64, 64, 64, 64, 64, 64, 64,
    64, 64, 64, 64, 64, 64, 64, 64, 64, 64, 64, 64, 64, 64, 64, 64, 64, 64, 64, 64, 64, 64, 64, 64,
    64, 64, 64, 64, 64, 64, 64, 64, 64, 64, 64, 64, 64, 64,
];

/// The value of a Base64 digit, 0 to 63, and `None` for any other byte (ECMA-426, Base64 VLQ).
#[inline(always)]
pub fn digit(byte: u8) -> Option<u8>
    ensures { result ≡ digit_of byte }
{
    let value = DIGITS[byte as usize];
    if value < NO_DIGIT { Some(value) } else { None }
}

// No number of one digit: these are -15 to 15.
const NO_NUMBER: i32 = 16;

// Of each byte, the number that it spells by itself. A table, so that such a number costs one look-up.
const NUMBERS: [i32; 256] = [
    16, 16, 16, 16, 16, 16, 16, 16, 16, 16, 16, 16, 16, 16, 16, 16, 16, 16, 16, 16, 16, 16, 16, 16,
    16, 16, 16, 16, 16, 16, 16, 16, 16, 16, 16, 16, 16, 16, 16, 16, 16, 16, 16, 16, 16, 16, 16, 16,
    16, 16, 16, 16, 16, 16, 16, 16, 16, 16, 16, 16, 16, 16, 16, 16, 16, 0, 16, 1, -1, 2, -2, 3, -3,
    4, -4, 5, -5, 6, -6, 7, -7, 8, -8, 9, -9, 10, -10, 11, -11, 12, -12, 16, 16, 16, 16, 16, 16,
    13, -13, 14, -14, 15, -15, 16, 16, 16, 16, 16, 16, 16, 16, 16, 16, 16, 16, 16, 16, 16, 16, 16,
    16, 16, 16, 16, 16, 16, 16, 16, 16, 16, 16, 16, 16, 16, 16, 16, 16, 16, 16, 16, 16, 16, 16, 16,
    16, 16, 16, 16, 16, 16, 16, 16, 16, 16, 16, 16, 16, 16, 16, 16, 16, 16, 16, 16, 16, 16, 16, 16,
    16, 16, 16, 16, 16, 16, 16, 16, 16, 16, 16, 16, 16, 16, 16, 16, 16, 16, 16, 16, 16, 16, 16, 16,
    16, 16, 16, 16, 16, 16, 16, 16, 16, 16, 16, 16, 16, 16, 16, 16, 16, 16, 16, 16, 16, 16, 16, 16,
    16, 16, 16, 16, 16, 16, 16, 16, 16, 16, 16, 16, 16, 16, 16, 16, 16, 16, 16, 16, 16, 16, 16, 16,
    16, 16, 16, 16, 16, 16, 16, 16, 16, 16, 16, 16, 16, 16, 16, 16,
];

// The number that a byte spells by itself, as most numbers are spelled (ECMA-426, Base64 VLQ).
#[inline(always)]
pub fn number_of_one(byte: u8) -> Option<i32>
    ensures { result ≡ number_of (byte ∷ []) }
{
    let number = NUMBERS[byte as usize];
    if number < NO_NUMBER {
        Some(number)
    } else {
        None
    }
}

// Of each value, 0 to 63, its letter.
const LETTERS: [u8; 64] = *b"ABCDEFGHIJKLMNOPQRSTUVWXYZabcdefghijklmnopqrstuvwxyz0123456789+/";

// The letter of a digit's value, 0 to 63 (ECMA-426, Base64 VLQ).
#[inline(always)]
pub fn letter(value: u32) -> u8
    requires { value < 64 }
    ensures { result ≡ letter_of value }
{
    LETTERS[value as usize]
}
