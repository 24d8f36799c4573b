//! What a segment's bytes spell, number by number, and what is measured of one that is spelled wrong.
ghost use Rattle.std.specs.Prelude.{◌≡◌, ◌∷◌, ◌<◌, ◌≤◌, IfOk, drop, length, slice_range};
ghost use Rattle.std.specs.Option.{option_map};
ghost use Rattle.smap_mappings.specs.Limits.{most_digits};
ghost use Rattle.smap_mappings.specs.Vlq.{digit_value, is_ending, unsigned_of};
ghost use Rattle.smap_mappings.specs.Segment.{cuts_of, fields_of};
ghost use Rattle.smap_mappings.specs.Measures.{first_bad_digit, large_magnitude, long_number_digits};

use crate::base64::digit;
use crate::limits::{LIMIT, MOST_DIGITS};
use crate::vlq::read_vlq;
use std::alloc::{AllocError, Global};

/// The numbers that a segment spells, one after another up to its end, and `None` where one of them is not spelled right.
pub fn segment_numbers(alloc: Global, segment: &[u8]) -> Result<Option<Vec<i32>>, AllocError>
    ensures { IfOk result (λ numbers.
        option_map (λ list. list.items) numbers ≡ fields_of segment.now) }
{
    let mut numbers = Vec::new(alloc);
    let mut place = 0;
    while place < segment.len() {
        let Ok((number, end)) = read_vlq(segment, place) else {
            return Ok(None);
        };
        numbers.push(number)?;
        place = end;
    }
    Ok(Some(numbers))
}

/// The first byte of a segment that is no Base64 digit.
pub fn first_bad_digit(segment: &[u8]) -> Option<u8>
    ensures { result ≡ first_bad_digit segment.now }
{
    for i in 0..segment.len() {
        if digit(segment[i]).is_none() {
            return Some(segment[i]);
        }
    }
    None
}

/// How many digits the first number of a segment has that has more than seven. A number ends after the first digit below
/// 32, or with the segment.
pub fn long_number_digits(segment: &[u8]) -> Option<u64>
    ensures { result ≡ long_number_digits segment.now }
{
    let mut place = 0;
    while place < segment.len() {
        let end = cut_end(segment, place);
        if end - place > MOST_DIGITS {
            return Some((end - place) as u64);
        }
        place = end;
    }
    None
}

/// The magnitude of the first number of a segment that has at most seven digits and is past 2147483647.
pub fn large_magnitude(segment: &[u8]) -> Option<u64>
    ensures { result ≡ large_magnitude segment.now }
{
    let mut place = 0;
    while place < segment.len() {
        let end = cut_end(segment, place);
        if end - place <= MOST_DIGITS {
            let magnitude = unsigned_value(&segment[place..end]) / 2;
            if magnitude > u64::from(LIMIT) {
                return Some(magnitude);
            }
        }
        place = end;
    }
    None
}

// The place after the number that begins at a place: after the first digit that ends one, or the end of the segment.
fn cut_end(segment: &[u8], place: usize) -> usize
    requires { place < length segment.now }
    ensures onward { place < result }
    ensures inside { result ≤ length segment.now }
    ensures cut { cuts_of (drop place segment.now)
        ≡ slice_range segment.now place result ∷ cuts_of (drop result segment.now) }
{
    for end in place..segment.len() {
        if is_ending(segment[end]) {
            return end + 1;
        }
    }
    segment.len()
}

// Whether a byte is a digit that ends a number.
fn is_ending(byte: u8) -> bool
    ensures { result ≡ is_ending byte }
{
    match digit(byte) {
        Some(value) => value < 32,
        None => false,
    }
}

// The digits as one number, the least significant first; its lowest bit is the sign.
fn unsigned_value(digits: &[u8]) -> u64
    requires { length digits.now ≤ most_digits }
    ensures { result ≡ unsigned_of digits.now }
{
    let mut unsigned: u64 = 0;
    let mut scale: u64 = 1;
    for i in 0..digits.len() {
        unsigned += u64::from(digit_value(digits[i]) % 32) * scale;
        scale *= 32;
    }
    unsigned
}

// The value of a digit, and 0 for a byte that is none.
fn digit_value(byte: u8) -> u8
    ensures { result ≡ digit_value byte }
{
    digit(byte).unwrap_or(0)
}
