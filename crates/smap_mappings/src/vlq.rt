//! Base64 VLQ numbers, as they are read and written (ECMA-426, Base64 VLQ).
ghost use Rattle.std.specs.Prelude.{◌≡◌, ◌+◌, ◌++◌, ◌∷◌, ◌<◌, ◌≤◌, ◌↔◌, ℤ, ℕ, [], Ok, OnOk, OnErr, IfSome, length, unsigned_abs, slice_range, vec_len, vec_capacity};
ghost use Rattle.smap_mappings.specs.Limits.{limit, most_digits};
ghost use Rattle.smap_mappings.specs.Vlq.{Spells, number_at};
ghost use Rattle.smap_mappings.specs.Canonical.{IsShortestSpelling, digits_of, shortest_spelling, unsigned_number};
ghost use Rattle.smap_mappings.specs.Private.Reading.{checked_number, long_fault};

use crate::base64::{digit, letter};
use crate::limits::{LIMIT, MOST_DIGITS};
use std::alloc::AllocError;

/// Why no number begins at a place (ECMA-426, Base64 VLQ, in this project's profile).
#[derive(Clone, Copy, Debug, PartialEq, Eq)]
pub enum VlqFault {
    /// A byte that is no Base64 digit stands where the number would begin or go on.
    BadDigit,
    /// The bytes end before a digit below 32, which ends a number.
    Unended,
    /// The number has more than seven digits.
    TooLong,
    /// The magnitude is past 2147483647.
    TooLarge,
    /// The number is a negative zero.
    NegativeZero,
}

/// The number that begins at a place, counted in bytes from 0, and the place after it (ECMA-426, Base64 VLQ).
/// A fault is the first that holds of: every byte up to the end says that another digit follows, a bad digit,
/// too many digits, too large, negative zero.
#[inline(always)]
pub fn read_vlq(bytes: &[u8], place: usize) -> Result<(i32, usize), VlqFault>
    requires { place ≤ length bytes.now }
    ensures spelled { (n : ℤ) (end : ℕ) →
        (result ≡ Ok (n, end))
        ↔ ((end ≤ length bytes.now) × Spells (slice_range bytes.now place end) n) }
    ensures exact { result ≡ number_at bytes.now place }
{
    scan_number(bytes, place)
}

// The number of two digits that begins at a place, and the place after it.
#[inline(always)]
pub fn read_two_digits(bytes: &[u8], place: usize) -> Option<(i32, usize)>
    requires { place + 1 < length bytes.now }
    ensures exact { IfSome result (λ read. number_at bytes.now place ≡ Ok read) }
    ensures end { IfSome result (λ read. read.1 ≡ place + 2) }
{
    let low = digit(bytes[place])?;
    if low < 32 {
        return None;
    }
    let high = digit(bytes[place + 1])?;
    if high >= 32 {
        return None;
    }
    let unsigned = u64::from(low % 32) + u64::from(high) * 32;
    match checked_number(unsigned) {
        Ok(number) => Some((number, place + 2)),
        Err(_) => None,
    }
}

// The loop of `read_vlq`, whose other clause follows from this one.
#[inline(always)]
fn scan_number(bytes: &[u8], place: usize) -> Result<(i32, usize), VlqFault>
    requires { place ≤ length bytes.now }
    ensures { result ≡ number_at bytes.now place }
{
    let mut unsigned: u64 = 0;
    let mut scale: u64 = 1;
    for end in place..bytes.len() {
        if end - place == MOST_DIGITS {
            return Err(fault_past_most_digits(bytes, end));
        }
        let Some(value) = digit(bytes[end]) else {
            return Err(VlqFault::BadDigit);
        };
        unsigned += u64::from(value % 32) * scale;
        if value < 32 {
            return Ok((checked_number(unsigned)?, end + 1));
        }
        scale *= 32;
    }
    Err(VlqFault::Unended)
}

// The number of an unsigned value, whose lowest bit is the sign.
#[inline(always)]
fn checked_number(unsigned: u64) -> Result<i32, VlqFault>
    ensures { result ≡ checked_number unsigned }
{
    let magnitude = unsigned / 2;
    if magnitude > u64::from(LIMIT) {
        return Err(VlqFault::TooLarge);
    }
    if unsigned == 1 {
        return Err(VlqFault::NegativeZero);
    }
    if unsigned % 2 == 0 {
        Ok(magnitude as i32)
    } else {
        Ok(-(magnitude as i32))
    }
}

// Why a number is refused whose digits go on past the seventh, from the eighth digit's place on.
#[cold]
fn fault_past_most_digits(bytes: &[u8], place: usize) -> VlqFault
    requires { place ≤ length bytes.now }
    ensures { result ≡ long_fault bytes.now place }
{
    for end in place..bytes.len() {
        let Some(value) = digit(bytes[end]) else {
            return VlqFault::BadDigit;
        };
        if value < 32 {
            return VlqFault::TooLong;
        }
    }
    VlqFault::Unended
}

/// Appends the shortest spelling of a number, which has the fewest digits of all that spell it (ECMA-426, Base64 VLQ).
/// The caller gives any number but -2147483648. Room for the whole spelling is made before its first digit is written,
/// so a refusal leaves `out` as it was.
#[inline(always)]
pub fn write_vlq(n: i32, out: &mut Vec<u8>) -> Result<(), AllocError>
    requires { unsigned_abs n ≤ limit }
    ensures appended { OnOk result (out.new.items ≡ out.old.items ++ shortest_spelling n) }
    ensures shortest { IsShortestSpelling (shortest_spelling n) n }
    ensures unchanged { OnErr result (out.new.items ≡ out.old.items) }
{
    let unsigned = unsigned_number(n);
    if unsigned < 32 {
        out.push(letter(unsigned))?;
        Ok(())
    } else {
        write_long(unsigned, out)
    }
}

// How many digits the shortest spelling of a number has.
#[inline(always)]
pub fn spelling_length(n: i32) -> u64
    requires { unsigned_abs n ≤ limit }
    ensures length { result ≡ length (shortest_spelling n) }
    ensures few { result ≤ most_digits }
{
    let unsigned = unsigned_number(n);
    if unsigned < 32 {
        1
    } else {
        count_digits(unsigned) as u64
    }
}

// A number as an unsigned value: its lowest bit says whether it is negative.
#[inline(always)]
fn unsigned_number(n: i32) -> u32
    requires { unsigned_abs n ≤ limit }
    ensures { result ≡ unsigned_number n }
{
    n.unsigned_abs() * 2 + u32::from(n < 0)
}

// Appends the digits of an unsigned value.
fn write_long(unsigned: u32, out: &mut Vec<u8>) -> Result<(), AllocError>
    ensures appended { OnOk result
        (out.new.items ≡ out.old.items ++ digits_of most_digits unsigned) }
    ensures unchanged { OnErr result (out.new.items ≡ out.old.items) }
{
    out.reserve(count_digits(unsigned))?;
    let mut rest = unsigned;
    while rest >= 32 {
        push_within(letter(rest % 32 + 32), out);
        rest /= 32;
    }
    push_within(letter(rest), out);
    Ok(())
}

// Appends a byte for which there is room.
#[inline(always)]
fn push_within(byte: u8, out: &mut Vec<u8>)
    requires { vec_len out.old < vec_capacity out.old }
    ensures items { out.new.items ≡ out.old.items ++ byte ∷ [] }
    ensures len { vec_len out.new ≡ vec_len out.old + 1 }
    ensures capacity { vec_capacity out.old ≤ vec_capacity out.new }
{
    let pushed = out.push(byte).is_ok();
    prove!(pushed);
}

// How many digits an unsigned value has.
fn count_digits(unsigned: u32) -> usize
    ensures count { result ≡ length (digits_of most_digits unsigned) }
    ensures few { result ≤ most_digits }
{
    let mut count = 1;
    let mut rest = unsigned;
    while rest >= 32 {
        rest /= 32;
        count += 1;
    }
    count
}
