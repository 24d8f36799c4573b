//! Why a segment that can't be read is refused for how it is spelled.
ghost use Rattle.std.specs.Prelude.{◌≡◌, ◌+◌, ◌<◌, length};
ghost use Rattle.smap_mappings.specs.Vlq.{is_continuing};
ghost use Rattle.smap_mappings.specs.Segment.{cuts_of};
ghost use Rattle.smap_mappings.specs.Faults.{has_bad_digit, is_unended, numbers_fault, spelling_fault};
ghost use Rattle.smap_mappings.specs.Private.Reading.{front_at};
ghost use Rattle.smap_mappings.specs.Private.Spelling.{IsClean};

use crate::base64::digit;
use crate::fault::FaultKind;
use crate::vlq::{VlqFault, read_vlq};

// The least kind of fault that holds of how a segment is spelled, and of how many numbers it has. It is asked only
// where the segment could not be read, so each question is a pass of its own.
pub fn spelling_fault(segment: &[u8]) -> Option<FaultKind>
    ensures { result ≡ spelling_fault segment.now }
{
    if has_bad_digit(segment) {
        return Some(FaultKind::BadDigit);
    }
    if is_unended(segment) {
        return Some(FaultKind::Unended);
    }
    numbers_fault(segment)
}

fn has_bad_digit(segment: &[u8]) -> bool
    ensures { result ≡ has_bad_digit segment.now }
{
    segment.iter().any(|byte| digit(*byte).is_none())
}

fn is_unended(segment: &[u8]) -> bool
    ensures { result ≡ is_unended segment.now }
{
    if segment.is_empty() {
        return false;
    }
    is_continuing(segment[segment.len() - 1])
}

fn is_continuing(byte: u8) -> bool
    ensures { result ≡ is_continuing byte }
{
    match digit(byte) {
        Some(value) => value >= 32,
        None => false,
    }
}

// The place after the number that begins at a place.
fn number_end(segment: &[u8], place: usize) -> usize
    requires { place + front_at segment.now place < length segment.now }
    ensures { result ≡ place + front_at segment.now place + 1 }
{
    let mut end = place;
    while is_continuing(segment[end]) {
        end += 1;
    }
    end + 1
}

// The least kind that holds of the numbers of a segment, each of which has an end.
fn numbers_fault(segment: &[u8]) -> Option<FaultKind>
    requires { IsClean segment.now }
    ensures { result ≡ numbers_fault (cuts_of segment.now) }
{
    let mut place = 0;
    let mut count = 0usize;
    let mut has_too_large = false;
    let mut has_negative_zero = false;
    while place < segment.len() {
        if let Err(fault) = read_vlq(segment, place) {
            match fault {
                VlqFault::TooLong => return Some(FaultKind::TooLong),
                VlqFault::TooLarge => has_too_large = true,
                VlqFault::NegativeZero => has_negative_zero = true,
                _ => {}
            }
        }
        place = number_end(segment, place);
        count += 1;
    }
    if has_too_large {
        return Some(FaultKind::TooLarge);
    }
    if has_negative_zero {
        return Some(FaultKind::NegativeZero);
    }
    match count {
        1 | 4 | 5 => None,
        _ => Some(FaultKind::FieldCount),
    }
}
