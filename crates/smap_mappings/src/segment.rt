//! A segment's fields, as they are read.
ghost use Rattle.std.specs.Prelude.{◌≡◌, ◌+◌, ◌<◌, ◌≤◌, ◌↔◌, length, slice_index, IfSome, IfNone, IsTrue, false};
ghost use Rattle.smap_mappings.specs.Limits.{most_digits};
ghost use Rattle.smap_mappings.specs.Segment.{has_known_length};
ghost use Rattle.smap_mappings.specs.Private.Reading.{is_inside, segment_at, IsFieldAt, HasNoField, IsSegmentAt, fields_at, known_fields};

use crate::base64::number_of_one;
use crate::vlq::{read_two_digits, read_vlq};

// The differences that a segment states (ECMA-426, Mappings structure).
#[derive(Clone, Copy)]
pub struct Segment {
    pub column: i32,
    pub origin: Option<OriginFields>,
}

// The fields of a segment after its first.
#[derive(Clone, Copy)]
pub struct OriginFields {
    pub source: i32,
    pub line: i32,
    pub column: i32,
    pub name: Option<i32>,
}

// Whether a byte is neither `;` nor `,`.
#[inline(always)]
pub fn is_inside(byte: u8) -> bool
    ensures { result ≡ is_inside byte }
{
    byte != b';' && byte != b','
}

#[inline(always)]
fn is_at_end(bytes: &[u8], place: usize) -> bool
    requires { place ≤ length bytes.now }
    ensures { IsTrue result ↔ (length (segment_at bytes.now place) ≡ 0) }
{
    place >= bytes.len() || !is_inside(bytes[place])
}

// The same at a place before the text's end.
#[inline(always)]
pub fn is_at_inner_end(bytes: &[u8], place: usize) -> bool
    requires { place < length bytes.now }
    ensures { IsTrue result ↔ (length (segment_at bytes.now place) ≡ 0) }
{
    !is_inside(bytes[place])
}

#[inline(always)]
fn read_field(bytes: &[u8], place: usize) -> Option<(i32, usize)>
    requires { place ≤ length bytes.now }
    ensures some { IfSome result (λ read. IsFieldAt bytes.now place read.0 read.1) }
    ensures none { IfNone result (HasNoField bytes.now place) }
{
    // Most numbers have one digit, and most of a text's bytes are theirs.
    if place < bytes.len()
        && let Some(number) = number_of_one(bytes[place])
    {
        return Some((number, place + 1));
    }
    read_long_field(bytes, place)
}

// A field that begins at a place before the text's last bytes, so that nothing is asked of the text's end.
#[inline(always)]
pub fn read_inner_field(bytes: &[u8], place: usize) -> Option<(i32, usize)>
    requires { place + 1 < length bytes.now }
    ensures some { IfSome result (λ read. IsFieldAt bytes.now place read.0 read.1) }
    ensures few { IfSome result (λ read. read.1 ≤ place + most_digits) }
    ensures none { IfNone result (HasNoField bytes.now place) }
{
    if let Some(number) = number_of_one(bytes[place]) {
        return Some((number, place + 1));
    }
    if let Some(read) = read_two_digits(bytes, place) {
        return Some(read);
    }
    read_long_field(bytes, place)
}

// A field of any number of digits.
fn read_long_field(bytes: &[u8], place: usize) -> Option<(i32, usize)>
    requires { place ≤ length bytes.now }
    ensures some { IfSome result (λ read. IsFieldAt bytes.now place read.0 read.1) }
    ensures few { IfSome result (λ read. read.1 ≤ place + most_digits) }
    ensures none { IfNone result (HasNoField bytes.now place) }
{
    read_vlq(bytes, place).ok()
}

// The segment that begins at a place, and the place after it; `None` where its bytes spell no fields, or not one,
// four or five.
#[inline(always)]
pub fn read_segment(bytes: &[u8], place: usize) -> Option<(Segment, usize)>
    requires { place ≤ length bytes.now }
    ensures some { IfSome result (λ read. IsSegmentAt bytes.now place read.0 read.1) }
    ensures none { IfNone result (has_known_length (known_fields bytes.now place) ≡ false) }
{
    let (column, place) = read_field(bytes, place)?;
    if is_at_end(bytes, place) {
        return Some((
            Segment {
                column,
                origin: None,
            },
            place,
        ));
    }
    let (source, place) = read_field(bytes, place)?;
    let (line, place) = read_field(bytes, place)?;
    let (original_column, place) = read_field(bytes, place)?;
    if is_at_end(bytes, place) {
        let origin = OriginFields {
            source,
            line,
            column: original_column,
            name: None,
        };
        return Some((
            Segment {
                column,
                origin: Some(origin),
            },
            place,
        ));
    }
    let (name, place) = read_field(bytes, place)?;
    if !is_at_end(bytes, place) {
        return None;
    }
    let origin = OriginFields {
        source,
        line,
        column: original_column,
        name: Some(name),
    };
    Some((
        Segment {
            column,
            origin: Some(origin),
        },
        place,
    ))
}
