//! A text of a string, with one backslash for each two.
ghost use Rattle.std.specs.Prelude.{◌≡◌, ◌≤◌, ◌++◌, [], length, vec_capacity, IsOk, OnOk};
ghost use Rattle.smap_pairs.specs.Halved.{begins_with_backslash, halved, has_doubled};

use std::alloc::AllocError;

/// Whether two backslashes stand in a text, one behind the other.
pub fn has_doubled(text: &[u8]) -> bool
    ensures { result ≡ has_doubled text.now }
{
    let mut rest = text;
    while let Some((byte, behind)) = rest.split_first() {
        if *byte == b'\\' && begins_with_backslash(behind) {
            return true;
        }
        rest = behind;
    }
    false
}

// Whether a text begins with a backslash.
fn begins_with_backslash(text: &[u8]) -> bool
    ensures { result ≡ begins_with_backslash text.now }
{
    match text.first() {
        Some(byte) => *byte == b'\\',
        None => false,
    }
}

/// Puts a text with one backslash for each two in the place of what `halves` has. It takes no memory where that has room
/// for the text.
pub fn halve_into(text: &[u8], halves: &mut Vec<u8>) -> Result<(), AllocError>
    ensures halved { OnOk result (halves.new.items ≡ halved text.now) }
    ensures room { length text.now ≤ vec_capacity halves.old → IsOk result }
    ensures capacity { vec_capacity halves.old ≤ vec_capacity halves.new }
{
    halves.clear();
    let mut rest = text;
    while let Some((byte, behind)) = rest.split_first() {
        halves.push(*byte)?;
        rest = match behind.split_first() {
            Some((b'\\', further)) if *byte == b'\\' => further,
            _ => behind,
        };
    }
    Ok(())
}
