//! The pairs of a line: `:`, a line, `:` and a column, behind which numbers do not go on.
ghost use Rattle.std.specs.Prelude.{◌≡◌, ◌≤◌, ◌<◌, ◌+◌, ◌∷◌, [], ℕ, IfOk, IfSome, IsOk, MatchOption, drop, is_some, length, true, vec_capacity};
ghost use Rattle.std.specs.List.{All};
ghost use Rattle.smap_pairs.specs.Pairs.{AreInOrder, HasPairAt, InAddress, IsPairOf};
ghost use Rattle.smap_pairs.specs.Pairs.{address_length, address_size, goes_on, is_address_byte, pair_numbers, pairs_behind, pairs_of};

use crate::numbers::numbers_after;
use memchr::memchr;
use std::alloc::AllocError;

/// A pair: from which byte of its line to which it stands, its line and its column, which count from 1, and where its piece
/// begins, which is what stands between the pair before and this one.
#[derive(Clone, Copy)]
pub struct Pair {
    pub start: usize,
    pub end: usize,
    pub piece: usize,
    pub line: u32,
    pub column: u32,
}

// How many bytes an address in brackets has at most.
const MOST_ADDRESS: usize = 64;

/// The pairs of a line, in the place of what stood in `pairs`. Where there is room for them, no memory is asked for; if
/// memory runs out, some of them stand there.
pub fn pairs_in_line(line: &[u8], pairs: &mut Vec<Pair>) -> Result<(), AllocError>
    ensures pairs { IfOk result (λ _. pairs.new.items ≡ pairs_of line.now) }
    ensures order { IfOk result (λ _. AreInOrder 0 (length line.now) pairs.new.items) }
    ensures each { IfOk result (λ _. All (IsPairOf line.now) pairs.new.items) }
    ensures all { IfOk result (λ _. (start : ℕ) →
        is_some (pair_numbers (drop start line.now)) ≡ true → ¬ InAddress line.now start →
        HasPairAt start pairs.new.items) }
    ensures room { length (pairs_of line.now) ≤ vec_capacity pairs.old → IsOk result }
    ensures capacity { vec_capacity pairs.old ≤ vec_capacity pairs.new }
{
    pairs.clear();
    let mut piece = 0;
    while let Some(pair) = next_pair(line, piece) {
        piece = pair.end;
        pairs.push(pair)?;
    }
    Ok(())
}

// The first pair of a line behind this byte, at which its piece begins. For all pairs of a line together each byte is read
// at most twelve times: to find a `:`; behind that as one of `//[`, of an address, or of a line or a column, whose digits
// are counted and then read; and behind these, where numbers may go on. No address is read twice, since in none begins
// another.
fn next_pair(line: &[u8], piece: usize) -> Option<Pair>
    requires { piece ≤ length line.now }
    ensures pair { MatchOption result (pairs_behind line.now piece ≡ []) (λ pair.
        pairs_behind line.now piece ≡ pair ∷ pairs_behind line.now pair.end) }
    ensures order { IfSome result (λ pair. AreInOrder piece (length line.now) (pair ∷ [])) }
{
    let mut at = piece;
    while let Some(bytes) = memchr(b':', &line[at..]) {
        let start = at + bytes;
        let text = &line[start..];
        if let Some((line, column, size)) = pair_numbers(text) {
            return Some(Pair {
                start,
                end: start + size,
                piece,
                line,
                column,
            });
        }
        at = start + address_size(text).max(1);
    }
    None
}

// The line and the column of the pair that a text begins with, and how many bytes it has.
#[tactic(auto, unfolding(crate::specs::Pairs::pair_numbers))]
fn pair_numbers(text: &[u8]) -> Option<(u32, u32, usize)>
    ensures numbers { result ≡ pair_numbers text.now }
    ensures within { IfSome result (λ numbers. (0 < numbers.2) × (numbers.2 ≤ length text.now)) }
{
    let (line, column, size) = numbers_after(text)?;
    if goes_on(&text[size..]) {
        return None;
    }
    Some((line, column, size))
}

// Whether numbers before a text go on in it.
fn goes_on(text: &[u8]) -> bool
    ensures { result ≡ goes_on text.now }
{
    match text {
        [b':' | b'-', byte, ..] => byte.is_ascii_digit(),
        _ => false,
    }
}

// How many bytes `://[`, an address and `]` are, where a text begins with them, and else 0.
#[tactic(auto, unfolding(crate::specs::Pairs::address_size))]
fn address_size(text: &[u8]) -> usize
    ensures size { result ≡ address_size text.now }
    ensures within { result ≤ length text.now }
{
    if !text.starts_with(b"://[") {
        return 0;
    }
    let address = address_length(&text[4..]);
    match text.get(address + 4) {
        Some(b']') => address + 5,
        _ => 0,
    }
}

// How many of the first 64 bytes of a text an address may have.
fn address_length(text: &[u8]) -> usize
    ensures count { result ≡ address_length text.now }
    ensures within { result ≤ length text.now }
{
    text.iter()
        .take(MOST_ADDRESS)
        .take_while(|byte| is_address_byte(**byte))
        .count()
}

// Whether an address in brackets may have a byte.
fn is_address_byte(byte: u8) -> bool
    ensures { result ≡ is_address_byte byte }
{
    byte.is_ascii_alphanumeric() || matches!(byte, b':' | b'.' | b'%' | b'_' | b'~' | b'-')
}
