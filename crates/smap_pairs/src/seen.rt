//! What the bytes of a line count as.
ghost use Rattle.std.specs.List.{prefix_len};
ghost use Rattle.std.specs.Prelude.{◌≡◌, ◌<◌, ◌≤◌, ◌+◌, ◌++◌, length, map, take, vec_capacity, IfOk, IsOk};
ghost use Rattle.smap_pairs.specs.Bytes.{is_edge_byte};
ghost use Rattle.smap_pairs.specs.Seen.{by_itself, counted, counted_from, counts_as, is_by_itself, seen_of, token_bytes, token_size, within};
ghost use Rattle.smap_pairs.specs.Signs.{text_of};

use crate::bytes::is_edge_byte;
use crate::settled::settle;
use crate::token::{Token, token_of, token_size};
use memchr::memchr3;
use std::alloc::AllocError;

/// A byte of a line, and what it counts as. An escape, as in JSON, counts at its last byte as what it means.
#[derive(Clone, Copy)]
pub struct SeenByte {
    /// How many bytes the escape or the colour has that ends with this byte, and 0 where none does.
    pub size: usize,
    /// The byte itself.
    pub byte: u8,
    /// What it counts as: itself, what the escape means that ends with it, or `NOTHING`, which stands within an escape and
    /// in a colour.
    pub counts: u8,
    /// Whether a URL may begin right behind it.
    pub is_edge: bool,
}

// There is one for each byte of a line.
const _: () = prove!(size_of::<SeenByte>() == 16);

/// What a byte counts as within an escape or a colour.
pub const NOTHING: u8 = 0xff;

// What an escaped letter up to U+07FF counts as.
const LETTER: u8 = 0xc3;

// What an escaped character up to U+1FFF does.
const SCRIPT: u8 = 0xe1;

/// What another escaped character beyond ASCII counts as, and an apostrophe.
pub const SIGN: u8 = 0xe2;

/// What the bytes of a line count as, one element a byte. The elements of before go, their room stays: where it is enough,
/// no memory is asked for. After an error some of the line's elements are there.
///
/// Fewer than 20 bytes are read for each byte of a line, whatever stands there. Each is read when it is sought, as a part
/// of what begins there, when that is added and when it is settled; a backslash also for the escape before its run and when
/// the run is counted, and five bytes behind a run, twice; a parameter for a colour that breaks off; and nine bytes beside a
/// `:`, and those of a character before a drive or `file:`.
pub fn see_into(line: &[u8], seen: &mut Vec<SeenByte>) -> Result<(), AllocError>
    ensures seen { IfOk result (λ _. seen.new.items ≡ seen_of line.now) }
    ensures stands { IfOk result (λ _. text_of seen.new.items ≡ line.now) }
    ensures one_a_byte { IfOk result (λ _. length seen.new.items ≡ length line.now) }
    ensures room { length line.now ≤ vec_capacity seen.old → IsOk result }
    ensures capacity { vec_capacity seen.old ≤ vec_capacity seen.new }
{
    count_into(line, seen)?;
    settle(line, seen);
    Ok(())
}

// What the bytes count as, but for what depends on their neighbours.
fn count_into(line: &[u8], seen: &mut Vec<SeenByte>) -> Result<(), AllocError>
    ensures counted { IfOk result (λ _. seen.new.items ≡ counted_from 0 line.now) }
    ensures stands { IfOk result (λ _. text_of seen.new.items ≡ line.now) }
    ensures one_a_byte { IfOk result (λ _. length seen.new.items ≡ length line.now) }
    ensures room { length line.now ≤ vec_capacity seen.old → IsOk result }
    ensures capacity { vec_capacity seen.old ≤ vec_capacity seen.new }
{
    seen.clear();
    seen.reserve(line.len())?;
    let mut rest = line;
    loop {
        let (run, behind) = rest.split_at(bytes_by_themselves(rest));
        push_run(run, seen);
        if behind.is_empty() {
            return Ok(());
        }
        let token = token_of(behind);
        push_token(token, behind, seen)?;
        rest = behind.split_at(token_size(token)).1;
    }
}

/// How many bytes a text begins with, with none of which an escape or a colour begins.
pub fn bytes_by_themselves(text: &[u8]) -> usize
    ensures bytes { result ≡ prefix_len is_by_itself text.now }
    ensures within { result ≤ length text.now }
{
    memchr3(b'\\', b'#', 0x1b, text).unwrap_or(text.len())
}

// Adds bytes that count by themselves, for which there is room.
fn push_run(run: &[u8], seen: &mut Vec<SeenByte>)
    requires room { length seen.old.items + length run.now ≤ vec_capacity seen.old }
    ensures added { seen.new.items ≡ seen.old.items ++ map by_itself run.now }
    ensures size { length seen.new.items ≡ length seen.old.items + length run.now }
    ensures capacity { vec_capacity seen.new ≡ vec_capacity seen.old }
{
    for byte in run {
        seen.push_reserved(by_itself(*byte));
    }
}

fn by_itself(byte: u8) -> SeenByte
    ensures { result ≡ by_itself byte }
{
    SeenByte {
        size: 0,
        byte,
        counts: byte,
        is_edge: is_edge_byte(byte),
    }
}

fn within(byte: u8) -> SeenByte
    ensures { result ≡ within byte }
{
    SeenByte {
        size: 0,
        byte,
        counts: NOTHING,
        is_edge: false,
    }
}

// Adds the bytes of what a text begins with.
fn push_token(token: Token, text: &[u8], seen: &mut Vec<SeenByte>) -> Result<(), AllocError>
    requires some { 0 < token_size token }
    requires within { token_size token ≤ length text.now }
    ensures added { IfOk result (λ _.
        seen.new.items ≡ seen.old.items ++ token_bytes token text.now) }
    ensures size { IfOk result (λ _.
        length seen.new.items ≡ length seen.old.items + token_size token) }
    ensures room { length seen.old.items + token_size token ≤ vec_capacity seen.old → IsOk result }
    ensures capacity { vec_capacity seen.old ≤ vec_capacity seen.new }
{
    match token {
        Token::Bytes(size) => push_bytes(size, text, seen),
        Token::Escaped(escape) => push_counted(
            escape.size,
            counts_as(escape.means),
            is_edge_meant(escape.means),
            text,
            seen,
        ),
        Token::Colour(size) => push_counted(size, NOTHING, true, text, seen),
    }
}

// Adds so many bytes of a text, which count by themselves.
fn push_bytes(size: usize, text: &[u8], seen: &mut Vec<SeenByte>) -> Result<(), AllocError>
    requires { size ≤ length text.now }
    ensures added { IfOk result (λ _.
        seen.new.items ≡ seen.old.items ++ map by_itself (take size text.now)) }
    ensures size { IfOk result (λ _. length seen.new.items ≡ length seen.old.items + size) }
    ensures room { length seen.old.items + size ≤ vec_capacity seen.old → IsOk result }
    ensures capacity { vec_capacity seen.old ≤ vec_capacity seen.new }
{
    let part = &text[..size];
    for byte in part {
        seen.push(by_itself(*byte))?;
    }
    Ok(())
}

// Adds the bytes of an escape or a colour with which a text begins.
fn push_counted(
    size: usize,
    counts: u8,
    is_edge: bool,
    text: &[u8],
    seen: &mut Vec<SeenByte>,
) -> Result<(), AllocError>
    requires some { 0 < size }
    requires within { size ≤ length text.now }
    ensures added { IfOk result (λ _.
        seen.new.items ≡ seen.old.items ++ counted size counts is_edge text.now) }
    ensures size { IfOk result (λ _. length seen.new.items ≡ length seen.old.items + size) }
    ensures room { length seen.old.items + size ≤ vec_capacity seen.old → IsOk result }
    ensures capacity { vec_capacity seen.old ≤ vec_capacity seen.new }
{
    let part = &text[..size - 1];
    for byte in part {
        seen.push(within(*byte))?;
    }
    seen.push(SeenByte {
        size,
        byte: text[size - 1],
        counts,
        is_edge,
    })?;
    Ok(())
}

// What an escaped character counts as.
fn counts_as(means: u16) -> u8
    ensures { result ≡ counts_as means }
{
    match means {
        0..=0x7f => means as u8,
        0xc0..=0x7ff => LETTER,
        0x800..=0x1fff => SCRIPT,
        _ => SIGN,
    }
}

// Whether a URL may begin behind an escaped character.
fn is_edge_meant(means: u16) -> bool
    ensures { result ≡ is_edge_byte means }
{
    means < 0x80 && is_edge_byte(means as u8)
}
