//! What a part of a line begins with.
ghost use Rattle.std.specs.Prelude.{◌≡◌, ◌<◌, ◌≤◌, length, max};
ghost use Rattle.std.specs.List.{prefix_len};
ghost use Rattle.smap_pairs.specs.Escapes.{is_backslash};
ghost use Rattle.smap_pairs.specs.Seen.{escape_or_colour, token_of, token_size};

use crate::colours::colour_behind;
use crate::escapes::{Escape, escape_of};

const ESC: u8 = 0x1b;

/// What a part of a line begins with: so many bytes that count by themselves, an escape, or a colour of so many bytes.
#[derive(Clone, Copy)]
pub enum Token {
    Bytes(usize),
    Escaped(Escape),
    Colour(usize),
}

/// What a text begins with. It reads no more than that, and behind it a run of backslashes and five bytes, or the parameters
/// of a colour that breaks off.
#[tactic(auto, unfolding(crate::specs::Seen::token_of))]
pub fn token_of(text: &[u8]) -> Token
    requires { 0 < length text.now }
    ensures token { result ≡ token_of text.now }
    ensures some { 0 < token_size result }
    ensures within { token_size result ≤ length text.now }
{
    match escape_of(text) {
        None => escape_or_colour(text[0] == ESC, 1, Token::Bytes(bytes_of(text)), text),
        Some(escape) => escape_or_colour(
            escape.means == u16::from(ESC),
            escape.size,
            Token::Escaped(escape),
            text,
        ),
    }
}

// A colour, where so many bytes are its ESC.
fn escape_or_colour(is_esc: bool, size: usize, otherwise: Token, text: &[u8]) -> Token
    requires esc { size ≤ length text.now }
    requires some { 0 < token_size otherwise }
    requires within { token_size otherwise ≤ length text.now }
    ensures token { result ≡ escape_or_colour is_esc size otherwise text.now }
    ensures some { 0 < token_size result }
    ensures within { token_size result ≤ length text.now }
{
    if !is_esc {
        return otherwise;
    }
    match colour_behind(size, &text[size..]) {
        None => otherwise,
        Some(size) => Token::Colour(size),
    }
}

/// How many bytes a run of backslashes has, or else one byte.
pub fn bytes_of(text: &[u8]) -> usize
    requires { 0 < length text.now }
    ensures count { result ≡ max 1 (prefix_len is_backslash text.now) }
    ensures some { 0 < result }
    ensures within { result ≤ length text.now }
{
    backslashes(text).max(1)
}

// How many backslashes a text begins with.
fn backslashes(text: &[u8]) -> usize
    ensures count { result ≡ prefix_len is_backslash text.now }
    ensures within { result ≤ length text.now }
{
    text.iter().take_while(|byte| **byte == b'\\').count()
}

/// How many bytes it has.
pub fn token_size(token: Token) -> usize
    ensures { result ≡ token_size token }
{
    match token {
        Token::Bytes(size) => size,
        Token::Escaped(escape) => escape.size,
        Token::Colour(size) => size,
    }
}
