//! The texts of a map, put as text and as JSON.
ghost use Rattle.std.specs.Prelude.{◌≡◌, ◌<◌, ◌++◌, option_map, true};
ghost use Rattle.std.specs.List.{list_any};
ghost use Rattle.std.specs.Char.{digit_char};
ghost use Rattle.json.specs.Print.{escape, escape_byte, quoted};
ghost use Rattle.serde_json.specs.Written.{compact_text};
ghost use Rattle.smap_record.specs.Written.{value_of_text};
ghost use Rattle.smap_text.specs.Shown.{shown};
ghost use Rattle.smap_printing.specs.Private.Escapes.{is_escaped, short_escape};
ghost use Rattle.smap_printing.specs.Private.Plain.{IsPlain};

use crate::output::Output;
use smap_lines::has_control;
use smap_text::shown_byte;

/// Puts a text of the user's as it prints: a `?` stands for each ASCII control character. Where it is known to have none, it
/// is not asked for one.
#[inline(always)]
pub fn put_shown<O: Output>(text: &str, is_plain: bool, output: &mut O)
    requires { is_plain ≡ true → IsPlain text.now }
    ensures { O.Puts output.old output.new (shown text.now) }
{
    put_shown_bytes(text.as_bytes(), is_plain, output);
}

/// The same of the bytes of a text.
pub fn put_shown_bytes<O: Output>(bytes: &[u8], is_plain: bool, output: &mut O)
    requires { is_plain ≡ true → IsPlain bytes.now }
    ensures { O.Puts output.old output.new (shown bytes.now) }
{
    if is_plain_text(bytes, is_plain) {
        return output.put(bytes);
    }
    for byte in bytes {
        output.put(&[shown_byte(*byte)]);
    }
}

// Whether a text has no ASCII control character, which may be known.
#[inline(always)]
fn is_plain_text(bytes: &[u8], is_known: bool) -> bool
    requires { is_known ≡ true → IsPlain bytes.now }
    ensures { result ≡ true → IsPlain bytes.now }
{
    is_known || !has_control(bytes)
}

/// Puts a text as JSON, and `null` for none.
pub fn put_json_text<O: Output>(text: Option<&str>, output: &mut O)
    ensures { O.Puts output.old output.new
        (compact_text (value_of_text (option_map (λ text. text.now) text.entry))) }
{
    match text {
        Some(text) => put_json_string(text.as_bytes(), output),
        None => output.put(b"null"),
    }
}

fn put_json_string<O: Output>(text: &[u8], output: &mut O)
    ensures { O.Puts output.old output.new (quoted text.now) }
{
    output.put(b"\"");
    put_escaped(text, output);
    output.put(b"\"")
}

/// Puts two texts, one behind the other, as one JSON string.
pub fn put_json_pieces<O: Output>(first: &[u8], second: &[u8], output: &mut O)
    ensures { O.Puts output.old output.new (quoted (first.now ++ second.now)) }
{
    output.put(b"\"");
    put_escaped(first, output);
    put_escaped(second, output);
    output.put(b"\"")
}

// Puts what stands in quotes for a text.
fn put_escaped<O: Output>(text: &[u8], output: &mut O)
    ensures { O.Puts output.old output.new (escape text.now) }
{
    if !has_escaped(text) {
        return output.put(text);
    }
    for byte in text {
        put_escaped_byte(*byte, output);
    }
}

// Whether something else stands in quotes for a byte of a text.
fn has_escaped(text: &[u8]) -> bool
    ensures { result ≡ list_any is_escaped text.now }
{
    let mut found = false;
    for byte in text {
        found |= is_escaped(*byte);
    }
    found
}

// Whether something else stands in quotes for a byte.
fn is_escaped(byte: u8) -> bool
    ensures { result ≡ is_escaped byte }
{
    byte < 0x20 || byte == b'"' || byte == b'\\'
}

// Puts what stands in quotes for a byte.
fn put_escaped_byte<O: Output>(byte: u8, output: &mut O)
    ensures { O.Puts output.old output.new (escape_byte byte) }
{
    match short_escape(byte) {
        Some(letter) => output.put(&[b'\\', letter]),
        None if byte < 0x20 => {
            let number = [
                b'\\',
                b'u',
                b'0',
                b'0',
                hex_digit(byte / 16),
                hex_digit(byte % 16),
            ];
            output.put(&number)
        }
        None => output.put(&[byte]),
    }
}

// The letter of a byte's short escape, where it has one.
fn short_escape(byte: u8) -> Option<u8>
    ensures { result ≡ short_escape byte }
{
    match byte {
        b'"' | b'\\' => Some(byte),
        0x08 => Some(b'b'),
        0x0C => Some(b'f'),
        b'\n' => Some(b'n'),
        b'\r' => Some(b'r'),
        b'\t' => Some(b't'),
        _ => None,
    }
}

fn hex_digit(digit: u8) -> u8
    requires { digit < 16 }
    ensures { result ≡ digit_char digit }
{
    if digit < 10 {
        b'0' + digit
    } else {
        b'a' + (digit - 10)
    }
}
