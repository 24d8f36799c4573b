//! The position that a line is.
ghost use Rattle.std.specs.Prelude.{◌≡◌, ◌≤◌, ◌↔◌, Some, length};
ghost use Rattle.std.specs.Char.{is_ascii_digit};
ghost use Rattle.std.specs.List.{prefix_len};
ghost use Rattle.smap_printing.specs.Position.{IsPosition};
ghost use Rattle.smap_printing.specs.PositionOf.{column_after, column_of, first_number, is_line_end, position_of, separator_len};
ghost use Rattle.smap_printing.specs.declared.printed_position.PrintedPosition.{PrintedPosition};

use crate::printed_position::PrintedPosition;
use smap_lines::laws::numbers_are_read_as_printed;
use smap_lines::{blanks, digits, number};

/// The position that a line, without its LF, is: a line and a column without signs or leading zeros, between them blanks
/// (spaces and tabs) or one `:` alone. Blanks before and after them, and a CR at the end, are passed over. The call takes
/// no memory.
#[tactic(auto, unfolding(crate::specs::PositionOf::position_of))]
pub fn read_position(line: &[u8]) -> Option<PrintedPosition>
    ensures position { result ≡ position_of line.now }
    ensures form { (position : PrintedPosition)
        → (position_of line.now ≡ Some position) ↔ IsPosition
        line.now position }
{
    numbers_are_read_as_printed();
    let text = &line[blanks(line)..];
    let (printed_line, after) = first_number(text);
    let column = column_after(&text[after..]);
    Some(PrintedPosition {
        line: printed_line?,
        column: column?,
    })
}

// The column after the separator that a text begins with.
fn column_after(text: &[u8]) -> Option<u32>
    ensures { result ≡ column_after text.now }
{
    column_of(&text[separator_len(text)..])
}

/// The column of a text that is one, with what may stand after it: blanks, and then a CR. The call takes no memory.
pub fn column_of(text: &[u8]) -> Option<u32>
    ensures { result ≡ column_of text.now }
{
    let (column, after) = first_number(text);
    let rest = &text[after..];
    if is_line_end(&rest[blanks(rest)..]) {
        column
    } else {
        None
    }
}

// The number that the digits print which a text begins with, and how many they are.
fn first_number(text: &[u8]) -> (Option<u32>, usize)
    ensures number { result.0 ≡ first_number text.now }
    ensures count { result.1 ≡ prefix_len is_ascii_digit text.now }
    ensures within { result.1 ≤ length text.now }
{
    let count = digits(text);
    (number(&text[..count]), count)
}

// How many bytes a text begins with that separate a line and a column.
fn separator_len(text: &[u8]) -> usize
    ensures count { result ≡ separator_len text.now }
    ensures within { result ≤ length text.now }
{
    match text.first() {
        Some(b':') => 1,
        _ => blanks(text),
    }
}

// Whether nothing is left, or a CR.
fn is_line_end(text: &[u8]) -> bool
    ensures { result ≡ is_line_end text.now }
{
    match text {
        [] => true,
        [byte] => *byte == b'\r',
        _ => false,
    }
}
