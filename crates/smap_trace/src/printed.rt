//! A line and a column, printed.
ghost use Rattle.std.specs.Prelude.{◌≡◌, ◌++◌, ℕ, List};
ghost use Rattle.smap_trace.specs.Rewritten.{location_text};

use itoa::write_digits;

/// How many bytes a line and a column have at most, with a `:` before each.
pub const MOST_PRINTED_BYTES: usize = 42;

/// A line and a column as they stand behind a name: `:`, the line, `:` and the column. They are written into this room.
pub fn print_place(line: u64, column: u64, room: &mut [u8; MOST_PRINTED_BYTES]) -> &[u8]
    ensures { (name : List ℕ) → name ++ result.now ≡ location_text name line column }
{
    let column_start = write_digits(column, room, MOST_PRINTED_BYTES);
    room[column_start - 1] = b':';
    let line_start = write_digits(line, room, column_start - 1);
    room[line_start - 1] = b':';
    &room[line_start - 1..]
}
