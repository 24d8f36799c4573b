//! The marks of a line: quotation marks, and escapes of quotation marks and of line ends.
ghost use Rattle.std.specs.Prelude.{◌≡◌, ◌<◌, ◌≤◌, length, vec_capacity, IsOk, OnOk};
ghost use Rattle.smap_pairs.specs.Marks.{backslashes, ends_mark, mark_at, marks_of};

use crate::seen::SeenByte;
use std::alloc::AllocError;

/// A quotation mark or a line's end: from which byte of its line to which it stands, how many backslashes it begins with,
/// and which of the two it is.
#[derive(Clone, Copy)]
pub struct Mark {
    pub start: usize,
    pub end: usize,
    pub backslashes: usize,
    pub is_line_end: bool,
}

/// Puts the marks of a line in the place of what `marks` has. Where there is room for them, no memory is asked for; if
/// memory runs out, some of them stand there. Each byte is looked at once, and those of an escape that is a mark at most
/// once more.
pub fn marks_into(line: &[SeenByte], marks: &mut Vec<Mark>) -> Result<(), AllocError>
    ensures marks { OnOk result (marks.new.items ≡ marks_of line.now) }
    ensures room { length (marks_of line.now) ≤ vec_capacity marks.old → IsOk result }
    ensures capacity { vec_capacity marks.old ≤ vec_capacity marks.new }
{
    marks.clear();
    for (at, seen) in line.iter().enumerate() {
        if ends_mark(seen) {
            marks.push(mark_at(line, at, seen))?;
        }
    }
    Ok(())
}

// Whether a mark ends with a byte.
fn ends_mark(seen: &SeenByte) -> bool
    ensures { result ≡ ends_mark seen.now }
{
    match seen.counts {
        b'"' | b'\'' => true,
        b'\n' | b'\r' => seen.size > 0,
        _ => false,
    }
}

// The mark that ends with the byte at a place, which is this.
fn mark_at(line: &[SeenByte], at: usize, seen: &SeenByte) -> Mark
    requires { at < length line.now }
    ensures { result ≡ mark_at line.now at seen.now }
{
    let start = if seen.size > 0 {
        (at + 1).saturating_sub(seen.size)
    } else {
        at
    };
    Mark {
        start,
        end: at + 1,
        backslashes: backslashes(&line[start..at]),
        is_line_end: seen.counts == b'\n' || seen.counts == b'\r',
    }
}

// How many backslashes a text begins with.
fn backslashes(text: &[SeenByte]) -> usize
    ensures { result ≡ backslashes text.now }
{
    text.iter().take_while(|seen| seen.byte == b'\\').count()
}
