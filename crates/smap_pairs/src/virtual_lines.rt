//! The strings of a line, and the lines in them.
ghost use Rattle.std.specs.Prelude.{◌≡◌, ◌<◌, ◌≤◌, ◌+◌, ◌^◌, if◌then◌else◌, length, vec_capacity, IsOk, OnOk};
ghost use Rattle.smap_pairs.specs.Marks.{marks_of};
ghost use Rattle.smap_pairs.specs.VirtualLines.{ends_line_of_string, line_of_byte, unit_behind};
ghost use Rattle.smap_pairs.specs.VirtualLines.{lines_between, lines_of_strings, marks_of_strings, virtual_lines};

use crate::marks::Mark;
use crate::seen::SeenByte;
use std::alloc::AllocError;

/// What stands between two marks: from which byte of its line to which, and how many backslashes mean one in it. They are 0
/// where no mark begins it.
#[derive(Clone, Copy)]
pub struct VirtualLine {
    pub start: usize,
    pub end: usize,
    pub unit: usize,
}

/// Puts the virtual lines of a line, whose marks are given, in the place of what `lines` has. Where there is room for them,
/// no memory is asked for; if memory runs out, some of them stand there.
#[tactic(auto, unfolding(crate::specs::VirtualLines::virtual_lines))]
pub fn virtual_lines_into(
    line: &[SeenByte],
    marks: &[Mark],
    lines: &mut Vec<VirtualLine>,
) -> Result<(), AllocError>
    requires { marks.now ≡ marks_of line.now }
    ensures lines { OnOk result (lines.new.items ≡ virtual_lines line.now) }
    ensures room { length (virtual_lines line.now) ≤ vec_capacity lines.old → IsOk result }
    ensures capacity { vec_capacity lines.old ≤ vec_capacity lines.new }
{
    lines_into(line, marks, false, lines)
}

/// The same, but for line ends that are written with more backslashes than one has there: in a string `\\n` is a backslash
/// and an n.
#[tactic(auto, unfolding(crate::specs::VirtualLines::lines_of_strings))]
pub fn lines_of_strings_into(
    line: &[SeenByte],
    marks: &[Mark],
    lines: &mut Vec<VirtualLine>,
) -> Result<(), AllocError>
    requires { marks.now ≡ marks_of line.now }
    ensures lines { OnOk result (lines.new.items ≡ lines_of_strings line.now) }
    ensures room { length (lines_of_strings line.now) ≤ vec_capacity lines.old → IsOk result }
    ensures capacity { vec_capacity lines.old ≤ vec_capacity lines.new }
{
    lines_into(line, marks, true, lines)
}

// What stands between the marks, or between those alone that end lines of strings.
fn lines_into(
    line: &[SeenByte],
    marks: &[Mark],
    is_of_strings: bool,
    lines: &mut Vec<VirtualLine>,
) -> Result<(), AllocError>
    requires { marks.now ≡ marks_of line.now }
    ensures lines { OnOk result (lines.new.items ≡ lines_between (length line.now) 0 0
        (if is_of_strings then marks_of_strings 0 marks.now else marks.now)) }
    ensures room { length (lines_between (length line.now) 0 0
        (if is_of_strings then marks_of_strings 0 marks.now else marks.now))
        ≤ vec_capacity lines.old → IsOk result }
    ensures capacity { vec_capacity lines.old ≤ vec_capacity lines.new }
{
    lines.clear();
    let mut start = 0;
    let mut unit = 0;
    for mark in marks {
        if is_of_strings && !ends_line_of_string(unit, mark) {
            continue;
        }
        lines.push(VirtualLine {
            start,
            end: mark.start,
            unit,
        })?;
        start = mark.end;
        unit = unit_behind(mark);
    }
    lines.push(VirtualLine {
        start,
        end: line.len(),
        unit,
    })?;
    Ok(())
}

/// Which of the lines has a byte that stands in no mark, where it is none of the first so many. Asked from the left for one
/// byte after another, each time with what it gave before, it goes over the lines once.
pub fn line_of_byte(lines: &[VirtualLine], from: usize, place: usize) -> usize
    requires { from ≤ line_of_byte lines.now place }
    ensures { result ≡ line_of_byte lines.now place }
{
    let mut index = from;
    while index < lines.len() && lines[index].end <= place {
        index += 1;
    }
    index
}

// How many backslashes mean one behind a mark.
fn unit_behind(mark: &Mark) -> usize
    requires { mark.now.backslashes + 1 < 2 ^ 63 }
    ensures { result ≡ unit_behind mark.now }
{
    if mark.is_line_end {
        (2 * mark.backslashes).max(2)
    } else {
        2 * mark.backslashes + 2
    }
}

// Whether a mark ends a line in which so many backslashes mean one.
fn ends_line_of_string(unit: usize, mark: &Mark) -> bool
    requires { mark.now.backslashes + 1 < 2 ^ 63 }
    ensures { result ≡ ends_line_of_string unit mark.now }
{
    !mark.is_line_end || 2 * mark.backslashes <= unit.max(2)
}
