//! Editing a text while it is read.
ghost use Rattle.std.specs.Prelude.{◌≡◌, ◌<◌, ◌^◌, false};
ghost use Rattle.smap_lines.specs.Editing.{EditsFrontInto, EditsInto};
ghost use Rattle.smap_lines.specs.RunEnds.{RunEnds};

use crate::counts::LineCounts;
use crate::editor::LineEditor;
use crate::fault::LineFault;
use crate::gathered::Gathered;
use crate::line_output::LineOutput;
use crate::open_line::OpenLine;
use crate::passage::edit_bytes;
use smap_io::{ByteSink, ByteSource, DeviceFault};
use std::alloc::Global;

/// How many bytes of a text are taken where nothing else is asked for: 1 GiB.
pub const MOST_TEXT_BYTES: u64 = 1073741824;

// How many bytes are read at once.
const READ_BYTES: usize = 8192;

/// Reads a text of at most `most` bytes to its end, and writes what becomes of its lines, which are counted. The caller
/// gives devices that have not failed, and an editor with room for more lines than a text has bytes. The output is not
/// flushed.
///
/// All room is made before the first read: where memory runs out, neither device was asked. Nothing waits while more is
/// read, and nothing at the end. The first failure ends it, and then a front of what the bytes that were read become was
/// written; where a read failed, all of what the whole lines among them become.
pub fn edit_lines<R: ByteSource, W: ByteSink, E: LineEditor>(
    alloc: Global,
    input: &mut R,
    output: &mut W,
    editor: &mut E,
    most: u64,
) -> Result<LineCounts, LineFault>
    requires input_works { (R.seen input.old).failed ≡ false }
    requires output_works { (W.seen output.old).failed ≡ false }
    requires room { most < E.room editor.old }
    requires countable { most < 2 ^ 63 }
    ensures ends { RunEnds R.seen W.seen input.old input.new output.old output.new
        (λ before after. EditsInto E.Steps most before after editor.old editor.new)
        (EditsFrontInto (E.Becomes editor.old) most) result }
    ensures reaches { E.Reaches editor.old editor.new }
{
    let (Ok(mut line), Ok(mut gathered)) = (OpenLine::new(alloc), Gathered::new(alloc)) else {
        return Err(LineFault::Memory);
    };
    let mut counts = LineCounts { lines: 0, long: 0 };
    let mut room = [0; READ_BYTES];
    let mut total = 0;
    loop {
        let Ok(count) = input.read(&mut room) else {
            return Err(LineFault::Read);
        };
        if count == 0 {
            break;
        }
        total += count as u64;
        if total > most {
            return Err(LineFault::TooMuch);
        }
        let bytes = &room[..count];
        let mut lent = LineOutput {
            gathered: &mut gathered,
            sink: output,
        };
        let Ok(()) = edit_bytes(bytes, &mut line, &mut counts, editor, &mut lent) else {
            return Err(LineFault::Write);
        };
    }
    let mut lent = LineOutput {
        gathered: &mut gathered,
        sink: output,
    };
    let Ok(last) = line.finish(editor, &mut lent) else {
        return Err(LineFault::Write);
    };
    match lent.write() {
        Ok(()) => Ok(LineCounts {
            lines: counts.lines + last.lines,
            long: counts.long + last.long,
        }),
        Err(DeviceFault) => Err(LineFault::Write),
    }
}
