//! Answering a text of positions.
ghost use Rattle.std.specs.Prelude.{◌≡◌, false};
ghost use Rattle.smap_lines.specs.Editing.{EditsFront};
ghost use Rattle.smap_lines.specs.Limits.{most_text_bytes};
ghost use Rattle.smap_lines.specs.RunEnds.{RunEnds};
ghost use Rattle.smap_printing.specs.Answering.{AnswersPositions};
ghost use Rattle.smap_printing.specs.Positions.{answered_line};

use crate::answerer::PositionAnswerer;
use smap_command::AnswerOptions;
use smap_io::{ByteSink, ByteSource};
use smap_lines::{LineFault, MOST_TEXT_BYTES, edit_lines};
use smap_record::ReadyMap;
use std::alloc::Global;

/// What was in a text of positions that was answered.
#[derive(Clone, Copy, Debug, PartialEq, Eq)]
pub struct PositionsSummary {
    /// How many lines it had: those that an LF ends, and a rest that is not empty.
    pub lines: u64,
    /// How many of them were answered: all but those of more than 65,536 bytes, their LF aside, which stay as they are.
    pub answered: u64,
    /// The number, from 1, of the first of these that is no position, where there is one.
    pub first_bad: Option<u64>,
}

/// Answers the positions on the lines of a text while it is read, each by one line in their order, from a map, with these
/// options. A line that is no position is answered `bad position`. The caller gives devices that have not failed. The
/// output is not flushed.
///
/// What became of each line that was read was written before more is read. All room is made before the first read, and no
/// answer takes memory. The first failure ends it. What was written is then the beginning of what the bytes that were read
/// become; where a read failed, all of what the whole lines among them become; and where memory ran out, neither device
/// was asked.
pub fn answer_position_lines<R: ByteSource, W: ByteSink>(
    alloc: Global,
    input: &mut R,
    output: &mut W,
    map: &ReadyMap,
    options: AnswerOptions,
) -> Result<PositionsSummary, LineFault>
    requires input_works { (R.seen input.old).failed ≡ false }
    requires output_works { (W.seen output.old).failed ≡ false }
    ensures ends { RunEnds R.seen W.seen input.old input.new output.old output.new
        (λ before after. AnswersPositions before after map.now.stated options)
        (EditsFront (answered_line map.now.stated options) most_text_bytes) result }
{
    let mut answerer = PositionAnswerer {
        alloc,
        map,
        options,
        lines: 0,
        first_bad: None,
    };
    let counts = edit_lines(alloc, input, output, &mut answerer, MOST_TEXT_BYTES)?;
    Ok(PositionsSummary {
        lines: counts.lines,
        answered: answerer.lines,
        first_bad: answerer.first_bad,
    })
}
