//! Answering the positions on standard input from a map file.
ghost use Rattle.std.specs.Prelude.{◌≡◌, ◌≤◌, ◌+◌, ◌++◌, [], false, length, MatchOption};
ghost use Rattle.std.specs.Prelude.{string_bytes, string_capacity, string_len};
ghost use Rattle.smap_lines.specs.Editing.{devices_seen};
ghost use Rattle.smap_codes.specs.declared.code.Code.TheVariants.{P2};
ghost use Rattle.smap_map_answers.specs.Lines.{bad_position_refused_line};
ghost use Rattle.smap_replies.specs.Lines.{code_refused_line};
ghost use Rattle.smap_replies.specs.Outcome.{answer, failure_report, report_of};
ghost use Rattle.smap_map_answers.specs.Positions.{AnsweredReports, PositionsReports, summary_report};
ghost use Rattle.smap_map_answers.specs.Private.Room.{IsRoom};

use crate::lines;
use itoa::Buffer;
use smap_codes::Code;
use smap_command::{AnswerOptions, Positions};
use smap_io::{ByteSink, ByteSource};
use smap_lines::LineFault;
use smap_printing::PositionsSummary;
use smap_record::ReadyMap;
use smap_replies::{Failure, FileReader, Reply, read_chosen};
use std::alloc::Global;

// How many bytes the line has at most that refuses positions.
const MOST_REFUSAL_BYTES: usize = 80;

/// Answers the positions on the lines of standard input from the map of the command. The caller gives devices that have not
/// failed.
pub fn answer_positions<F: FileReader, R: ByteSource, W: ByteSink>(
    alloc: Global,
    reader: &F,
    asked: &Positions,
    input: &mut R,
    output: &mut W,
) -> Result<Reply, Failure>
    requires input_works { (R.seen input.old).failed ≡ false }
    requires output_works { (W.seen output.old).failed ≡ false }
    ensures { PositionsReports (F.gives reader.now) asked.now
        (devices_seen (R.seen input.old) (W.seen output.old))
        (devices_seen (R.seen input.new) (W.seen output.new))
        (report_of result) }
{
    let map = read_chosen(alloc, reader, &asked.map, false)?;
    let map = ReadyMap::new(alloc, map);
    answer_over(alloc, &map, asked.options, input, output)
}

// Answers them from this map.
fn answer_over<R: ByteSource, W: ByteSink>(
    alloc: Global,
    map: &ReadyMap,
    options: AnswerOptions,
    input: &mut R,
    output: &mut W,
) -> Result<Reply, Failure>
    requires input_works { (R.seen input.old).failed ≡ false }
    requires output_works { (W.seen output.old).failed ≡ false }
    ensures { AnsweredReports map.now.stated options
        (devices_seen (R.seen input.old) (W.seen output.old))
        (devices_seen (R.seen input.new) (W.seen output.new))
        (report_of result) }
{
    let Ok(room) = String::with_capacity(alloc, MOST_REFUSAL_BYTES) else {
        return Err(Failure::Memory);
    };
    let summary = match smap_printing::answer_position_lines(alloc, input, output, map, options) {
        Ok(summary) => summary,
        Err(fault) => return Err(Failure::Fault(fault)),
    };
    let Some(refused) = refused_positions(room, summary) else {
        return Ok(Reply::Printed);
    };
    match output.flush() {
        Ok(()) => Err(refused),
        Err(_) => Err(Failure::Fault(LineFault::Write)),
    }
}

// Why positions that were answered to their end are refused, where they are: the line is put into the room, which takes no
// memory.
fn refused_positions(room: String, summary: PositionsSummary) -> Option<Failure>
    requires { IsRoom room }
    ensures { MatchOption result (summary_report summary ≡ answer [])
        (λ failure. summary_report summary ≡ failure_report failure) }
{
    if summary.answered != summary.lines {
        return Some(Failure::refusal(Code::P2, long_line(room)));
    }
    let number = summary.first_bad?;
    Some(Failure::refusal(Code::P1, bad_position(room, number)))
}

#[tactic(auto, unfolding(smap_codes::specs::Codes::called))]
fn long_line(mut room: String) -> String
    requires { IsRoom room }
    ensures { string_bytes result ≡ code_refused_line P2 }
{
    put(&mut room, lines::LONG_POSITION_REFUSED);
    room
}

// The line of this number, from 1, is no position.
#[tactic(auto, unfolding(smap_codes::specs::Codes::called))]
fn bad_position(mut room: String, number: u64) -> String
    requires { IsRoom room }
    ensures { string_bytes result ≡ bad_position_refused_line number }
{
    let mut digits = Buffer::new();
    put(&mut room, lines::BAD_POSITION_REFUSED);
    put(&mut room, digits.format(number));
    put(&mut room, "\n");
    room
}

// Puts a text that fits after what stands in the room.
fn put(room: &mut String, text: &str)
    requires { string_len room.old + length text.now ≤ string_capacity room.old }
    ensures put { string_bytes room.new ≡ string_bytes room.old ++ text.now }
    ensures longer { string_len room.new ≡ string_len room.old + length text.now }
    ensures as_large { string_capacity room.old ≤ string_capacity room.new }
{
    if room.push_str(text).is_err() {
        unreachable!("what fits takes no memory");
    }
}
