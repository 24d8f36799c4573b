//! Look-ups among the checkpoints of their line, and maps that are ready for them. The answers are written by hand.
ghost use Rattle.smap_index.specs.LineStarts.{AreLineStarts, marked_lines};

use crate::indexes::{Direction, Wanted, index_of, is_wanted, packed};
use crate::same::assert_holds;
use crate::shared::assert_source;
use smap_index::{Answer, Index, LineStarts};
use smap_record::{MapFile, Meter, ReadyMap};
use std::alloc::Global;
use std::process::Abort;
use std::test::Fail;

// A line and a column, from 0, what answers at or before them and at or after them, and how many checkpoints are compared
// at most.
type Asked = (u32, u32, Wanted, Wanted, u64);

// Three segments on line 2 and one on line 4, each with a checkpoint.
const TEXT: &str = ";;AAAA,CAAC,CAAC;;AACA";

const ASKED: &[Asked] = &[
    (0, 0, None, None, 0),
    (2, 0, Some((0, 0, 0)), Some((0, 0, 0)), 2),
    (2, 1, Some((1, 0, 1)), Some((1, 0, 1)), 2),
    (2, 9, Some((2, 0, 2)), None, 2),
    (3, 5, None, None, 0),
    (4, 0, Some((0, 1, 2)), Some((0, 1, 2)), 1),
    (4, 7, Some((0, 1, 2)), None, 1),
    (5, 0, None, None, 3),
    (4_294_967_295, 0, None, None, 3),
];

// Asks an index among the checkpoints of a line, in both directions.
fn assert_asked(rt: &impl Abort, alloc: Global, index: &Index, starts: &LineStarts, asked: &Asked)
    requires { AreLineStarts (marked_lines index.now.parts index.now.k) starts.now }
{
    let (line, column, before, after, compared) = asked;
    let mut meter = Meter::new(alloc);
    assert_holds(rt, "room", meter.has_room());
    let answer = index.look_up_among(starts, *line, *column, &mut meter);
    let is_answered = is_wanted(&answer, *before) && meter.comparisons() <= *compared;
    assert_holds(rt, "before", is_answered);
    let mut meter = Meter::new(alloc);
    let answer = index.look_up_from_among(starts, *line, *column, &mut meter);
    let is_answered = is_wanted(&answer, *after) && meter.comparisons() <= *compared;
    assert_holds(rt, "after", is_answered);
}

#[test]
fn the_checkpoints_of_a_line_are_compared(rt: HostRuntime) -> Result<(), Fail> {
    let index = index_of(rt.alloc(), packed(rt.alloc(), TEXT)?, 1)?;
    let starts = index.line_starts(rt.alloc())?;
    for asked in ASKED {
        assert_asked(&rt, rt.alloc(), &index, &starts, asked);
    }
    Ok(())
}

// Where no line has a start, all checkpoints are compared, and the answers are the same.
#[test]
fn no_line_needs_a_start(rt: HostRuntime) -> Result<(), Fail> {
    let index = index_of(rt.alloc(), packed(rt.alloc(), TEXT)?, 1)?;
    let starts = LineStarts::none(rt.alloc());
    for asked in ASKED {
        let (line, column, before, after, _) = asked;
        let all = (*line, *column, *before, *after, 3);
        assert_asked(&rt, rt.alloc(), &index, &starts, &all);
    }
    Ok(())
}

// A map of two segments a line, at columns 0 and 2 of each of a hundred lines: those of line n come from line n, columns 0
// and 1.
fn long_map(alloc: Global) -> Result<MapFile, Fail> {
    let mut text = String::from_str(
        alloc,
        r#"{"version":3,"sources":["a.js"],"mappings":"AAAA,EAAC"#,
    )?;
    for _ in 1..100 {
        text.push_str(";AACD,EAAC")?;
    }
    text.push_str("\"}")?;
    Ok(MapFile::read(alloc, text.as_bytes(), None, 2)?)
}

#[test]
fn a_ready_map_answers_as_the_map(rt: HostRuntime) -> Result<(), Fail> {
    let ready = ReadyMap::new(rt.alloc(), long_map(rt.alloc())?);
    assert_holds(&rt, "checkpoints", ready.map().checkpoints() == 100);
    for line in 0..100 {
        let (before, after) = (Direction::Before, Direction::After);
        assert_holds(
            &rt,
            "before column 7",
            has_second(rt.alloc(), &ready, before, line, 7),
        );
        assert_holds(
            &rt,
            "from column 1 on",
            has_second(rt.alloc(), &ready, after, line, 1),
        );
    }
    let mut meter = Meter::new(rt.alloc());
    let answer = ready.look_up(100, 0, &mut meter);
    assert_holds(&rt, "no line", answer == Answer::Nothing);
    assert_holds(&rt, "segments", ready.into_map().segments() == 200);
    Ok(())
}

// Whether the second segment of the line answers. The line has one checkpoint.
fn has_second(
    alloc: Global,
    ready: &ReadyMap,
    direction: Direction,
    line: u32,
    column: u32,
) -> bool {
    let mut meter = Meter::new(alloc);
    let answer = match direction {
        Direction::Before => ready.look_up(line, column, &mut meter),
        Direction::After => ready.look_up_from(line, column, &mut meter),
    };
    is_wanted(&answer, Some((2, line, 1))) && meter.comparisons() <= 1
}

#[test]
fn a_ready_map_gives_a_source_another_name(rt: HostRuntime) -> Result<(), Fail> {
    let mut ready = ReadyMap::new(rt.alloc(), long_map(rt.alloc())?);
    ready.name_sources_by_path(rt.alloc(), b"/x/app.js.map")?;
    assert_source(&rt, ready.map(), "/x/a.js");
    Ok(())
}
