//! Indexes: what they hold, what they answer, and with how many comparisons and segments.
ghost use Rattle.std.specs.Prelude.{◌≡◌, ◌∷◌, [], IfOk};
ghost use Rattle.smap_index.specs.Parts.{whole_text};

use crate::same::{assert_holds, assert_same};
use smap_index::{Answer, Index, MarkedText, Part};
use smap_mappings::{Meter, PackedText, TextCheck};
use std::alloc::{AllocError, Global};
use std::process::Abort;
use std::test::Fail;

// The text, checked for as many sources and names as indices can name.
pub(crate) fn packed(alloc: Global, text: &str) -> Result<PackedText, Fail> {
    match PackedText::check(String::from_str(alloc, text)?, 2147483648, 2147483648) {
        Ok(packed) => Ok(packed),
        Err(_) => Err(Fail::new("the text is refused")),
    }
}

// The index of one text, with checkpoints at this interval.
pub(crate) fn index_of(alloc: Global, text: PackedText, interval: u32) -> Result<Index, Fail> {
    Ok(Index::build(alloc, whole(alloc, text)?, interval)?)
}

// The text as the one part, which begins at the start.
fn whole(alloc: Global, text: PackedText) -> Result<Vec<Part>, AllocError>
    ensures { IfOk result (λ parts. parts.items ≡ whole_text text ∷ []) }
{
    let mut parts = Vec::new(alloc);
    parts.push(Part {
        line: 0,
        column: 0,
        text,
        source_base: 0,
        name_base: 0,
    })?;
    Ok(parts)
}

/// The two look-ups.
#[derive(Clone, Copy)]
pub(crate) enum Direction {
    Before,
    After,
}

// What an index answers, and what that counts.
fn asked(
    alloc: Global,
    index: &Index,
    direction: Direction,
    line: u32,
    column: u32,
) -> (Answer, Meter) {
    let mut meter = Meter::new(alloc);
    let answer = match direction {
        Direction::Before => index.look_up(line, column, &mut meter),
        Direction::After => index.look_up_from(line, column, &mut meter),
    };
    (answer, meter)
}

/// The column of a mapping without a name, and the line and the column of source 0 from which it comes; or none.
pub(crate) type Wanted = Option<(u32, u32, u32)>;

/// Whether this mapping answers.
pub(crate) fn is_wanted(answer: &Answer, wanted: Wanted) -> bool {
    match answer {
        Answer::Found { column, origin } => {
            let found = (*column, origin.line, origin.column);
            origin.source == 0 && origin.name.is_none() && wanted == Some(found)
        }
        Answer::Unmapped { .. } => false,
        Answer::Nothing => wanted.is_none(),
    }
}

// A look-up that is counted by hand: the text, the interval, how many checkpoints there are, the line and the column, from
// 0, what answers, how many segments are decoded, and how many checkpoints are compared at most.
type Counted = (&'static str, u32, u64, u32, u32, Wanted, u64, u64);

const ONE_LINE: &str = "AAAA,CAAC,CAAC,CAAC,CAAC";

const TWO_LINES: &str = "AAAA,CAAC;AACA,CAAC,CAAC,CAAC,C";

const COUNTED: &[Counted] = &[
    (ONE_LINE, 2, 3, 0, 3, Some((3, 0, 3)), 1, 2),
    ("AAAA,CAAC,C,CAAC", 2, 2, 0, 3, Some((3, 0, 2)), 1, 2),
    (TWO_LINES, 3, 3, 1, 2, Some((2, 1, 3)), 2, 2),
];

// The same in the other direction. Where no checkpoint stands before the position on its line, nothing is decoded.
const COUNTED_FROM: &[Counted] = &[
    (ONE_LINE, 2, 3, 0, 3, Some((3, 0, 3)), 1, 2),
    (ONE_LINE, 2, 3, 0, 4, Some((4, 0, 4)), 1, 2),
    (ONE_LINE, 2, 3, 0, 0, Some((0, 0, 0)), 0, 2),
    (TWO_LINES, 3, 3, 1, 2, Some((2, 1, 3)), 2, 2),
    (TWO_LINES, 3, 3, 1, 0, Some((0, 1, 1)), 0, 2),
];

// Puts such a look-up to the index of its text.
fn assert_counted(
    rt: &impl Abort,
    alloc: Global,
    counted: &Counted,
    direction: Direction,
) -> Result<(), Fail> {
    let (text, interval, checkpoints, line, column, wanted, decoded, compared) = counted;
    let index = index_of(alloc, packed(alloc, text)?, *interval)?;
    assert_holds(rt, text, index.checkpoints() == *checkpoints);
    let (answer, meter) = asked(alloc, &index, direction, *line, *column);
    assert_holds(rt, text, is_wanted(&answer, *wanted));
    let is_counted = meter.segments() == *decoded && meter.comparisons() <= *compared;
    assert_holds(rt, text, is_counted);
    Ok(())
}

#[test]
fn segments_after_the_checkpoint_are_decoded(rt: HostRuntime) -> Result<(), Fail> {
    for counted in COUNTED {
        assert_counted(&rt, rt.alloc(), counted, Direction::Before)?;
    }
    for counted in COUNTED_FROM {
        assert_counted(&rt, rt.alloc(), counted, Direction::After)?;
    }
    Ok(())
}

const INTERVALS: &[u32] = &[1, 2, 3, 64, 4_096];

#[test]
fn an_index_of_no_part_is_empty(rt: HostRuntime) -> Result<(), Fail> {
    for interval in INTERVALS {
        let index = Index::build(rt.alloc(), Vec::new(rt.alloc()), *interval)?;
        assert_holds(&rt, "empty", is_empty(rt.alloc(), &index)?);
        for direction in [Direction::Before, Direction::After] {
            let is_nothing = answers_nothing(rt.alloc(), &index, direction);
            assert_holds(&rt, "nothing", is_nothing);
        }
    }
    Ok(())
}

fn is_empty(alloc: Global, index: &Index) -> Result<bool, AllocError> {
    let counts = (index.segments(), index.used_lines(), index.checkpoints());
    Ok(counts == (0, 0, 0) && index.decode_all(alloc)?.is_empty())
}

// Whether nothing answers at the beginning, and nothing is compared or decoded.
fn answers_nothing(alloc: Global, index: &Index, direction: Direction) -> bool {
    let (answer, meter) = asked(alloc, index, direction, 0, 0);
    answer == Answer::Nothing && meter.comparisons() == 0 && meter.segments() == 0
}

// Whether an index has these counts of checkpoints, segments and lines that hold one.
fn has_counts(index: &Index, counts: (u64, u64, u64)) -> bool {
    (index.checkpoints(), index.segments(), index.used_lines()) == counts
}

// The index of one text, with the checkpoints at this interval that were made when it was checked.
fn marked_index(alloc: Global, text: String, interval: u32) -> Result<Index, Fail> {
    let Ok(marked) = MarkedText::check(alloc, text, 1, 0, interval) else {
        return Err(Fail::new("the text is refused"));
    };
    let (text, marks) = marked.into_fields();
    Ok(Index::of_marks(whole(alloc, text)?, marks)?)
}

#[test]
fn a_text_is_checked_and_marked_at_once(rt: HostRuntime) -> Result<(), Fail> {
    // Four segments, two, none and one stand on its lines.
    let text = String::from_str(rt.alloc(), "AAAA,C,C,C;C,C;;C")?;
    let index = marked_index(rt.alloc(), text, 2)?;
    assert_holds(&rt, "counts", has_counts(&index, (4, 7, 3)));
    let (answer, meter) = asked(rt.alloc(), &index, Direction::Before, 0, 3);
    let is_answered = answer == Answer::Unmapped { column: 3 } && meter.segments() == 1;
    assert_holds(&rt, "column 3", is_answered);
    Ok(())
}

#[test]
fn a_long_line_is_marked(rt: HostRuntime) -> Result<(), Fail> {
    let mut text = String::from_str(rt.alloc(), "AAAA")?;
    for _ in 0..99 {
        text.push_str(",CAAC")?;
    }
    let index = marked_index(rt.alloc(), text, 10)?;
    assert_holds(&rt, "counts", has_counts(&index, (10, 100, 1)));
    Ok(())
}

#[test]
fn a_check_gives_segments_and_the_text(rt: HostRuntime) -> Result<(), Fail> {
    let Ok(mut check) = TextCheck::begin(String::from_str(rt.alloc(), "AAAA,D")?, 1, 0) else {
        return Err(Fail::new("the text is short"));
    };
    assert_holds(&rt, "the second is faulty", has_one_segment(&mut check));
    match check.finish() {
        Ok(_) => Err(Fail::new("the column falls")),
        Err((fault, text)) => {
            assert_same(&rt, "a refusal", &text, "AAAA,D");
            assert_holds(&rt, "at the second", fault.byte == 5);
            Ok(())
        }
    }
}

// Whether a check gives a segment of four bytes, and then none.
fn has_one_segment(check: &mut TextCheck) -> bool {
    match check.next() {
        Some((_, after)) => {
            after.cursor().place == 4 && check.pass(9) == 0 && check.next().is_none()
        }
        None => false,
    }
}
