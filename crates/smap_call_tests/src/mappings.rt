//! Mappings texts: the walk along a line, the copy in the canonical form, and the order of positions.
use crate::same::{assert_holds, assert_same};
use smap_mappings::{Kind, Meter, PackedText, Position};
use std::alloc::Global;
use std::test::Fail;

fn packed(alloc: Global, text: &str) -> Result<PackedText, Fail> {
    Ok(PackedText::check(String::from_str(alloc, text)?, 9, 0)?)
}

#[test]
fn a_walk_ends_at_the_column_or_with_the_line(rt: HostRuntime) -> Result<(), Fail> {
    let packed = packed(rt.alloc(), "AAAA,C,C;C")?;
    let mut meter = Meter::new(rt.alloc());
    let before = packed.walk_line(&packed.start(), 2, 9, &mut meter);
    let is_before = before.passed == 2 && before.next.is_some() && meter.segments() == 3;
    assert_holds(&rt, "before the column", is_before);
    let is_second = before.state.cursor().place == 6 && matches!(before.kind, Kind::Unmapped);
    assert_holds(&rt, "behind the second", is_second);
    let mut meter = Meter::new(rt.alloc());
    let whole = packed.walk_line(&packed.start(), 9, 9, &mut meter);
    let is_whole = whole.passed == 3 && whole.next.is_none() && meter.segments() == 3;
    assert_holds(&rt, "the line", is_whole);
    Ok(())
}

// A text, and its canonical form: the first is copied, the second written anew.
const TEXTS: [(&str, &str); 2] = [
    (";AAgBA,gC;;A;;", ";AAgBA,gC;;A"),
    (";,AAgBA,,giA;;A,;", ";AAgBA,gC;;A"),
];

#[test]
fn a_canonical_text_is_copied_and_another_written_anew(rt: HostRuntime) -> Result<(), Fail> {
    for (text, canonical) in TEXTS {
        let written = packed(rt.alloc(), text)?.canonical_text(rt.alloc())?;
        assert_same(&rt, text, &written, canonical);
    }
    Ok(())
}

// The line decides; the column does on one line alone.
#[test]
fn positions_stand_by_line_and_then_by_column(rt: HostRuntime) {
    let rising = [
        Position { line: 1, column: 9 },
        Position {
            line: 1,
            column: 10,
        },
        Position {
            line: 4294967296,
            column: 0,
        },
    ];
    for (place, first) in rising.iter().enumerate() {
        for (other_place, other) in rising.iter().enumerate() {
            let is_before = first.is_before(other);
            assert_holds(&rt, "order", is_before == (place < other_place));
        }
    }
}
