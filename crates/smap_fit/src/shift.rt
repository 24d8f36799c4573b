//! Which shift of all mappings alike makes a map fit a text best.
ghost use Rattle.std.specs.Prelude.{◌≡◌, if◌then◌else◌, IfOk};
ghost use Rattle.smap_index.specs.Parts.{joined};
ghost use Rattle.smap_fit.specs.Lines.{lines_in};
ghost use Rattle.smap_fit.specs.Private.Places.{IsPlace};
ghost use Rattle.smap_fit.specs.Private.Texts.{line_texts};
ghost use Rattle.smap_fit.specs.Shift.{IsBest, is_misfit, move_at, moved, shift_at, shifted_misfits, shifted_standing};

use crate::fresh::continues_last;
use crate::standing::Standing;
use crate::text_lines::TextLines;
use crate::text_place::TextPlace;
use smap_record::{MapFile, Mapping};
use std::alloc::{AllocError, Global};

// How many shifts are tried: seven of the lines with each of five of the columns.
const TRIED: u32 = 35;

/// How far lines or columns are moved.
#[derive(Clone, Copy)]
pub enum Move {
    On(u32),
    Back(u32),
}

impl Move {
    // A line or a column that is moved so, where a map can have it.
    fn of(self, number: u32) -> Option<u32>
        ensures { result ≡ moved self number }
    {
        match self {
            Move::On(by) if by <= u32::MAX - number => Some(number + by),
            Move::Back(by) if by <= number => Some(number - by),
            _ => None,
        }
    }

    // None, one on, one back, two on, two back, and so on.
    fn at(number: u32) -> Move
        ensures { result ≡ move_at number }
    {
        if number % 2 == 1 {
            Move::On(number / 2 + 1)
        } else {
            Move::Back(number / 2)
        }
    }
}

/// How far all mappings are moved, in their lines and in their columns.
#[derive(Clone, Copy)]
pub struct Shift {
    pub lines: Move,
    pub columns: Move,
}

impl Shift {
    // That of this number, of those that are tried.
    fn at(number: u32) -> Shift
        ensures { result ≡ shift_at number }
    {
        Shift {
            lines: Move::at(number % 7),
            columns: Move::at(number / 7),
        }
    }

    // How a mapping that is moved so stands in a text, in which the place goes on.
    fn standing<'a>(
        self,
        text: &TextLines<'a>,
        place: &mut TextPlace<'a>,
        mapping: &Mapping,
    ) -> Standing
        requires { IsPlace (line_texts text.now) place.old.line
            place.old.here.column place.old.here.before place.old.here.left.now }
        ensures place { IsPlace (line_texts text.now) place.new.line
            place.new.here.column place.new.here.before place.new.here.left.now }
        ensures standing { result ≡ shifted_standing (line_texts text.now) self mapping.now }
    {
        let Some(line) = self.lines.of(mapping.line) else {
            return Standing::PastText;
        };
        let Some(column) = self.columns.of(mapping.column) else {
            return Standing::PastText;
        };
        place.spot(text, line, column).standing
    }
}

/// A shift, and how many mappings do not fit that are moved so.
#[derive(Clone, Copy)]
pub struct BestShift {
    pub shift: Shift,
    pub misfits: u64,
}

/// The shift with which a map fits a generated text best, of those by up to three lines and two columns. Of several the
/// first, with columns in the order 0, 1 on, 1 back, 2 on, 2 back, and for each of these lines in the same order, up to
/// three.
pub fn best_shift(alloc: Global, map: &MapFile, generated: &str) -> Result<BestShift, AllocError>
    ensures { IfOk result
        (IsBest (lines_in generated.now) (joined map.now.stated.parts)) }
{
    let text = TextLines::of(alloc, generated)?;
    let still = Shift::at(0);
    let mut best = BestShift {
        shift: still,
        misfits: shifted_misfits(alloc, map, &text, still),
    };
    for number in 1..TRIED {
        let shift = Shift::at(number);
        let misfits = shifted_misfits(alloc, map, &text, shift);
        if misfits < best.misfits {
            best = BestShift { shift, misfits };
        }
    }
    Ok(best)
}

// How many mappings of a map do not fit a text that are moved so.
fn shifted_misfits(alloc: Global, map: &MapFile, text: &TextLines<'_>, shift: Shift) -> u64
    ensures { result
        ≡ shifted_misfits (line_texts text.now) (joined map.now.stated.parts) shift }
{
    // Its contract says that the mappings fit in 64 bits.
    let _segments = map.segments();
    let mut place = TextPlace::start(text);
    let mut misfits = 0;
    let mut last = None;
    for mapping in map.mappings(alloc) {
        let stood = shift.standing(text, &mut place, &mapping);
        misfits += counted(stood, continues_last(last, &mapping));
        last = Some(mapping);
    }
    misfits
}

// 1 for a mapping that does not fit, unless it continues the one before it.
fn counted(standing: Standing, continues: bool) -> u64
    ensures { result ≡ (if continues then 0 else (if is_misfit standing then 1 else 0)) }
{
    match standing {
        Standing::PastText | Standing::InsideWord if !continues => 1,
        _ => 0,
    }
}
