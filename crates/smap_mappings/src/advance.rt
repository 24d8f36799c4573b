//! A state that goes on after a segment.
ghost use Rattle.std.specs.Prelude.{◌≡◌, IfOk, IfErr, None, Some, pos, ◌+ℤ◌, true};
ghost use Rattle.smap_mappings.specs.Limits.{most_indices};
ghost use Rattle.smap_mappings.specs.Accepted.{are_in_range};
ghost use Rattle.smap_mappings.specs.Faults.{has_value_below_zero, has_value_past_limit};
ghost use Rattle.smap_mappings.specs.State.{values_at, values_in};
ghost use Rattle.smap_mappings.specs.Private.Reading.{delta_in};
ghost use Rattle.smap_mappings.specs.Private.Advance.{values_after, sums_fault, IsAdvanced};

use crate::cursor::Cursor;
use crate::fault::FaultKind;
use crate::limits::LIMIT;
use crate::segment::Segment;
use crate::sums::RunningSums;

// The state after a segment that ends before the place `end`, or the first kind of fault of the running values.
#[inline(always)]
pub fn advance(
    cursor: &Cursor,
    segment: &Segment,
    end: usize,
    sources: u32,
    names: u32,
) -> Result<Cursor, FaultKind>
    ensures ok { IfOk result (λ after. IsAdvanced cursor.now segment.now end sources names after) }
    ensures err { IfErr result (λ kind.
        sums_fault sources names segment.now
        (values_after (values_at cursor.now) (delta_in cursor.now.line segment.now)) ≡ Some kind) }
{
    let sums = sums_after(cursor, segment);
    match sums.fault(segment, sources, names) {
        Some(kind) => Err(kind),
        None => Ok(sums.cursor(cursor.line, end)),
    }
}

// The state after a segment that ends before the place `end`, where no kind of fault of the running values holds.
#[inline(always)]
pub fn advance_checked(cursor: &Cursor, segment: &Segment, end: usize) -> Cursor
    requires { sums_fault most_indices most_indices segment.now
        (values_after (values_at cursor.now) (delta_in cursor.now.line segment.now)) ≡ None }
    ensures { IsAdvanced cursor.now segment.now end most_indices most_indices result }
{
    sums_after(cursor, segment).cursor(cursor.line, end)
}

// The running values after a segment.
#[inline(always)]
pub fn sums_after(cursor: &Cursor, segment: &Segment) -> RunningSums
    ensures { values_in result
        ≡ values_after (values_at cursor.now) (delta_in cursor.now.line segment.now) }
{
    let column = added(cursor.column, segment.column);
    match segment.origin {
        None => RunningSums {
            column,
            source: added(cursor.source, 0),
            original_line: added(cursor.original_line, 0),
            original_column: added(cursor.original_column, 0),
            name: added(cursor.name, 0),
        },
        Some(origin) => RunningSums {
            column,
            source: added(cursor.source, origin.source),
            original_line: added(cursor.original_line, origin.line),
            original_column: added(cursor.original_column, origin.column),
            name: added(cursor.name, origin.name.unwrap_or(0)),
        },
    }
}

#[inline(always)]
fn added(value: u32, difference: i32) -> i64
    ensures { result ≡ pos value +ℤ difference }
{
    i64::from(value) + i64::from(difference)
}

impl RunningSums {
    // The state with these values, each of which is in range.
    #[inline(always)]
    fn cursor(&self, line: u32, place: usize) -> Cursor
        requires { are_in_range (values_in self.now) ≡ true }
        ensures at { (result.line ≡ line) × (result.place ≡ place) }
        ensures values { values_at result ≡ values_in self.now }
    {
        Cursor {
            place,
            line,
            column: self.column as u32,
            source: self.source as u32,
            original_line: self.original_line as u32,
            original_column: self.original_column as u32,
            name: self.name as u32,
        }
    }

    #[inline(always)]
    fn has_value_below_zero(&self) -> bool
        ensures { result ≡ has_value_below_zero (values_in self.now) }
    {
        // Each test is cheap and seldom holds, so none is skipped.
        (self.column < 0)
            | (self.source < 0)
            | (self.original_line < 0)
            | (self.original_column < 0)
            | (self.name < 0)
    }

    #[inline(always)]
    fn has_value_past_limit(&self) -> bool
        ensures { result ≡ has_value_past_limit (values_in self.now) }
    {
        let limit = i64::from(LIMIT);
        (self.column > limit)
            | (self.source > limit)
            | (self.original_line > limit)
            | (self.original_column > limit)
            | (self.name > limit)
    }

    // The first kind of fault of the running values that holds.
    #[inline(always)]
    fn fault(&self, segment: &Segment, sources: u32, names: u32) -> Option<FaultKind>
        ensures { result ≡ sums_fault sources names segment.now (values_in self.now) }
    {
        if self.has_value_below_zero() {
            return Some(FaultKind::Negative);
        }
        if self.has_value_past_limit() {
            return Some(FaultKind::PastLimit);
        }
        // The first segment of a line starts from column 0, so where its first field is negative its column is too.
        if segment.column < 0 {
            return Some(FaultKind::ColumnFalls);
        }
        let Some(origin) = segment.origin else {
            return None;
        };
        if self.source >= i64::from(sources) {
            return Some(FaultKind::SourceIndex);
        }
        if origin.name.is_some() && self.name >= i64::from(names) {
            return Some(FaultKind::NameIndex);
        }
        None
    }
}
