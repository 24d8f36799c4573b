//! The walk along a line of a checked text.
ghost use Rattle.std.specs.Prelude.{◌≡◌, ◌≤◌, ℕ};
ghost use Rattle.smap_mappings.specs.LineWalk.{decoded_in, IsWalked};
ghost use Rattle.smap_mappings.specs.State.{IsAfter, IsBetween};
ghost use Rattle.smap_mappings.specs.PackedText.{IsPacked};

use crate::cursor::Cursor;
use crate::kind::Kind;
use crate::next::next_on_line;
use crate::state::State;

/// How far a walk came along a line: how many segments it passed, the state after the last of these, or the first state
/// where there is none, and what that last one has; and of the segment on the line at which it stopped, where it did at
/// one, what it has and the state after it.
#[derive(Clone, Copy)]
pub struct LineWalk {
    pub passed: u32,
    pub kind: Kind,
    pub state: State,
    pub next: Option<(Kind, State)>,
}

impl LineWalk {
    // How many segments the walk decoded.
    #[inline(always)]
    pub(crate) fn decoded(&self) -> u32
        requires { decoded_in self.now ≤ u32.MAX }
        ensures { result ≡ decoded_in self.now }
    {
        match self.next {
            Some(_) => self.passed + 1,
            None => self.passed,
        }
    }
}

// Walks along the line of a state over at most this many segments before a column.
#[inline(always)]
pub fn walk_line(bytes: &[u8], cursor: &Cursor, end: u64, most: u32) -> LineWalk
    requires packed { IsPacked bytes.now }
    requires state { IsBetween bytes.now cursor.now }
    ensures walked { (j : ℕ) →
        IsAfter bytes.now j cursor.now → IsWalked bytes.now j cursor.now end most result }
    ensures few { decoded_in result ≤ most }
{
    let mut at = *cursor;
    let mut kind = Kind::Unmapped;
    let mut passed = 0;
    while passed < most {
        let Some((next_kind, after)) = next_on_line(bytes, &at) else {
            break;
        };
        if after.column as u64 >= end {
            return LineWalk {
                passed,
                kind,
                state: State::new(at),
                next: Some((next_kind, State::new(after))),
            };
        }
        at = after;
        kind = next_kind;
        passed += 1;
    }
    LineWalk {
        passed,
        kind,
        state: State::new(at),
        next: None,
    }
}
