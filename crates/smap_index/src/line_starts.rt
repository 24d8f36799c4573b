//! Where the checkpoints of each generated line begin.

ghost use Rattle.std.specs.Prelude.{◌≡◌, ◌+◌, ◌≤◌, [], length, IfOk};
ghost use Rattle.smap_mappings.specs.Order.{IsInOrder};
ghost use Rattle.smap_index.specs.LineStarts.{AreLineStarts, line_starts};
ghost use Rattle.smap_index.specs.Private.Search.{HoldsLines, lines_at, mappings_at, stretch_of};

use crate::checkpoints::Checkpoints;
use crate::stretch::Stretch;
use smap_mappings::Meter;
use std::alloc::{AllocError, Global};
use std::marker::Model;

// How many checkpoints there are at most where lines have starts, and how many lines for each of them have one.
const MOST_COUNTED: usize = 4_294_967_295;

const LINES_A_CHECKPOINT: usize = 4;

/// For each of the first generated lines of an index, from 0, the number of its first checkpoint, so that a look-up compares
/// those of its line alone. A line takes 4 bytes.
#[derive(Drop)]
pub struct LineStarts {
    starts: Vec<u32>,
}

impl Model for LineStarts {
    ghost use Rattle.std.specs.Prelude.{ℕ, List};

    ghost Value = { List ℕ };

    ghost view = { λ lines. lines.starts.items };
}

impl LineStarts {
    /// Those of no line, with which a look-up compares among all checkpoints. The call takes no memory.
    pub fn none(alloc: Global) -> LineStarts
        ensures { result ≡ [] }
    {
        LineStarts {
            starts: Vec::new(alloc),
        }
    }

    // Those of a table. It is read by a meter that is let go.
    pub(crate) fn of(alloc: Global, table: &Checkpoints) -> Result<LineStarts, AllocError>
        requires { IsInOrder (mappings_at table.now) }
        ensures { IfOk result (λ made. made ≡ line_starts (lines_at table.now)) }
    {
        let count = table.len();
        if count == 0 || count > MOST_COUNTED {
            return Ok(LineStarts::none(alloc));
        }
        let mut meter = Meter::new(alloc);
        let most = LINES_A_CHECKPOINT * count;
        let lines = table.at(count - 1, &mut meter).line as usize + 1;
        let mut starts = Vec::with_capacity(alloc, lines.min(most))?;
        for i in 0..count {
            let lines = table.at(i, &mut meter).line as usize + 1;
            starts.resize(lines.min(most), i as u32)?;
        }
        Ok(LineStarts { starts })
    }

    // The checkpoints of a line, among so many: all, where the line or the one after it has no start.
    #[inline(always)]
    pub(crate) fn stretch_of(&self, line: u32, count: usize) -> Stretch
        ensures { result ≡ stretch_of self.now line count }
    {
        let line = line as usize;
        Stretch {
            low: match self.starts.get(line) {
                Some(start) => *start as usize,
                None => 0,
            },
            high: match self.starts.get(line + 1) {
                Some(next) => *next as usize,
                None => count,
            },
        }
    }
}
