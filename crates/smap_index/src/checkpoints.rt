//! The table of checkpoints, in which each reading is counted.

ghost use Rattle.std.specs.Prelude.{◌≡◌, ◌+◌, ◌<◌, [], ◌∷◌, ◌++◌, Some, length, slice_get, IfOk};

use crate::checkpoint::Checkpoint;
use smap_mappings::Meter;
use std::alloc::{AllocError, Global};
use std::marker::Model;

// The checkpoints of an index, in order. One is read only by a call that counts it.
#[derive(Drop)]
pub struct Checkpoints {
    checkpoints: Vec<Checkpoint>,
}

impl Model for Checkpoints {
    ghost use Rattle.std.specs.Prelude.{List};
    ghost use Rattle.smap_index.specs.declared.checkpoint.Checkpoint.{Checkpoint};

    ghost Value = { List Checkpoint };

    ghost view = { λ t. t.checkpoints.items };
}

impl Checkpoints {
    // A table of no checkpoint.
    pub fn new(alloc: Global) -> Self
        ensures { result ≡ [] }
    {
        Checkpoints {
            checkpoints: Vec::new(alloc),
        }
    }

    // Makes room for this many checkpoints more.
    pub fn reserve(&mut self, additional: usize) -> Result<(), AllocError>
        ensures { self.new ≡ self.old }
    {
        self.checkpoints.reserve(additional)
    }

    // Adds a checkpoint at the end.
    pub fn push(&mut self, checkpoint: Checkpoint) -> Result<(), AllocError>
        ensures { IfOk result (λ _. self.new ≡ self.old ++ checkpoint ∷ []) }
    {
        self.checkpoints.push(checkpoint)?;
        Ok(())
    }

    // How many checkpoints there are.
    pub fn len(&self) -> usize
        ensures { result ≡ length self.now }
    {
        self.checkpoints.len()
    }

    // Lends checkpoint `i`, from 0, to be compared, and counts that.
    pub fn at(&self, i: usize, meter: &mut Meter) -> &Checkpoint
        requires within { i < length self.now }
        requires room { meter.old.comparisons < u64.MAX }
        ensures read { slice_get self.now i ≡ Some result.now }
        ensures counted { meter.new ≡ record meter.old { comparisons = meter.old.comparisons + 1 } }
    {
        meter.count_comparison();
        &self.checkpoints[i]
    }
}

// A table has its checkpoints alone: with a further field this would not compile.
fn has_this_field_alone(table: &Checkpoints) {
    let Checkpoints { checkpoints: _ } = table;
}
