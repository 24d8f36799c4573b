//! A text that comes without the control sequences of a terminal.
ghost use Rattle.std.specs.Prelude.{◌≡◌, [], OnOk, false, true};
ghost use Rattle.smap_io.specs.Sequences.{most_sequences};
ghost use Rattle.smap_piecewise.specs.Private.Stripping.{PassesOn};

use crate::given::Given;
use smap_io::{Front, front_of, tell};
use std::alloc::{AllocError, Global};

// How many bytes are told at once.
const ROOM_BYTES: usize = 4096;

/// Bytes that were given, of which it is not yet told which stand in a control sequence, and how many sequences are still
/// left out.
#[derive(Drop)]
pub struct Stripping {
    pub held: Given,
    pub most: u64,
}

impl Stripping {
    /// Of a text of which nothing was given. The call takes no memory.
    pub fn new(alloc: Global) -> Stripping
        ensures { result ≡ record { held = []; most = most_sequences } }
    {
        Stripping {
            held: Given::new(alloc),
            most: u64::MAX,
        }
    }

    /// Hands on what can be told of them, and all that stays where the text ends with them.
    pub fn pass_on(&mut self, is_ended: bool, given: &mut Given) -> Result<(), AllocError>
        ensures passes { PassesOn is_ended self.old self.new given.old given.new }
        ensures ended { OnOk result (is_ended ≡ true → self.new.held ≡ []) }
    {
        self.pass_told(given)?;
        if is_ended {
            self.pass_last(given)?;
        }
        Ok(())
    }

    // Hands on what can be told of them, whatever follows.
    fn pass_told(&mut self, given: &mut Given) -> Result<(), AllocError>
        ensures { PassesOn false self.old self.new given.old given.new }
    {
        let mut room = [0; ROOM_BYTES];
        loop {
            let bytes = self.held.bytes().len();
            let told = tell(self.held.bytes(), self.most, &mut room);
            given.push(&room[..told.count])?;
            self.held.cut(bytes - told.left);
            self.most = told.most;
            if told.left == bytes {
                return Ok(());
            }
        }
    }

    // Hands on what stays of them, behind which nothing follows.
    fn pass_last(&mut self, given: &mut Given) -> Result<(), AllocError>
        ensures passes { PassesOn true self.old self.new given.old given.new }
        ensures ended { OnOk result (self.new.held ≡ []) }
    {
        while let Some((first, _)) = self.held.bytes().split_first() {
            let first = *first;
            match front_of(self.held.bytes(), self.most) {
                Front::Sequence(bytes) => {
                    self.held.cut(bytes);
                    self.most -= 1;
                }
                Front::Open | Front::Byte(_) => {
                    given.push(&[first])?;
                    self.held.cut(1);
                }
            }
        }
        Ok(())
    }
}
