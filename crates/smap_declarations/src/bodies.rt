//! Where the bodies end of what the names of a text declare.
ghost use Rattle.std.specs.Prelude.{◌≡◌, ◌∷◌, ◌+◌, ◌-◌, ◌<◌, ◌≤◌, ◌^◌, List, ℕ, [], length, OnOk};
ghost use Rattle.smap_declarations.specs.Private.Found.{all_named};
ghost use Rattle.smap_declarations.specs.Private.Waiting.{AreWaiting, ended_from, last_waiting, others_waiting};
ghost use Rattle.smap_declarations.specs.Walk.{place_after};

use crate::naming::Found;
use crate::walk::DeclarationPlace;
use std::alloc::{AllocError, Global};
use std::marker::Model;

// A name whose body has not ended: which of those found it is, and how many braces are open around it.
#[derive(Clone, Copy)]
pub struct Waiting {
    pub index: usize,
    pub level: usize,
}

const _: () = prove!(size_of::<Waiting>() == 16);

// Such names, the last one at the end.
#[derive(Drop)]
pub struct Bodies {
    waiting: Vec<Waiting>,
}

impl Model for Bodies {
    ghost use Rattle.std.specs.Prelude.{List, reverse};
    ghost use Rattle.smap_declarations.specs.declared.bodies.Waiting.{Waiting};

    ghost Value = { List Waiting };

    ghost view = { λ bodies. reverse bodies.waiting.items };
}

impl Bodies {
    // None.
    pub fn new(alloc: Global) -> Self
        ensures { result ≡ [] }
    {
        Bodies {
            waiting: Vec::new(alloc),
        }
    }

    // One more.
    pub fn push(&mut self, index: usize, level: usize) -> Result<(), AllocError>
        ensures { OnOk result (self.new ≡ (record { index = index; level = level }) ∷ self.old) }
    {
        self.waiting.push(Waiting { index, level })?;
        Ok(())
    }

    // Passes a byte of the text, behind so many braces, at this place, and tells how many there are behind it. Those whose
    // bodies it ends have their ends then.
    #[inline(always)]
    pub fn pass(
        &mut self,
        level: usize,
        byte: u8,
        place: DeclarationPlace,
        found: &mut Vec<Found<'_>>,
    ) -> usize
        requires order { AreWaiting level (length found.old.items) self.old }
        requires room { level + 1 < 2 ^ 64 }
        ensures ended { (text : List ℕ) →
            ended_from result (place_after place byte text) text self.new (all_named found.new.items)
            ≡ ended_from level place (byte ∷ text) self.old (all_named found.old.items) }
        ensures order { AreWaiting result (length found.new.items) self.new }
        ensures level { result ≤ level + 1 }
    {
        match byte {
            b'{' => level + 1,
            b'}' => {
                self.end(level, place, found);
                level.saturating_sub(1)
            }
            _ => level,
        }
    }

    // Gives this end to those whose bodies a `}` at this place ends, within so many braces.
    fn end(&mut self, level: usize, place: DeclarationPlace, found: &mut Vec<Found<'_>>)
        requires order { AreWaiting level (length found.old.items) self.old }
        ensures ended { (text : List ℕ) →
            ended_from (level - 1) (place_after place 0x7D text) text self.new (all_named found.new.items)
            ≡ ended_from level place (0x7D ∷ text) self.old (all_named found.old.items) }
        ensures order { AreWaiting (level - 1) (length found.new.items) self.new }
    {
        while let Some(last) = self.last() {
            if level - last.level > 1 {
                return;
            }
            found[last.index].until = place;
            self.pop();
        }
    }

    // Gives this end, that of the text, to all that are left.
    pub fn end_all(&mut self, level: usize, place: DeclarationPlace, found: &mut Vec<Found<'_>>)
        requires order { AreWaiting level (length found.old.items) self.old }
        ensures { all_named found.new.items
            ≡ ended_from level place [] self.old (all_named found.old.items) }
    {
        while let Some(last) = self.last() {
            let index = last.index;
            found[index].until = place;
            self.pop();
        }
    }

    // The last one.
    #[inline(always)]
    fn last(&self) -> Option<Waiting>
        ensures { result ≡ last_waiting self.now }
    {
        match self.waiting.last() {
            Some(last) => Some(*last),
            None => None,
        }
    }

    // Takes the last one away.
    #[inline(always)]
    fn pop(&mut self)
        ensures { self.new ≡ others_waiting self.old }
    {
        let _ = self.waiting.pop();
    }
}
