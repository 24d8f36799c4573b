//! The places of a source, each reading of which is counted.
ghost use Rattle.std.specs.Prelude.{◌≡◌, ◌+◌, ◌-◌, ◌^◌, ◌<◌, ◌≤◌, [], ◌∷◌, ◌++◌, Some, drop, length, slice_get, take, IfOk, OnOk};
ghost use Rattle.smap_originals.specs.Originals.{IsByOriginal};

use crate::place::GeneratedPlace;
use smap_mappings::Meter;
use std::alloc::{AllocError, Global};
use std::marker::Model;

// The places of the mappings of a source. One is read only by a call that counts it.
#[derive(Drop)]
pub struct Places {
    places: Vec<GeneratedPlace>,
}

impl Model for Places {
    ghost use Rattle.std.specs.Prelude.{List};
    ghost use Rattle.smap_originals.specs.declared.place.GeneratedPlace.{GeneratedPlace};

    ghost Value = { List GeneratedPlace };

    ghost view = { λ p. p.places.items };
}

impl Places {
    // No places, with room for so many.
    pub fn with_capacity(alloc: Global, places: usize) -> Result<Places, AllocError>
        ensures { IfOk result (λ made. made ≡ []) }
    {
        Ok(Places {
            places: Vec::with_capacity(alloc, places)?,
        })
    }

    // Adds a place at the end.
    pub fn push(&mut self, place: GeneratedPlace) -> Result<(), AllocError>
        ensures { IfOk result (λ _. self.new ≡ self.old ++ place ∷ []) }
    {
        self.places.push(place)?;
        Ok(())
    }

    // Puts the places in the order of their originals, and leaves those of one original in theirs.
    pub fn sort(&mut self) -> Result<(), AllocError>
        ensures { OnOk result (IsByOriginal self.old self.new) }
    {
        self.places.sort_by_key(|place| place.original_order())?;
        Ok(())
    }

    // How many places there are.
    pub fn len(&self) -> usize
        ensures count { result ≡ length self.now }
        ensures small { result < 2 ^ 63 }
    {
        self.places.len()
    }

    // Lends place `i`, from 0, to be compared, and counts that.
    pub fn at(&self, i: usize, meter: &mut Meter) -> &GeneratedPlace
        requires within { i < length self.now }
        requires room { meter.old.comparisons < u64.MAX }
        ensures read { slice_get self.now i ≡ Some result.now }
        ensures counted { meter.new ≡ record meter.old { comparisons = meter.old.comparisons + 1 } }
    {
        meter.count_comparison();
        &self.places[i]
    }

    // Lends the places from one on, up to another, and reads none.
    pub fn lend(&self, first: usize, end: usize) -> &[GeneratedPlace]
        requires ordered { first ≤ end }
        requires within { end ≤ length self.now }
        ensures { result.now ≡ take (end - first) (drop first self.now) }
    {
        &self.places[first..end]
    }
}
