//! The index from original to generated.
ghost use Rattle.std.specs.Prelude.{◌≡◌, ℕ, ◌+◌, ◌^◌, ◌<◌, ◌≤◌, List, length, map, IfOk};
ghost use Rattle.smap_index.specs.Parts.{joined};
ghost use Rattle.smap_mappings.specs.declared.mapping.Mapping.{Mapping};
ghost use Rattle.smap_originals.specs.Generated.{generated_next};
ghost use Rattle.smap_originals.specs.Originals.{AreOriginalsOf, of_source, on_line, place_of};

use crate::asked::{Asked, OriginalDirection};
use crate::gather::{gather, sort};
use crate::place::GeneratedPlace;
use crate::places::Places;
use crate::run::{run_from, run_of_line, run_up_to};
use smap_mappings::Meter;
use smap_record::MapFile;
use std::alloc::{AllocError, Global};
use std::marker::Model;

/// The generated places of the mappings of a map that have an original, for each source by their originals: 16 bytes for
/// each mapping, and 24 for each source.
#[derive(Drop)]
pub struct Originals {
    by_source: Vec<Places>,
}

impl Model for Originals {
    ghost use Rattle.std.specs.Prelude.{List};
    ghost use Rattle.smap_originals.specs.declared.place.GeneratedPlace.{GeneratedPlace};
    ghost use Rattle.smap_originals.specs.Private.Run.{AreInOrder};

    ghost Value = { List (List GeneratedPlace) };

    ghost view = { λ originals. originals.by_source.items };

    ghost invariant = { λ originals. AreInOrder originals.by_source.items };
}

impl Originals {
    /// The index of a map, which the map is not needed for any more. All mappings are walked through twice.
    pub fn new(alloc: Global, map: &MapFile) -> Result<Originals, AllocError>
        ensures { IfOk result (AreOriginalsOf (joined map.now.stated.parts)) }
    {
        let mut by_source = gather(alloc, map)?;
        sort(&mut by_source)?;
        Ok(Originals { by_source })
    }

    /// Of the places whose original is on the asked line of the asked source, in the order of the map, those with the
    /// original column that is next to the asked one in its direction. Of fewer than 2 ^ b places of the source the call
    /// compares at most b, and one for each place that it lends; the meter has counted fewer than 2 ^ 62. It takes no
    /// memory.
    pub fn generated(&self, asked: &Asked, meter: &mut Meter) -> &[GeneratedPlace]
        requires room { meter.old.comparisons < 2 ^ 62 }
        ensures places { (list : List Mapping) → AreOriginalsOf list self.now →
            result.now ≡ map place_of
            (generated_next asked.now.direction list asked.now.source asked.now.line
            asked.now.column) }
        ensures compared { (b : ℕ) → length (of_source self.now asked.now.source) < 2 ^ b →
            meter.new.comparisons ≤ meter.old.comparisons + b + length result.now }
        ensures none_decoded { meter.new.segments ≡ meter.old.segments }
    {
        let Some(places) = self.by_source.get(asked.source as usize) else {
            return &[];
        };
        match asked.direction {
            OriginalDirection::AtOrBefore => run_up_to(places, asked.line, asked.column, meter),
            OriginalDirection::AtOrAfter => run_from(places, asked.line, asked.column, meter),
        }
    }

    /// All places whose original is on this line of this source, both from 0: by their original columns, and those of one in
    /// the order of the map. Of fewer than 2 ^ b places of the source the call compares at most 2 b; the meter has counted
    /// fewer than 2 ^ 61. It takes no memory.
    pub fn on_line(&self, source: u32, line: u32, meter: &mut Meter) -> &[GeneratedPlace]
        requires room { meter.old.comparisons < 2 ^ 61 }
        ensures places { result.now ≡ on_line line (of_source self.now source) }
        ensures compared { (b : ℕ) → length (of_source self.now source) < 2 ^ b →
            meter.new.comparisons ≤ meter.old.comparisons + b + b }
        ensures none_decoded { meter.new.segments ≡ meter.old.segments }
    {
        match self.by_source.get(source as usize) {
            Some(places) => run_of_line(places, line, meter),
            None => &[],
        }
    }
}
