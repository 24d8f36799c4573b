//! Where each of several texts stands.
ghost use Rattle.std.specs.Prelude.{◌≡◌, [], None, ℕ, OnErr, OnOk};
ghost use Rattle.std.specs.List.{Contains};
ghost use Rattle.smap_locations.specs.ByText.{IsWith, value_under};
ghost use Rattle.smap_locations.specs.Private.Places.{HasLengths};

use crate::by_text::ByText;
use std::alloc::{AllocError, Global};
use std::marker::Model;

/// The places of texts, from 0, and how many bytes the texts have.
#[derive(Drop)]
pub struct TextPlaces {
    places: ByText<usize>,
    // Each length once, in order. One may be left of a text that found no room.
    lengths: Vec<usize>,
}

impl Model for TextPlaces {
    ghost use Rattle.smap_locations.specs.Private.Places.{HasLengths, Places};

    ghost Value = { Places };

    ghost view = { λ all. all.places };

    ghost invariant = { λ all. HasLengths all.places all.lengths.items };
}

impl TextPlaces {
    /// No text. The call takes no memory.
    pub fn new(alloc: Global) -> TextPlaces
        ensures { result ≡ [] }
    {
        TextPlaces {
            places: ByText::new(alloc),
            lengths: Vec::new(alloc),
        }
    }

    /// Puts the place of a text that has none. Where memory runs out, nothing is changed.
    pub fn add(&mut self, text: Vec<u8>, place: usize) -> Result<(), AllocError>
        requires { value_under text.items self.old ≡ None }
        ensures added { OnOk result (IsWith self.old text.items place self.new) }
        ensures kept { OnErr result (self.new ≡ self.old) }
    {
        add_length(&mut self.lengths, text.len())?;
        match self.places.add(text, place) {
            Ok(()) => Ok(()),
            Err(_) => Err(AllocError),
        }
    }

    /// The place of a text, where it has one.
    pub fn get(&self, text: &[u8]) -> Option<usize>
        ensures { result ≡ value_under text.now self.now }
    {
        self.places.get(text).copied()
    }

    /// How many bytes the texts have.
    pub fn lengths(&self) -> &[usize]
        ensures { HasLengths self.now result.now }
    {
        &self.lengths
    }
}

// Puts a length among others, where it is not there.
fn add_length(lengths: &mut Vec<usize>, length: usize) -> Result<(), AllocError>
    ensures has { OnOk result (Contains lengths.new.items length) }
    ensures others { (other : ℕ) → Contains lengths.old.items other →
        Contains lengths.new.items other }
{
    match lengths.binary_search(&length) {
        Ok(_) => Ok(()),
        Err(place) => match lengths.insert(place, length) {
            Ok(()) => Ok(()),
            Err(_) => Err(AllocError),
        },
    }
}
