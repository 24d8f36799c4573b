//! Values under texts.
ghost use Rattle.std.specs.Prelude.{◌≡◌, [], None, IfErr, IfOk, OnErr, OnOk, length, map, option_copied, option_map};
ghost use Rattle.smap_locations.specs.ByText.{IsWith, value_under};
ghost use Rattle.smap_locations.specs.Common.{common_of, common_with};

use crate::common::common_front;
use std::alloc::{AllocError, AllocFailed, Global};
use std::collections::BTreeMap;
use std::marker::Model;

/// Values, each under a text of its own.
#[derive(Drop)]
pub struct ByText<T> {
    values: BTreeMap<Vec<u8>, T>,
}

impl<T> Model for ByText<T> {
    ghost use Rattle.std.specs.Prelude.{ℕ, List, map};

    ghost Value = { List (List ℕ × T) };

    ghost view = { λ all. map (λ e. (e.0.items, e.1)) all.values.entries };
}

impl<T: Drop> ByText<T> {
    /// No value. The call takes no memory.
    pub fn new(alloc: Global) -> ByText<T>
        ensures { result ≡ [] }
    {
        ByText {
            values: BTreeMap::new(alloc),
        }
    }

    /// Puts a value under a text that has none. Where memory runs out, nothing is changed, and both come back.
    pub fn add(&mut self, text: Vec<u8>, value: T) -> Result<(), AllocFailed<(Vec<u8>, T)>>
        requires { value_under text.items self.old ≡ None }
        ensures added { OnOk result (IsWith self.old text.items value self.new) }
        ensures kept { OnErr result (self.new ≡ self.old) }
        ensures back { IfErr result (λ failed. failed.value ≡ (text, value)) }
    {
        match self.values.insert(text, value) {
            Ok(_) => Ok(()),
            Err(failed) => Err(failed),
        }
    }

    /// The value under a text, where there is one. The call takes no memory.
    pub fn get(&self, text: &[u8]) -> Option<&T>
        ensures { option_copied result ≡ value_under text.now self.now }
    {
        self.values.get(text)
    }

    /// How many values there are.
    pub fn count(&self) -> usize
        ensures { result ≡ length self.now }
    {
        self.values.len()
    }

    /// How many bytes the texts have, one after another in their order.
    pub fn lengths(&self, alloc: Global) -> Result<Vec<usize>, AllocError>
        ensures { IfOk result (λ lengths. lengths.items ≡ map (λ pair. length pair.0) self.now) }
    {
        self.values.keys().map(|text| text.len()).collect(alloc)
    }

    /// What the texts all begin with, where there is one at least. The call takes no memory.
    pub fn common(&self) -> Option<&[u8]>
        ensures { option_map (λ text. text.now) result ≡ common_of (map (λ pair. pair.0) self.now) }
    {
        let mut common: Option<&[u8]> = None;
        for text in self.values.keys() {
            common = Some(common_with(common, text));
        }
        common
    }
}

// What a text and those before it all begin with, which begin with this, where there are any.
fn common_with<'a>(common: Option<&'a [u8]>, text: &'a [u8]) -> &'a [u8]
    ensures { result.now ≡ common_with (option_map (λ text. text.now) common.entry) text.now }
{
    match common {
        None => text,
        Some(common) => common_front(common, text),
    }
}
