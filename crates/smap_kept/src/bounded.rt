//! Values under texts within a bound.
ghost use Rattle.std.specs.Prelude.{◌≡◌, ◌∷◌, ◌++◌, ◌+◌, ◌-◌, [], None, drop, is_some, length, nat_le, option_copied, take, IfErr, IfOk, OnErr, OnOk, true};
ghost use Rattle.std.specs.Option.{option_map_or};
ghost use Rattle.smap_locations.specs.ByText.{value_under};
ghost use Rattle.smap_kept.specs.InOrder.{used, without};
ghost use Rattle.smap_kept.specs.Bounded.{bytes_of, count_with, entry_bytes, fitting, is_within, kept_within, known_under};

use crate::in_order::InOrder;
use std::alloc::{AllocError, AllocFailed, Global};
use std::marker::Model;

/// A value, and how many bytes it has.
#[derive(Drop)]
pub(crate) struct Counted<V> {
    pub(crate) value: V,
    pub(crate) bytes: u64,
}

/// Values under texts, in the order of their last use. A value counts for its bytes, those of its text, and 128; their sum
/// is within a bound, or one value stands alone: where there is no room for one more, the longest unused are dropped.
#[derive(Drop)]
pub struct Bounded<V> {
    entries: InOrder<Counted<V>>,
    bytes: u64,
    most: u64,
}

impl<V> Model for Bounded<V> {
    ghost use Rattle.smap_kept.specs.Bounded.{BoundedSeen, IsBounded, bounded_seen};

    ghost Value = { BoundedSeen V };

    ghost view = { bounded_seen };

    ghost invariant = { IsBounded };
}

impl<V: Drop> Bounded<V> {
    /// No value, and a bound in bytes.
    pub fn new(alloc: Global, most: u64) -> Result<Bounded<V>, AllocError>
        ensures { IfOk result (λ all. all ≡ record { entries = []; most = most }) }
    {
        let entries = InOrder::new(alloc)?;
        Ok(Bounded {
            entries,
            bytes: 0,
            most,
        })
    }

    /// For how many bytes all count.
    pub fn bytes(&self) -> u64
        ensures sum { result ≡ bytes_of self.now.entries }
        ensures within { is_within self.now.most self.now.entries ≡ true }
    {
        self.bytes
    }

    /// How many values there are.
    pub(crate) fn count(&self) -> usize
        ensures { result ≡ length self.now.entries }
    {
        self.entries.count()
    }

    /// The value under a text, where there is one. The order stays.
    pub fn get(&self, text: &[u8]) -> Option<&V>
        ensures { option_copied result ≡ known_under text.now self.now.entries }
    {
        match self.entries.get(text) {
            Some(one) => Some(&one.value),
            None => None,
        }
    }

    /// Whether there is room for a value of so many bytes beside all others, under a text that has none.
    pub(crate) fn has_room_beside(&self, text: &[u8], bytes: u64) -> bool
        ensures { result ≡ nat_le
            (count_with (length text.now) bytes + bytes_of self.now.entries) self.now.most }
    {
        count_with(text.len(), bytes) <= self.most.saturating_sub(self.bytes)
    }

    /// Puts what is under a text first, and says whether there is something.
    pub fn touch(&mut self, text: &[u8]) -> bool
        ensures found { result ≡ is_some (value_under text.now self.old.entries) }
        ensures order { self.new ≡ record self.old { entries = used text.now self.old.entries } }
    {
        self.entries.touch(text)
    }

    /// Puts a value under a text, before all others, and drops what there is no room for then. Gives how many were dropped.
    /// Where memory runs out, nothing is changed, and the value comes back.
    pub fn put(
        &mut self,
        alloc: Global,
        text: &[u8],
        value: V,
        bytes: u64,
    ) -> Result<usize, AllocFailed<V>>
        ensures put { let all = (text.now, record { value = value; bytes = bytes })
            ∷ without text.now self.old.entries in
            OnOk result (self.new ≡ record self.old { entries = kept_within self.old.most all }) }
        ensures dropped { let all = (text.now, record { value = value; bytes = bytes })
            ∷ without text.now self.old.entries in
            IfOk result (λ dropped. dropped
            ≡ length all - length (kept_within self.old.most all)) }
        ensures kept { OnErr result (self.new ≡ self.old) }
        ensures back { IfErr result (λ failed. failed.value ≡ value) }
    {
        let count = count_with(text.len(), bytes);
        let before = match self.entries.put(alloc, text, Counted { value, bytes }) {
            Ok(before) => before,
            Err(failed) => {
                return Err(AllocFailed {
                    value: failed.value.value,
                });
            }
        };
        let others = self.bytes - bytes_before(text, before);
        let all = self.entries.count();
        let left = drop_past(&mut self.entries, others, self.most.saturating_sub(count));
        self.bytes = count + left;
        Ok(all - self.entries.count())
    }

    /// Takes out what is under a text.
    pub fn remove(&mut self, text: &[u8])
        ensures rest { self.new
            ≡ record self.old { entries = without text.now self.old.entries } }
        ensures gone { value_under text.now self.new.entries ≡ None }
    {
        let before = self.entries.remove(text);
        self.bytes -= bytes_before(text, before);
    }

    /// Takes out all.
    pub(crate) fn clear(&mut self)
        ensures { self.new ≡ record self.old { entries = [] } }
    {
        self.entries.clear();
        self.bytes = 0;
    }
}

// For how many bytes what was under a text counted, where there was something.
fn bytes_before<V: Drop>(text: &[u8], before: Option<Counted<V>>) -> u64
    ensures { result ≡ option_map_or (λ one. entry_bytes (text.now, one)) before 0 }
{
    match before {
        Some(one) => count_with(text.len(), one.bytes),
        None => 0,
    }
}

// Drops what was longest not used, but for the first, until the others count for no more bytes than there is room for. Gives
// for how many they count then.
fn drop_past<V: Drop>(entries: &mut InOrder<Counted<V>>, others: u64, room: u64) -> u64
    requires { bytes_of (drop 1 entries.old) ≡ others }
    ensures left { result ≡ bytes_of (drop 1 entries.new) }
    ensures entries { entries.new
        ≡ take 1 entries.old ++ fitting room (drop 1 entries.old) }
{
    let mut left = others;
    while left > room {
        match entries.pop_last() {
            Some((text, one)) => left -= count_with(text.as_slice().len(), one.bytes),
            None => unreachable!("their bytes are left"),
        }
    }
    left
}

// For how many bytes a value counts, with its text of so many bytes.
fn count_with(text_bytes: usize, bytes: u64) -> u64
    ensures { result ≡ count_with text_bytes bytes }
{
    bytes.saturating_add(text_bytes as u64).saturating_add(128)
}
