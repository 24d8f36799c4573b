//! Values under texts, in the order of their last use.
ghost use Rattle.std.specs.Prelude.{◌≡◌, ◌++◌, ◌∷◌, [], None, is_some, length, nat_eq, option_copied, option_map, IfErr, IfOk, OnErr, OnOk};
ghost use Rattle.std.specs.Option.{IfNone, option_to_list};
ghost use Rattle.std.specs.Map.{lookup, remove_entry};
ghost use Rattle.lru.specs.LruCache.{lru_cache};
ghost use Rattle.smap_locations.specs.ByText.{value_under};
ghost use Rattle.smap_kept.specs.InOrder.{first_under, used, without};

use lru::LruCache;
use std::alloc::{AllocError, AllocFailed, Global};
use std::collections::BTreeMap;
use std::marker::Model;

/// Values, each under a text of its own; what was used last stands first. Texts may be chosen by an attacker: they are
/// compared, and not hashed.
#[derive(Drop)]
pub(crate) struct InOrder<V> {
    // The number of each text.
    numbers: BTreeMap<Vec<u8>, u64>,
    // What has this number.
    entries: LruCache<u64, Named<V>>,
    // No number is as large.
    next: u64,
}

impl<V> Model for InOrder<V> {
    ghost use Rattle.std.specs.Prelude.{ℕ, List};
    ghost use Rattle.smap_kept.specs.Private.Numbered.{IsNumbered, in_order};

    ghost Value = { List (List ℕ × V) };

    ghost view = { λ all. in_order all.entries.entries };

    ghost invariant = { IsNumbered };
}

// A value, and the text under which it is.
#[derive(Drop)]
pub(crate) struct Named<V> {
    text: Vec<u8>,
    value: V,
}

impl<V: Drop> InOrder<V> {
    /// No value.
    pub(crate) fn new(alloc: Global) -> Result<InOrder<V>, AllocError>
        ensures { IfOk result (λ all. all ≡ []) }
    {
        let entries = LruCache::unbounded(alloc)?;
        Ok(InOrder {
            numbers: BTreeMap::new(alloc),
            entries,
            next: 0,
        })
    }

    /// How many values there are.
    pub(crate) fn count(&self) -> usize
        ensures { result ≡ length self.now }
    {
        self.entries.len()
    }

    /// The value under a text, where there is one. The order stays.
    pub(crate) fn get(&self, text: &[u8]) -> Option<&V>
        ensures { option_copied result ≡ value_under text.now self.now }
    {
        match self.first_under(text) {
            Some(value) => Some(value),
            None => self.numbered_under(text),
        }
    }

    // The value that was used last, where it is under this text: the next look-up is often for the same.
    fn first_under(&self, text: &[u8]) -> Option<&V>
        ensures { option_copied result ≡ first_under text.now self.now }
    {
        let (_, named) = self.entries.peek_mru()?;
        if text == named.text.as_slice() {
            Some(&named.value)
        } else {
            None
        }
    }

    // The value under a text, by its number.
    fn numbered_under(&self, text: &[u8]) -> Option<&V>
        ensures { option_copied result ≡ value_under text.now self.now }
    {
        let number = self.numbers.get(text)?;
        match self.entries.peek(number) {
            Some(named) => Some(&named.value),
            None => None,
        }
    }

    /// Puts what is under a text first, and says whether there is something.
    pub(crate) fn touch(&mut self, text: &[u8]) -> bool
        ensures found { result ≡ is_some (value_under text.now self.old) }
        ensures order { self.new ≡ used text.now self.old }
    {
        self.first_under(text).is_some() || self.promote(text)
    }

    // The same, by the number of what is under the text.
    fn promote(&mut self, text: &[u8]) -> bool
        ensures found { result ≡ is_some (value_under text.now self.old) }
        ensures order { self.new ≡ used text.now self.old }
    {
        match self.numbers.get(text) {
            Some(number) => self.entries.promote(number),
            None => false,
        }
    }

    /// Puts a value under a text, before all others, and gives what was under it. Where memory runs out, nothing is changed,
    /// and the value comes back.
    pub(crate) fn put(
        &mut self,
        alloc: Global,
        text: &[u8],
        value: V,
    ) -> Result<Option<V>, AllocFailed<V>>
        ensures put { OnOk result (self.new ≡ (text.now, value) ∷ without text.now self.old) }
        ensures before { IfOk result (λ before. before ≡ value_under text.now self.old) }
        ensures kept { OnErr result (self.new ≡ self.old) }
        ensures back { IfErr result (λ failed. failed.value ≡ value) }
    {
        let (Ok(key), Ok(text)) = (Vec::from_slice(alloc, text), Vec::from_slice(alloc, text))
        else {
            return Err(AllocFailed { value });
        };
        let number = self.next;
        let Some(next) = number.checked_add(1) else {
            return Err(AllocFailed { value });
        };
        match self.entries.put(number, Named { text, value }) {
            Ok(_) => {}
            Err(failed) => {
                return Err(AllocFailed {
                    value: failed.value.1.value,
                });
            }
        }
        let before = match self.numbers.insert(key, number) {
            Ok(before) => before,
            Err(_) => match take(&mut self.entries, number) {
                Some(value) => return Err(AllocFailed { value }),
                None => unreachable!("it was put"),
            },
        };
        self.next = next;
        match before {
            Some(before) => Ok(take(&mut self.entries, before)),
            None => Ok(None),
        }
    }

    /// Takes out what is under a text.
    pub(crate) fn remove(&mut self, text: &[u8]) -> Option<V>
        ensures value { result ≡ value_under text.now self.old }
        ensures rest { self.new ≡ without text.now self.old }
        ensures gone { value_under text.now self.new ≡ None }
    {
        let number = self.numbers.remove(text)?;
        take(&mut self.entries, number)
    }

    /// Takes out what was longest not used, with its text.
    pub(crate) fn pop_last(&mut self) -> Option<(Vec<u8>, V)>
        ensures rest { self.old
            ≡ self.new ++ option_to_list (option_map (λ e. (e.0.items, e.1)) result) }
        ensures none { IfNone result (self.old ≡ []) }
    {
        let (_, named) = self.entries.pop_lru()?;
        let Named { text, value } = named;
        self.numbers.remove(text.as_slice());
        Some((text, value))
    }

    /// Takes out all.
    pub(crate) fn clear(&mut self)
        ensures { self.new ≡ [] }
    {
        self.numbers.clear();
        self.entries.clear();
    }
}

// Takes out what has a number.
fn take<V: Drop>(entries: &mut LruCache<u64, Named<V>>, number: u64) -> Option<V>
    ensures value { result
        ≡ option_map (λ named. named.value) (lookup (nat_eq number) entries.old.entries) }
    ensures rest { entries.new
        ≡ lru_cache (remove_entry (nat_eq number) entries.old.entries) entries.old.cap }
{
    match entries.pop(&number) {
        Some(named) => Some(named.value),
        None => None,
    }
}
