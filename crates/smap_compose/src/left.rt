//! Which entries of a list stay: of those that are used, each that is the same as none before it.
ghost use Rattle.std.specs.Prelude.{◌≡◌, ◌≤◌, length, IfOk};
ghost use Rattle.std.specs.Ordering.{eq_by_cmp};
ghost use Rattle.smap_record.specs.Limits.{most_listed};
ghost use Rattle.smap_compose.specs.Private.Left.{AreLeft, is_marked, those_marked};

use std::alloc::{AllocError, Global};
use std::collections::BTreeMap;

/// What becomes of each entry.
#[derive(Drop)]
pub struct Places {
    /// Its new place, from 0, which equal entries share. Where it is not used, this is 0 and means nothing.
    pub places: Vec<u32>,
    /// Whether it stays.
    pub stays: Vec<bool>,
}

/// What becomes of the entries with these keys, some of which are used. Entries with equal keys are the same.
pub fn places_left<K: Ord + Copy + Drop>(
    alloc: Global,
    keys: &[K],
    used: &[bool],
) -> Result<Places, AllocError>
    requires few { length keys.now ≤ most_listed }
    requires marked { length used.now ≡ length keys.now }
    ensures left { IfOk result (λ left. AreLeft (eq_by_cmp K.cmp) (is_marked used.now) keys.now
        left.places.items left.stays.items) }
{
    let mut found: BTreeMap<K, u32> = BTreeMap::new(alloc);
    let mut places = Vec::with_capacity(alloc, keys.len())?;
    let mut stays = Vec::with_capacity(alloc, keys.len())?;
    let mut many: u32 = 0;
    for (i, key) in keys.iter().enumerate() {
        if !used[i] {
            places.push(0)?;
            stays.push(false)?;
            continue;
        }
        if let Some(place) = found.get(key) {
            places.push(*place)?;
            stays.push(false)?;
            continue;
        }
        found.insert(*key, many)?;
        places.push(many)?;
        stays.push(true)?;
        many += 1;
    }
    Ok(Places { places, stays })
}

/// The entries that stay, in their order.
pub fn kept_entries<T: Drop>(
    alloc: Global,
    entries: Vec<T>,
    stays: &[bool],
) -> Result<Vec<T>, AllocError>
    ensures { IfOk result (λ kept. kept.items ≡ those_marked stays.now entries.items) }
{
    entries
        .into_iter()
        .zip(stays)
        .filter(|(_, stays)| **stays)
        .map(|(entry, _)| entry)
        .collect(alloc)
}
