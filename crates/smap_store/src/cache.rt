//! What is kept of the maps that were read.
ghost use Rattle.std.specs.Prelude.{◌≡◌, ◌/◌, [], is_some, option_map, IfOk, OnErr, OnOk, true};
ghost use Rattle.std.specs.Result.{result_map_both};
ghost use Rattle.smap_kept.specs.Bounded.{bytes_of, is_within, known_under};
ghost use Rattle.smap_store.specs.Cache.{Keeps, KeepsIn, Remembers, cache_at_first, counted, found_of, held_in, kept_under, short, used_in};
ghost use Rattle.smap_store.specs.Loaded.{came_seen};

use crate::loader::LoadedMap;
use smap_kept::Bounded;
use smap_record::ReadyMap;
use smap_trace::NoMap;
use std::alloc::{AllocError, Global};
use std::marker::Model;

/// What is remembered of the URLs that were asked for: the map of each, or why it has none. A map counts for the bytes of
/// its file and its URL, and 128 more; their sum is within a bound, or one stands alone. What has none counts for the bytes
/// of its URL and 128, within a sixteenth of that bound for itself. Where there is no room for one more, what was longest
/// not asked for is dropped.
#[derive(Drop)]
pub struct MapCache {
    // They are made when the first is remembered.
    held: Option<HeldMaps>,
    most: u64,
    read: u64,
    missing: u64,
    shortages: u64,
}

impl Model for MapCache {
    ghost use Rattle.smap_store.specs.Cache.{CacheSeen, IsHeld, cache_seen};

    ghost Value = { CacheSeen };

    ghost view = { cache_seen };

    ghost invariant = { IsHeld };
}

// The maps, and why other URLs have none.
#[derive(Drop)]
pub(crate) struct HeldMaps {
    pub(crate) maps: Bounded<ReadyMap>,
    pub(crate) nones: Bounded<NoMap>,
}

impl HeldMaps {
    fn new(alloc: Global, most: u64) -> Result<HeldMaps, AllocError>
        ensures { IfOk result (λ held. held ≡ held_in (cache_at_first most)) }
    {
        let maps = Bounded::new(alloc, most)?;
        let nones = Bounded::new(alloc, most / 16)?;
        Ok(HeldMaps { maps, nones })
    }

    // What is remembered of a URL.
    fn recall(&self, url: &[u8]) -> Option<Result<&ReadyMap, NoMap>>
        ensures { option_map (result_map_both (λ map. map.now.stated) (λ why. why)) result
            ≡ found_of (known_under url.now self.now.maps.entries)
            (known_under url.now self.now.nones.entries) }
    {
        if let Some(map) = self.maps.get(url) {
            return Some(Ok(map));
        }
        match self.nones.get(url) {
            Some(why) => Some(Err(*why)),
            None => None,
        }
    }

    // Keeps what came for a URL. Where memory runs out, nothing is changed.
    fn keep(
        &mut self,
        alloc: Global,
        url: &[u8],
        loaded: Result<LoadedMap, NoMap>,
    ) -> Result<(), AllocError>
        ensures kept { OnOk result (KeepsIn self.old url.now (came_seen loaded) self.new) }
        ensures memory { OnErr result (self.new ≡ self.old) }
    {
        match loaded {
            Ok(LoadedMap { map, file_bytes }) => {
                match self
                    .maps
                    .put(alloc, url, ReadyMap::new(alloc, map), file_bytes)
                {
                    Ok(_) => Ok(()),
                    Err(_) => Err(AllocError),
                }
            }
            Err(why) => match self.nones.put(alloc, url, why, 0) {
                Ok(_) => Ok(()),
                Err(_) => Err(AllocError),
            },
        }
    }
}

impl MapCache {
    /// A cache that remembers nothing, with a bound in bytes. The call takes no memory.
    pub fn new(most: u64) -> MapCache
        ensures { result ≡ cache_at_first most }
    {
        MapCache {
            held: None,
            most,
            read: 0,
            missing: 0,
            shortages: 0,
        }
    }

    /// For how many bytes the maps count that are kept.
    pub fn bytes(&self) -> u64
        ensures sum { result ≡ bytes_of self.now.maps }
        ensures within { is_within self.now.most self.now.maps ≡ true }
    {
        match &self.held {
            Some(held) => held.maps.bytes(),
            None => 0,
        }
    }

    /// For how many bytes the URLs count of which it is kept that they have none.
    pub fn none_bytes(&self) -> u64
        ensures sum { result ≡ bytes_of self.now.nones }
        ensures within { is_within (self.now.most / 16) self.now.nones ≡ true }
    {
        match &self.held {
            Some(held) => held.nones.bytes(),
            None => 0,
        }
    }

    /// How many maps were read, up to 18,446,744,073,709,551,615.
    pub fn read(&self) -> u64
        ensures { result ≡ self.now.read }
    {
        self.read
    }

    /// How often a URL of which a file is asked for had none, or no map could be read from its file, up to
    /// 18,446,744,073,709,551,615.
    pub fn missing(&self) -> u64
        ensures { result ≡ self.now.missing }
    {
        self.missing
    }

    /// How often there was not enough memory to ask for a map or to remember what came, up to 18,446,744,073,709,551,615.
    pub fn shortages(&self) -> u64
        ensures { result ≡ self.now.shortages }
    {
        self.shortages
    }

    // What is remembered of a URL, where something is.
    pub(crate) fn recall(&self, url: &[u8]) -> Option<Result<&ReadyMap, NoMap>>
        ensures { option_map (result_map_both (λ map. map.now.stated) (λ why. why)) result
            ≡ kept_under url.now self.now }
    {
        match &self.held {
            Some(held) => held.recall(url),
            None => None,
        }
    }

    // Uses what is remembered of a URL, and says whether something is.
    pub(crate) fn touch(&mut self, url: &[u8]) -> bool
        ensures found { result ≡ is_some (kept_under url.now self.old) }
        ensures used { self.new ≡ used_in url.now self.old }
    {
        match &mut self.held {
            Some(held) => held.maps.touch(url) || held.nones.touch(url),
            None => false,
        }
    }

    // Counts that there was not enough memory.
    pub(crate) fn count_shortage(&mut self)
        ensures { self.new ≡ short self.old }
    {
        self.shortages = self.shortages.saturating_add(1);
    }

    // Counts what came for a URL that is not remembered, and remembers it where there is memory for it.
    pub(crate) fn remember(&mut self, alloc: Global, url: &[u8], loaded: Result<LoadedMap, NoMap>)
        ensures { Remembers self.old url.now (came_seen loaded) self.new }
    {
        self.count(&loaded);
        if self.keep(alloc, url, loaded).is_err() {
            self.count_shortage();
        }
    }

    // Counts what came.
    fn count(&mut self, loaded: &Result<LoadedMap, NoMap>)
        ensures { self.new ≡ counted self.old (came_seen loaded.now) }
    {
        match loaded {
            Ok(_) => self.read = self.read.saturating_add(1),
            Err(_) => self.missing = self.missing.saturating_add(1),
        }
    }

    // Keeps what came for a URL. Where memory runs out, nothing is changed.
    fn keep(
        &mut self,
        alloc: Global,
        url: &[u8],
        loaded: Result<LoadedMap, NoMap>,
    ) -> Result<(), AllocError>
        ensures kept { OnOk result (Keeps self.old url.now (came_seen loaded) self.new) }
        ensures memory { OnErr result (self.new ≡ self.old) }
    {
        let mut held = self.take_held(alloc)?;
        let kept = held.keep(alloc, url, loaded);
        self.held = Some(held);
        kept
    }

    // Takes out what is held, or makes it. Where memory runs out, nothing is changed.
    fn take_held(&mut self, alloc: Global) -> Result<HeldMaps, AllocError>
        ensures held { IfOk result (λ held. held ≡ held_in self.old) }
        ensures left { OnOk result (self.new ≡ record self.old { maps = []; nones = [] }) }
        ensures memory { OnErr result (self.new ≡ self.old) }
    {
        match self.held.take() {
            Some(held) => Ok(held),
            None => HeldMaps::new(alloc, self.most),
        }
    }
}
