//! Maps that are read when they are named.
ghost use Rattle.std.specs.Prelude.{◌≡◌, option_map, string_bytes};
ghost use Rattle.std.specs.Result.{result_map_both};
ghost use Rattle.smap_store.specs.Fileless.{known_of};
ghost use Rattle.smap_store.specs.Loaded.{came_seen};
ghost use Rattle.smap_store.specs.Named.{holds_map};
ghost use Rattle.smap_store.specs.Program.{program_in, program_seen};
ghost use Rattle.smap_store.specs.Stored.{Asks, Comes, found_in, outcome_at};
ghost use Rattle.smap_store.specs.StoredMaps.{IsSameStore, stored_seen};
ghost use Rattle.smap_store.specs.declared.program.MapKind.TheVariants as kinds;

use crate::cache::MapCache;
use crate::fileless::asks_no_file;
use crate::loader::{LoadedMap, MapLoader};
use crate::program::{MapKind, Program};
use smap_locations::Locations;
use smap_record::ReadyMap;
use smap_trace::{Maps, NoMap, Table};
use std::alloc::Global;

/// The maps of a table, and those of files, which are read when a URL is first named, and kept in a cache.
#[derive(Drop)]
pub struct StoredMaps<'s, 'c, L: MapLoader> {
    pub alloc: Global,
    /// What it has comes first.
    pub exact: &'s Table,
    /// The files of the others.
    pub locations: &'s Locations,
    pub cache: &'c mut MapCache,
    pub loader: &'c mut L,
}

impl<L: MapLoader> StoredMaps<'_, '_, L> {
    // What is known of a URL before any file is asked for: its map, or that it has none.
    fn known(&self, url: &[u8]) -> Option<Option<&ReadyMap>>
        ensures { option_map (λ known. option_map (λ map. map.now.stated) known) result
            ≡ known_of self.now.exact.now self.now.locations.now url.now }
    {
        if let Some(map) = self.exact.map_for(url) {
            return Some(Some(map));
        }
        if asks_no_file(self.locations, url) {
            return Some(None);
        }
        None
    }

    // The program of a URL, and whether its map is at hand: nothing is read when it is looked for. One look into the table
    // tells both.
    pub(crate) fn program_of<'u>(&self, url: &'u [u8]) -> (Program<'u>, bool)
        ensures program { program_seen result.0 ≡ program_in (stored_seen self.now) url.now }
        ensures held { result.1 ≡ holds_map (stored_seen self.now) url.now }
    {
        if self.exact.map_for(url).is_some() {
            return (in_table(url), true);
        }
        let key = self.locations.key_for(url);
        let is_held = asks_no_file(self.locations, url) || self.cache.recall(key).is_some();
        (in_file(key), is_held)
    }

    // The program of a URL, and the map that was found for it, where it has one. The URL is looked up in the table once.
    pub(crate) fn program_with_map<'u>(&self, url: &'u [u8]) -> (Program<'u>, Option<&ReadyMap>)
        ensures program { program_seen result.0 ≡ program_in (stored_seen self.now) url.now }
        ensures map { option_map (λ map. map.now.stated) result.1
            ≡ found_in (stored_seen self.now) url.now }
    {
        if let Some(map) = self.exact.map_for(url) {
            return (in_table(url), Some(map));
        }
        let key = self.locations.key_for(url);
        if asks_no_file(self.locations, url) {
            return (in_file(key), None);
        }
        match self.cache.recall(key) {
            Some(found) => (in_file(key), found.ok()),
            None => (in_file(key), None),
        }
    }

    /// The map of the URL that was looked for last, or why it has none. The call takes no memory.
    pub fn outcome_at(&self, url: &[u8]) -> Result<&ReadyMap, NoMap>
        ensures { result_map_both (λ map. map.now.stated) (λ why. why) result
            ≡ outcome_at (stored_seen self.now) url.now }
    {
        if let Some(known) = self.known(url) {
            return known.ok_or(NoMap::Unnamed);
        }
        match self.cache.recall(self.locations.key_for(url)) {
            Some(found) => found,
            None => Err(NoMap::Memory),
        }
    }

    // Asks for the map of a URL that is not remembered, and remembers what came.
    fn ask(&mut self, url: &[u8])
        ensures steps { Asks L.Loads (stored_seen self.old) url.now (stored_seen self.new) }
        ensures same { IsSameStore self.old self.new }
    {
        let Ok(path) = self.locations.path_for(self.alloc, url) else {
            self.cache.count_shortage();
            return;
        };
        let loaded = load_from(self.alloc, self.loader, url, path);
        self.cache.remember(self.alloc, url, loaded);
    }
}

// The program whose map the table has under a URL.
fn in_table(url: &[u8]) -> Program<'_>
    ensures { program_seen result ≡ record { kind = kinds.Table; key = url.now } }
{
    Program {
        kind: MapKind::Table,
        key: url,
    }
}

// The program whose map is that of a file, which is kept under this text.
fn in_file(key: &[u8]) -> Program<'_>
    ensures { program_seen result ≡ record { kind = kinds.File; key = key.now } }
{
    Program {
        kind: MapKind::File,
        key,
    }
}

// What comes for a URL from the file at a path, where it has one.
fn load_from<L: MapLoader>(
    alloc: Global,
    loader: &mut L,
    url: &[u8],
    path: Option<String>,
) -> Result<LoadedMap, NoMap>
    ensures { Comes L.Loads loader.old url.now (option_map string_bytes path) (came_seen result)
        loader.new }
{
    match path {
        Some(path) => loader.load(alloc, url, &path),
        None => Err(NoMap::Unnamed),
    }
}

impl<L: MapLoader> Maps for StoredMaps<'_, '_, L> {
    ghost use Rattle.std.specs.Prelude.{None, false, refl};
    ghost use Rattle.smap_store.specs.Stored.{FindsIn, GivesIn, found_in};
    ghost use Rattle.smap_store.specs.StoredMaps.{IsSameStore, stored_seen};
    ghost use Rattle.smap_store.specs.Laws.Stored.{given_in, same_in, some_in};

    ghost Gives = { λ maps. GivesIn L.MayLoad (stored_seen maps) };

    ghost Finds = { λ maps url after.
        FindsIn L.Loads (stored_seen maps) url (stored_seen after) × IsSameStore maps after };

    ghost found = { λ maps. found_in (stored_seen maps) };

    ghost names = { λ maps url. None };

    ghost names_any = { false };

    ghost GivesNames = { λ maps url stated written. Unit {0} };

    fn find(&mut self, url: &[u8]) -> bool {
        if self.known(url).is_some() {
            return false;
        }
        let key = self.locations.key_for(url);
        if self.cache.touch(key) {
            return false;
        }
        self.ask(key);
        true
    }

    fn map_for(&self, url: &[u8]) -> Option<&ReadyMap> {
        if let Some(known) = self.known(url) {
            return known;
        }
        let key = self.locations.key_for(url);
        match self.cache.recall(key) {
            Some(found) => found.ok(),
            None => None,
        }
    }

    fn knows_names(&self) -> bool {
        false
    }

    fn written_name<'a>(
        &'a self,
        _alloc: Global,
        _url: &[u8],
        _function: &'a [u8],
        _line: u32,
        _column: u32,
    ) -> Option<&'a [u8]> {
        None
    }

    ghost some = { λ maps url. some_in L.MayLoad (stored_seen maps) url };

    ghost given = { λ maps after url finds.
        given_in L.MayLoad L.Loads L.given (stored_seen maps) (stored_seen after) url finds.0 };

    ghost same = { λ maps after url other more finds.
        same_in L.MayLoad L.Loads L.given L.same (stored_seen maps) (stored_seen after)
        url other more finds.0 };

    ghost some_names = { λ maps url. (None, None, tt) };

    ghost given_names = { λ maps after url finds. tt };

    ghost same_names = { λ maps after url other stated written finds gives. tt };

    ghost unnamed = { λ maps url none. refl };
}
