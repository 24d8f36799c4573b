//! Maps that are read when they are named, with the written names of functions.
ghost use Rattle.std.specs.Prelude.{◌≡◌};
ghost use Rattle.smap_store.specs.Named.{IsSameNamed, NamesOf, named_seen};
ghost use Rattle.smap_store.specs.Program.{program_seen};
ghost use Rattle.smap_store.specs.Stored.{found_in};
ghost use Rattle.smap_store.specs.StoredMaps.{stored_seen};

use crate::loader::MapLoader;
use crate::names_cache::NamesCache;
use crate::names_loader::NamesLoader;
use crate::program::Program;
use crate::stored::StoredMaps;
use smap_record::ReadyMap;
use smap_trace::{Maps, name_declared_beside};
use std::alloc::Global;

/// The maps of a store, and beside them the declarations of their programs, which are listed when a URL of one is first
/// named, and anew when its map is read anew.
#[derive(Drop)]
pub struct NamedMaps<'s, 'c, 'n, L: MapLoader, N: NamesLoader> {
    pub maps: StoredMaps<'s, 'c, L>,
    pub names: &'n mut NamesCache,
    pub namer: &'n mut N,
}

impl<L: MapLoader, N: NamesLoader> NamedMaps<'_, '_, '_, L, N> {
    // Asks for the declarations of the program of a URL whose map was looked for, where it has one, and remembers what came.
    fn ask_names(&mut self, url: &[u8], program: Program<'_>)
        ensures asked { NamesOf N.Names (found_in (stored_seen self.old.maps) url.now)
            self.old.names.now self.old.namer.now (program_seen program.entry) self.new.names.now
            self.new.namer.now }
        ensures maps { self.new.maps ≡ self.old.maps }
        ensures same { IsSameNamed self.old self.new }
    {
        let alloc = self.maps.alloc;
        let Some(map) = self.maps.map_for(url) else {
            return;
        };
        let came = self.namer.load_names(alloc, program, map);
        self.names.remember(alloc, program, came);
    }
}

impl<L: MapLoader, N: NamesLoader> Maps for NamedMaps<'_, '_, '_, L, N> {
    ghost use Rattle.std.specs.Prelude.{true};
    ghost use Rattle.smap_store.specs.Named.{FindsNamed, GivesNamed, IsSameNamed, named_seen, names_in};
    ghost use Rattle.smap_store.specs.Program.{program_in};
    ghost use Rattle.smap_store.specs.Stored.{FindsIn, GivesIn, found_in};
    ghost use Rattle.smap_store.specs.StoredMaps.{stored_seen};
    ghost use Rattle.smap_store.specs.Laws.Named.{given_named, same_named, some_named};
    ghost use Rattle.smap_store.specs.Laws.Stored.{given_in, same_in, some_in};
    ghost use Rattle.smap_trace.specs.Laws.Maps.{is_named};

    ghost Gives = { λ maps. GivesIn L.MayLoad (stored_seen maps.maps) };

    ghost Finds = { λ maps url after.
        FindsNamed (FindsIn L.Loads) N.Names (named_seen maps) url (named_seen after) × IsSameNamed maps after };

    ghost found = { λ maps. found_in (stored_seen maps.maps) };

    ghost names = { λ maps. names_in (named_seen maps) };

    ghost names_any = { true };

    ghost GivesNames = { λ maps. GivesNamed (GivesIn L.MayLoad (stored_seen maps.maps))
        (program_in (stored_seen maps.maps)) N.MayName maps.names.now maps.namer.now };

    fn find(&mut self, url: &[u8]) -> bool {
        let (program, was_held) = self.maps.program_of(url);
        let may_differ = self.maps.find(url);
        let was_kept = self.names.touch(program);
        if !(was_held && was_kept) {
            self.ask_names(url, program);
        }
        may_differ
    }

    fn map_for(&self, url: &[u8]) -> Option<&ReadyMap> {
        self.maps.map_for(url)
    }

    fn knows_names(&self) -> bool {
        true
    }

    fn written_name<'a>(
        &'a self,
        alloc: Global,
        url: &[u8],
        function: &'a [u8],
        line: u32,
        column: u32,
    ) -> Option<&'a [u8]> {
        let (program, map) = self.maps.program_with_map(url);
        let declared = self.names.get(program);
        name_declared_beside(alloc, map, declared, function, line, column)
    }

    ghost some = { λ maps url. some_in L.MayLoad (stored_seen maps.maps) url };

    ghost given = { λ maps after url finds.
        given_in L.MayLoad L.Loads L.given (stored_seen maps.maps) (stored_seen after.maps) url
        finds.0.stored };

    ghost same = { λ maps after url other more finds.
        same_in L.MayLoad L.Loads L.given L.same (stored_seen maps.maps) (stored_seen after.maps)
        url other more finds.0.stored };

    ghost some_names = { λ maps url. some_named L.MayLoad N.MayName (named_seen maps) url };

    ghost given_names = { λ maps after url finds.
        given_named L.MayLoad L.Loads L.given N.MayName N.Names N.given_names (named_seen maps)
        (named_seen after) url finds.0 };

    ghost same_names = { λ maps after url other stated written finds.
        same_named L.MayLoad L.Loads L.given N.MayName N.Names N.given_names L.same N.same_names
        (named_seen maps) (named_seen after) url other stated written finds.0 };

    ghost unnamed = { λ maps url. is_named (names_in (named_seen maps) url) };
}
