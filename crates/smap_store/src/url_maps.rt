//! The maps of a table, and the names of functions, for a text that names URLs.
use crate::url_table::UrlTable;
use smap_record::ReadyMap;
use smap_trace::{Maps, name_declared_beside};
use std::alloc::Global;

/// The maps of a table, and what its declarations name. With `cut` a URL under which it has none has the one under it
/// without its query and its fragment, before those of patterns.
#[derive(Clone, Copy)]
pub struct UrlMaps<'t> {
    pub table: &'t UrlTable,
    pub cut: bool,
}

impl Maps for UrlMaps<'_> {
    ghost use Rattle.std.specs.Prelude.{◌≡◌, refl, true};
    ghost use Rattle.smap_store.specs.UrlMaps.{GivesOfUrls};
    ghost use Rattle.smap_store.specs.UrlTable.{map_under, names_under};
    ghost use Rattle.smap_store.specs.Laws.UrlMaps.{table_given, table_given_names, table_same, table_same_names};
    ghost use Rattle.smap_trace.specs.Laws.Maps.{is_named};

    ghost Gives = { λ maps url stated. stated ≡ map_under maps.cut maps.table.now url };

    ghost Finds = { λ maps url after. after ≡ maps };

    ghost found = { λ maps url. map_under maps.cut maps.table.now url };

    ghost names = { λ maps url. names_under maps.cut maps.table.now url };

    ghost names_any = { true };

    ghost GivesNames = { GivesOfUrls };

    fn find(&mut self, _url: &[u8]) -> bool {
        false
    }

    fn map_for(&self, url: &[u8]) -> Option<&ReadyMap> {
        self.table.map_under(url, self.cut)
    }

    fn knows_names(&self) -> bool {
        true
    }

    fn written_name<'a>(
        &'a self,
        alloc: Global,
        url: &[u8],
        function: &'a [u8],
        line: u32,
        column: u32,
    ) -> Option<&'a [u8]> {
        // First: a table without names has none at once.
        let declared = self.table.names_under(url, self.cut)?;
        let map = self.map_for(url);
        name_declared_beside(alloc, map, Some(declared), function, line, column)
    }

    ghost some = { λ maps url. (map_under maps.cut maps.table.now url, refl) };

    ghost given = { table_given };

    ghost same = { table_same };

    ghost some_names = { λ maps url.
        (map_under maps.cut maps.table.now url, names_under maps.cut maps.table.now url, (refl, refl)) };

    ghost given_names = { table_given_names };

    ghost same_names = { table_same_names };

    ghost unnamed = { λ maps url. is_named (names_under maps.cut maps.table.now url) };
}
