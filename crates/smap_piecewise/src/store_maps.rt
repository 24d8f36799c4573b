//! The maps of a table, and behind them those that are kept.
use crate::kept_maps::KeptMaps;
use crate::known::{KnownMaps, NamedMap};
use crate::location::is_location;
use smap_kept::KeptAnswer;
use smap_locations::without_query;
use smap_store::UrlTable;

/// The maps of a table, which come first, and those that are kept of URLs. Where maps are asked for, it is not known what
/// map a location has of which nothing is kept; other URLs have none.
#[derive(Drop)]
pub struct StoreMaps<'t, 'k> {
    pub table: &'t UrlTable,
    pub kept: &'k mut KeptMaps,
    pub asks: bool,
}

impl KnownMaps for StoreMaps<'_, '_> {
    ghost use Rattle.smap_piecewise.specs.StoreMaps.{StoreStill, declared_over, maps_over, still_of};

    ghost known = { λ maps. maps_over maps.asks maps.table.now maps.kept.now };

    ghost declared = { λ maps. declared_over maps.table.now maps.kept.now };

    ghost Still = { StoreStill };

    ghost still = { still_of };

    fn ask(&mut self, url: &[u8]) -> bool {
        if self.table.map_under(url, true).is_some() {
            return true;
        }
        self.kept.ask(url) || !(self.asks && is_location(without_query(url)))
    }

    fn named_for(&self, url: &[u8]) -> Option<NamedMap<'_>> {
        if let Some(map) = self.table.map_under(url, true) {
            return Some(NamedMap {
                map,
                declared: self.table.names_under(url, true),
            });
        }
        match self.kept.kept.peek(url, self.kept.now) {
            KeptAnswer::Known(kept) => Some(kept.named()),
            KeptAnswer::NoneKnown(_) | KeptAnswer::Wanted => None,
        }
    }
}
