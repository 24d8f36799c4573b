//! The URLs of a table, and what looks like one.
ghost use Rattle.std.specs.Prelude.{◌≡◌, IfOk};
ghost use Rattle.smap_piecewise.specs.TableUrls.{maps_of};

use smap_anywhere::{MapUrls, SeemingUrls};
use smap_locations::without_query;
use smap_pairs::{KnownUrls, NamedBy};
use smap_store::UrlTable;
use std::alloc::{AllocError, Global};

/// The URLs and the patterns of a table; where maps are asked for, what looks like a URL without its query and its fragment
/// is known as that of a pattern is, too. No call but `new` takes memory.
#[derive(Drop)]
pub struct TableUrls<'t> {
    pub urls: MapUrls<'t>,
    pub asks: bool,
}

impl<'t> TableUrls<'t> {
    /// Those of a table, which is looked through here.
    pub fn new(alloc: Global, table: &'t UrlTable, asks: bool) -> Result<TableUrls<'t>, AllocError>
        ensures urls { IfOk result (λ known. known.urls ≡ maps_of table.now) }
        ensures asks { IfOk result (λ known. known.asks ≡ asks) }
    {
        let urls = MapUrls::new(alloc, table.exact(), table.locations())?;
        Ok(TableUrls { urls, asks })
    }
}

impl KnownUrls for TableUrls<'_> {
    ghost use Rattle.smap_piecewise.specs.Laws.TableUrls.{table_fronts, table_within};
    ghost use Rattle.smap_piecewise.specs.TableUrls.{table_urls};

    ghost known = { λ known. table_urls known.asks known.urls };

    fn frame_url(&self, line: &[u8]) -> Option<(usize, usize)> {
        self.urls.frame_url(line)
    }

    fn has_own(&self, url: &[u8]) -> bool {
        self.urls.has_own(url)
    }

    fn is_name(&self, url: &[u8]) -> bool {
        self.urls.is_name(url)
    }

    fn is_named(&self, by: NamedBy, url: &[u8]) -> bool {
        self.urls.is_named(by, url)
    }

    fn is_prefix(&self, text: &[u8]) -> bool {
        self.urls.is_prefix(text)
    }

    fn has_pattern(&self, url: &[u8]) -> bool {
        self.urls.has_pattern(url) || self.asks && SeemingUrls.has_pattern(without_query(url))
    }

    fn name_lengths(&self) -> &[usize] {
        self.urls.name_lengths()
    }

    fn prefix_lengths(&self) -> &[usize] {
        self.urls.prefix_lengths()
    }

    fn find_front(&self, text: &[u8]) -> Option<usize> {
        if self.asks {
            Some(0)
        } else {
            self.urls.find_front(text)
        }
    }

    ghost within = { table_within };

    ghost fronts = { table_fronts };
}
