//! What C holds: handles, each a pointer that owns a map, a table, a store, a rewriting, inner maps, originals, names of
//! functions, a finder of URLs or bytes.
ghost use Rattle.std.specs.Prelude.{◌≡◌, List, ℕ, Option, Some, IfOk};
ghost use Rattle.std.specs.Coded.{coded_option};
ghost use Rattle.smap_record.specs.MapFile.{Map};
ghost use Rattle.smap_anywhere.specs.FoundUrls.{FinderSeen};
ghost use Rattle.smap_anywhere.specs.contracts.url_finder.UrlFinder as url_finder;
ghost use Rattle.smap_originals.specs.contracts.originals.Originals as originals_index;
ghost use Rattle.smap_originals.specs.declared.place.GeneratedPlace.{GeneratedPlace};
ghost use Rattle.smap_piecewise.specs.Rewriting.{RewritingNow};
ghost use Rattle.smap_piecewise.specs.contracts.rewriting.Rewriting as text_rewriting;
ghost use Rattle.smap_piecewise.specs.contracts.kept_maps.KeptMaps as kept_maps;
ghost use Rattle.smap_piecewise.specs.declared.kept_maps.KeptMaps.{KeptMaps};
ghost use Rattle.smap_record.specs.contracts.shared_map.SharedMap as shared_map;
ghost use Rattle.smap_store.specs.UrlTable.{UrlTableSeen};
ghost use Rattle.smap_store.specs.contracts.url_table.UrlTable as url_table;
ghost use Rattle.smap_c.specs.contracts.bytes.Bytes as handed;
ghost use Rattle.smap_c.specs.contracts.inners.Inners as inner_maps;
ghost use Rattle.smap_c.specs.Inners.{Places};
ghost use Rattle.smap_c.specs.contracts.names.NamedFunctions as named_functions;
ghost use Rattle.smap_c.specs.declared.names.NamedFunctions.{NamedFunctions};
ghost use Rattle.smap_c.specs.Owned.{owns_held};

mod holder;
mod lending;

pub(crate) use holder::Holder;
use smap_record::{MapFile, SharedMap};
use std::alloc::{AllocError, Global};
use std::marker::{Model, Send};

/// A handle of a map, or an empty one.
#[repr(C)]
#[derive(Drop)]
pub struct MapHandle {
    at: *mut u8,
    pub ghost held: { Option Map } by { coded_option shared_map.the_row.coded },
}

impl Model for MapHandle {
    ghost also_owns = { λ handle. owns_held shared_map.the_row handle.at handle.held };
}

unsafe impl Send for MapHandle {}

impl MapHandle {
    /// The handle of a map that nothing else holds.
    pub(crate) fn of_map(alloc: Global, map: MapFile) -> Result<MapHandle, AllocError>
        ensures { IfOk result (λ handle. handle.held ≡ Some map) }
    {
        Ok(MapHandle::new(alloc, SharedMap::new(alloc, map)?)?)
    }
}

/// A handle of a table of maps, or an empty one.
#[repr(C)]
#[derive(Drop)]
pub struct TableHandle {
    at: *mut u8,
    pub ghost held: { Option UrlTableSeen } by { coded_option url_table.the_row.coded },
}

impl Model for TableHandle {
    ghost also_owns = { λ handle. owns_held url_table.the_row handle.at handle.held };
}

unsafe impl Send for TableHandle {}

/// A handle of inner maps, or an empty one.
#[repr(C)]
#[derive(Drop)]
pub struct InnersHandle {
    at: *mut u8,
    pub ghost held: { Option Places } by { coded_option inner_maps.the_row.coded },
}

impl Model for InnersHandle {
    ghost also_owns = { λ handle. owns_held inner_maps.the_row handle.at handle.held };
}

/// A handle of bytes that were handed out, or an empty one.
#[repr(C)]
#[derive(Drop)]
pub struct BytesHandle {
    at: *mut u8,
    pub ghost held: { Option (List ℕ) } by { coded_option handed.the_row.coded },
}

impl Model for BytesHandle {
    ghost also_owns = { λ handle. owns_held handed.the_row handle.at handle.held };
}

/// A handle of an index from original to generated, or an empty one.
#[repr(C)]
#[derive(Drop)]
pub struct OriginalsHandle {
    at: *mut u8,
    pub ghost held: { Option (List (List GeneratedPlace)) } by { coded_option originals_index.the_row.coded },
}

impl Model for OriginalsHandle {
    ghost also_owns = { λ handle. owns_held originals_index.the_row handle.at handle.held };
}

unsafe impl Send for OriginalsHandle {}

/// A handle of names of functions, or an empty one.
#[repr(C)]
#[derive(Drop)]
pub struct NamesHandle {
    at: *mut u8,
    pub ghost held: { Option NamedFunctions } by { coded_option named_functions.the_row.coded },
}

impl Model for NamesHandle {
    ghost also_owns = { λ handle. owns_held named_functions.the_row handle.at handle.held };
}

unsafe impl Send for NamesHandle {}

/// A handle of a finder of URLs, or an empty one.
#[repr(C)]
#[derive(Drop)]
pub struct UrlFinderHandle {
    at: *mut u8,
    pub ghost held: { Option FinderSeen } by { coded_option url_finder.the_row.coded },
}

impl Model for UrlFinderHandle {
    ghost also_owns = { λ handle. owns_held url_finder.the_row handle.at handle.held };
}

unsafe impl Send for UrlFinderHandle {}

/// A handle of a store of maps, or an empty one.
#[repr(C)]
#[derive(Drop)]
pub struct StoreHandle {
    at: *mut u8,
    pub ghost held: { Option KeptMaps } by { coded_option kept_maps.the_row.coded },
}

impl Model for StoreHandle {
    ghost also_owns = { λ handle. owns_held kept_maps.the_row handle.at handle.held };
}

unsafe impl Send for StoreHandle {}

/// A handle of a rewriting, or an empty one.
#[repr(C)]
#[derive(Drop)]
pub struct RewritingHandle {
    at: *mut u8,
    pub ghost held: { Option RewritingNow } by { coded_option text_rewriting.the_row.coded },
}

impl Model for RewritingHandle {
    ghost also_owns = { λ handle. owns_held text_rewriting.the_row handle.at handle.held };
}

unsafe impl Send for RewritingHandle {}
