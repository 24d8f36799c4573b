//! A hold on a map.
ghost use Rattle.std.specs.Prelude.{◌≡◌, IfErr, IfOk, IfSome};
ghost use Rattle.std.specs.Borrow.{sem};
ghost use Rattle.smap_record.specs.Lending.{LendsOnly};

use crate::map_file::MapFile;
use crate::ready_map::ReadyMap;
use std::alloc::{AllocError, AllocFailed, Global};
use std::marker::Model;
use std::sync::Arc;

/// A hold on a map, which others may hold, too. It is freed with the last that holds it. Each hold may go to a thread of its
/// own.
#[derive(Drop)]
pub struct SharedMap {
    map: Arc<ReadyMap, Global>,
}

impl Model for SharedMap {
    ghost use Rattle.std.specs.Arc.{arc_value};
    ghost use Rattle.smap_record.specs.MapFile.{Map};

    ghost Value = { Map };

    ghost view = { λ shared. arc_value shared.map };
}

impl SharedMap {
    /// The first hold on a map. Where memory runs out, the map comes back.
    pub fn new(alloc: Global, map: MapFile) -> Result<SharedMap, AllocFailed<MapFile>>
        ensures held { IfOk result (λ shared. shared ≡ map) }
        ensures back { IfErr result (λ failed. failed.value ≡ map) }
    {
        match Arc::new(alloc, ReadyMap::new(alloc, map)) {
            Ok(map) => Ok(SharedMap { map }),
            Err(AllocFailed { value }) => Err(AllocFailed {
                value: value.into_map(),
            }),
        }
    }

    /// The map.
    pub fn map(&self) -> &MapFile
        ensures { result.now ≡ self.now }
    {
        self.ready().map()
    }

    /// The map, ready for look-ups.
    pub fn ready(&self) -> &ReadyMap
        ensures { result.now ≡ self.now }
    {
        &*self.map
    }

    /// Another hold on the map. The call takes no memory; it fails where there are 2 ^ 63 - 1 of them.
    pub fn share(&self) -> Result<SharedMap, AllocError>
        ensures { IfOk result (λ other. other ≡ self.now) }
    {
        Ok(SharedMap {
            map: self.map.clone()?,
        })
    }

    /// The map, to be changed, where nothing else holds it. What others hold never changes.
    pub fn only(&mut self) -> Option<&mut ReadyMap>
        ensures* writes_back { sem 𝓛 (LendsOnly self.entry result) }
        ensures value { IfSome result (λ map. map.now ≡ self.old) }
    {
        Arc::get_mut(&mut self.map)
    }

    /// The map itself, where nothing else holds it. Else the hold comes back.
    pub fn into_map(self) -> Result<MapFile, SharedMap>
        ensures taken { IfOk result (λ map. map ≡ self) }
        ensures back { IfErr result (λ shared. shared ≡ self) }
    {
        match Arc::try_unwrap(self.map) {
            Ok(ready) => Ok(ready.into_map()),
            Err(map) => Err(SharedMap { map }),
        }
    }
}
