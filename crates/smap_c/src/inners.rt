//! The inner maps of a map, and of what it is composed to with them.
ghost use Rattle.std.specs.Prelude.{◌≡◌, None, Some, IfOk, IsSome, IsTrue, is_some, length, option_map, replicate, slice_set};
ghost use Rattle.smap_compose.specs.Inners.{stated_inners};
ghost use Rattle.smap_c.specs.Inners.{is_free, map_at, no_maps, stated_maps, whole_of};

use smap_record::{MapFile, SharedMap};
use std::alloc::{AllocError, Global};
use std::marker::Model;

/// The maps of the sources of a map: of the outer one or, once that was composed, of what it came to.
#[derive(Drop)]
pub struct Inners {
    /// What the outer map was composed to, if it was.
    pub(crate) whole: Option<Box<SharedMap>>,
    /// By its source, the source whose map that one comes from, where it comes from one.
    pub(crate) leads: Vec<Option<u32>>,
    /// The sources before this one were asked for.
    pub(crate) asked: u32,
    /// At place `s` the map of source `s`, where it has one.
    pub(crate) maps: Vec<Option<Box<SharedMap>>>,
}

impl Model for Inners {
    ghost use Rattle.smap_c.specs.Inners.{Places};
    ghost use Rattle.smap_c.specs.Private.Places.{AreFew, places_seen};

    ghost Value = { Places };

    ghost view = { places_seen };

    ghost invariant = { AreFew };
}

impl Inners {
    /// A place for each of so many sources, without a map. None was asked for.
    pub(crate) fn new(alloc: Global, sources: u32) -> Result<Inners, AllocError>
        ensures { IfOk result (λ inners. inners ≡ no_maps sources) }
    {
        let mut maps = Vec::new(alloc);
        let mut leads = Vec::new(alloc);
        for _ in 0..sources {
            maps.push(None)?;
            leads.push(None)?;
        }
        Ok(Inners {
            whole: None,
            leads,
            asked: 0,
            maps,
        })
    }

    /// The map whose sources these are the places of.
    pub(crate) fn whole_of<'a>(&'a self, outer: &'a MapFile) -> &'a MapFile
        ensures { result.now ≡ whole_of outer.now self.now }
    {
        match &self.whole {
            Some(whole) => whole.map(),
            None => outer,
        }
    }

    /// For how many sources there is a place.
    pub(crate) fn places(&self) -> u32
        ensures { result ≡ length self.now.maps }
    {
        self.maps.len() as u32
    }

    /// Whether this source has a place, and no map.
    pub(crate) fn is_free(&self, source: u32) -> bool
        ensures { result ≡ is_free self.now.maps source }
    {
        matches!(self.maps.get(source as usize), Some(None))
    }

    /// Puts the map of this source in its place.
    pub(crate) fn put(&mut self, source: u32, map: Box<SharedMap>)
        requires { IsTrue (is_free self.old.maps source) }
        ensures { self.new ≡ record self.old {
          maps = slice_set self.old.maps source (Some map.value);
        } }
    {
        self.maps[source as usize] = Some(map);
    }

    /// Whether this source has a map.
    pub(crate) fn has_map(&self, source: u32) -> bool
        ensures { result ≡ is_some (map_at self.now.maps source) }
    {
        matches!(self.maps.get(source as usize), Some(Some(_)))
    }

    /// Takes the map of this source, which has one, out of its place.
    pub(crate) fn take(&mut self, source: u32) -> Option<Box<SharedMap>>
        requires { IsSome (map_at self.old.maps source) }
        ensures map { option_map (λ map. map.value) result ≡ map_at self.old.maps source }
        ensures left { self.new ≡ record self.old { maps = slice_set self.old.maps source None } }
    {
        self.maps[source as usize].take()
    }

    /// The maps, as they are composed.
    pub(crate) fn maps(&self, alloc: Global) -> Result<Vec<Option<&MapFile>>, AllocError>
        ensures { IfOk result (λ maps. stated_inners maps.items ≡ stated_maps self.now.maps) }
    {
        let mut maps = Vec::with_capacity(alloc, self.maps.len())?;
        for place in &self.maps {
            maps.push(match place {
                Some(map) => Some(map.map()),
                None => None,
            })?;
        }
        Ok(maps)
    }
}
