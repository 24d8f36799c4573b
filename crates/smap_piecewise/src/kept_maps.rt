//! The maps that are kept of URLs, as they are known at a time.
ghost use Rattle.std.specs.Prelude.{◌≡◌, option_map};

use crate::known::{KnownMaps, NamedMap};
use smap_kept::{Kept, KeptAnswer};
use smap_record::SharedMap;
use smap_store::SharedDeclarations;

/// A map, and the declarations of its program, where they came with it.
#[derive(Drop)]
pub struct KeptMap {
    pub map: SharedMap,
    pub declared: Option<SharedDeclarations>,
}

impl KeptMap {
    /// Both, lent.
    pub fn named(&self) -> NamedMap<'_>
        ensures map { result.map.now ≡ self.now.map }
        ensures declared { option_map (λ declared. declared.now) result.declared
            ≡ self.now.declared }
    {
        NamedMap {
            map: self.map.ready(),
            declared: match &self.declared {
                Some(declared) => Some(declared.get()),
                None => None,
            },
        }
    }
}

/// The maps that are kept of URLs, and the time at which they are asked for.
#[derive(Drop)]
pub struct KeptMaps {
    pub kept: Kept<KeptMap>,
    pub now: u64,
}

/// What is known of a URL is what is kept of it. Asking changes the order of use and the counts, and nothing else.
impl KnownMaps for KeptMaps {
    ghost use Rattle.std.specs.Prelude.{ℕ};
    ghost use Rattle.smap_piecewise.specs.KeptMaps.{Holding, declared_in, holding_of, known_in};
    ghost use Rattle.smap_piecewise.specs.declared.kept_maps.KeptMap.{KeptMap};

    ghost known = { λ maps. known_in maps.now maps.kept };

    ghost declared = { λ maps. declared_in maps.now maps.kept };

    ghost Still = { Holding KeptMap × ℕ };

    ghost still = { λ maps. (holding_of maps.kept, maps.now) };

    fn ask(&mut self, url: &[u8]) -> bool {
        match self.kept.ask(url, self.now) {
            KeptAnswer::Known(()) | KeptAnswer::NoneKnown(_) => true,
            KeptAnswer::Wanted => false,
        }
    }

    fn named_for(&self, url: &[u8]) -> Option<NamedMap<'_>> {
        match self.kept.peek(url, self.now) {
            KeptAnswer::Known(kept) => Some(kept.named()),
            KeptAnswer::NoneKnown(_) | KeptAnswer::Wanted => None,
        }
    }
}
