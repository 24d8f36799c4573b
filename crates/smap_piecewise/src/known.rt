//! What is known of the maps of URLs.
ghost use Rattle.std.specs.Prelude.{◌≡◌, ℕ, IfSome, List, Option, Some, is_some, option_map, true};
ghost use Rattle.smap_declarations.specs.Declarations.{Named};
ghost use Rattle.smap_record.specs.Record.{MapRecord};

use smap_declarations::Declarations;
use smap_record::ReadyMap;
use smap_trace::TableMaps;

/// The map of a URL, and the declarations of its program, where these are known.
#[derive(Clone, Copy)]
pub struct NamedMap<'m> {
    pub map: &'m ReadyMap,
    pub declared: Option<&'m Declarations>,
}

/// What knows the maps of some URLs, and of some that they have none; and of some the declarations of their programs.
pub trait KnownMaps {
    // Of each URL what its map states, or that it has none; or that this is not known.
    ghost known: { Self → (url : List ℕ) → Option (Option MapRecord) };

    // Of each the declarations of its program, where these are known.
    ghost declared: { Self → (url : List ℕ) → Option (List Named) };

    // What else asking leaves as it is.
    ghost Still: { Type 0 };

    ghost still: { Self → Still };

    /// Whether it is known what map a URL has, or that it has none. What is known stays.
    fn ask(&mut self, url: &[u8]) -> bool
        ensures known { result ≡ is_some (known self.old url.now) }
        ensures same { known self.new ≡ known self.old }
        ensures same_declared { declared self.new ≡ declared self.old }
        ensures still { still self.new ≡ still self.old };

    /// The map of a URL of which this is known, where it has one, with the declarations of its program. The call takes no
    /// memory.
    fn named_for(&self, url: &[u8]) -> Option<NamedMap<'_>>
        requires { is_some (known self.now url.now) ≡ true }
        ensures map { Some (option_map (λ named. named.map.now.stated) result)
            ≡ known self.now url.now }
        ensures declared { IfSome result (λ named.
            option_map (λ declared. declared.now) named.declared ≡ declared self.now url.now) };
}

/// Those of a table, which are all that there are.
impl KnownMaps for TableMaps<'_> {
    ghost use Rattle.std.specs.Prelude.{ℕ, List, None, Some};
    ghost use Rattle.smap_locations.specs.ByText.{value_under};
    ghost use Rattle.smap_record.specs.Record.{MapRecord};

    ghost known = { λ maps url. Some (value_under url maps.0.now) };

    ghost declared = { λ maps url. None };

    ghost Still = { List (List ℕ × MapRecord) };

    ghost still = { λ maps. maps.0.now };

    fn ask(&mut self, _url: &[u8]) -> bool {
        true
    }

    fn named_for(&self, url: &[u8]) -> Option<NamedMap<'_>> {
        let map = self.0.map_for(url)?;
        Some(NamedMap {
            map,
            declared: None,
        })
    }
}
