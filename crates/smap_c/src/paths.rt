//! Sources of maps that are named by paths.
ghost use Rattle.std.specs.Prelude.{◌≡◌, ◌≢◌, ◌⊎◌, IsSome, option_map};
ghost use Rattle.smap_record.specs.NamedSources.{map_by_path};
ghost use Rattle.smap_c.specs.Asking.{path_status};

use crate::handles::{Holder, MapHandle};
use crate::status::{DONE, NO_MEMORY, REFUSED};
use smap_resolve::is_path;
use std::alloc::Global;

/// Whether a URL is a path from a root, by which `smap_map_use_paths` names sources: 0 where it is, and else 1.
#[unsafe(no_mangle)]
pub extern "C" fn smap_is_path(url: &[u8]) -> u32
    ensures { result ≡ path_status url.now }
{
    if is_path(url) { DONE } else { REFUSED }
}

/// Names the sources of a map by the URL at which it stands, where that is a path from a root: each whose name is kept as it
/// stands in the map, and a relative path, gets the one that goes on from the folder of the URL. A map that something else
/// holds, too, is refused: what another holds never changes.
#[unsafe(no_mangle)]
pub extern "C" fn smap_map_use_paths(alloc: Global, map: &mut MapHandle, url: &[u8]) -> u32
    requires { IsSome map.old.held }
    ensures named { result ≡ 0 → map.new.held ≡ option_map (map_by_path url.now) map.old.held }
    ensures stays { result ≢ 0 → map.new.held ≡ map.old.held }
    ensures status { (result ≡ 0) ⊎ (result ≡ 1) ⊎ (result ≡ 3) }
{
    let Some(only) = map.lend().only() else {
        return REFUSED;
    };
    match only.name_sources_by_path(alloc, url) {
        Ok(()) => DONE,
        Err(_no_memory) => NO_MEMORY,
    }
}
