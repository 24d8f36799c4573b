//! Maps that several handles hold.
ghost use Rattle.std.specs.Prelude.{◌≡◌, ◌≢◌, ◌⊎◌, IsSome};

use crate::handles::{Holder, MapHandle};
use crate::status::{DONE, NO_MEMORY};
use std::alloc::Global;

/// Makes another handle of the same map: nothing is copied, and the map is freed with the last that holds it. Each may be
/// used by a thread of its own.
#[unsafe(no_mangle)]
pub extern "C" fn smap_map_share(alloc: Global, map: &mut MapHandle, other: &mut MapHandle) -> u32
    requires { IsSome map.old.held }
    ensures shared { result ≡ 0 → other.new.held ≡ map.old.held }
    ensures stays { (map.new.held ≡ map.old.held)
        × (result ≢ 0 → other.new.held ≡ other.old.held) }
    ensures status { (result ≡ 0) ⊎ (result ≡ 3) }
{
    let Ok(share) = map.lend().share() else {
        return NO_MEMORY;
    };
    match MapHandle::new(alloc, share) {
        Ok(handle) => {
            *other = handle;
            DONE
        }
        Err(_failed) => NO_MEMORY,
    }
}
