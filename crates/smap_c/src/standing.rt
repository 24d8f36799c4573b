//! Maps whose files stand at a path.
ghost use Rattle.std.specs.Prelude.{◌≡◌, ◌≢◌, ◌⊎◌, ◌<◌, ◌≤◌, IfSome, IsSome, option_map};
ghost use Rattle.smap_codes.specs.declared.code.Code.TheVariants as codes;
ghost use Rattle.smap_record.specs.NamedSources.{bytes_beside, map_beside};
ghost use Rattle.smap_c.specs.Refusal.{coded};

use crate::handles::{Holder, MapHandle};
use crate::refusal::{Refusal, coded};
use crate::status::{DONE, NO_MEMORY, REFUSED};
use smap_codes::Code;
use smap_record::MapRefusal;
use std::alloc::Global;

/// Names the sources of a map by the path at which its file stands: each whose name is kept as it stands in the map, and a
/// path, gets the one that goes on from the folder of the file. All names together may be made of at most so many bytes:
/// each of those of the path and its own (M18). A map that something else holds, too, is refused (`refused`).
#[unsafe(no_mangle)]
pub extern "C" fn smap_map_stand_at(
    alloc: Global,
    map: &mut MapHandle,
    path: &[u8],
    most_names: u64,
    refusal: &mut Refusal,
) -> u32
    requires { IsSome map.old.held }
    ensures named { result ≡ 0 → map.new.held ≡ option_map (map_beside path.now) map.old.held }
    ensures enough { result ≡ 0 → IfSome map.old.held (λ held.
        bytes_beside path.now held.stated ≤ most_names) }
    ensures refused { result ≡ 1 → (refusal.new ≡ coded codes.Refused)
        ⊎ ((refusal.new ≡ coded codes.M18) × IfSome map.old.held (λ held.
        most_names < bytes_beside path.now held.stated)) }
    ensures stays { result ≢ 0 → map.new.held ≡ map.old.held }
    ensures unreported { result ≢ 1 → refusal.new ≡ refusal.old }
    ensures status { (result ≡ 0) ⊎ (result ≡ 1) ⊎ (result ≡ 3) }
{
    let Some(only) = map.lend().only() else {
        *refusal = coded(Code::Refused);
        return REFUSED;
    };
    match only.name_sources_beside(alloc, path, most_names) {
        Ok(()) => DONE,
        Err(MapRefusal::LongNames) => {
            *refusal = coded(Code::M18);
            REFUSED
        }
        Err(_no_memory) => NO_MEMORY,
    }
}
