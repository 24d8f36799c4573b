//! How much of a generated file each source makes.
ghost use Rattle.std.specs.Prelude.{◌≡◌, ◌≢◌, ◌⊎◌, ℕ, IfSome, IsSome, length};
ghost use Rattle.smap_index.specs.Parts.{joined};
ghost use Rattle.smap_fit.specs.Shares.{IsBytesBySource};
ghost use Rattle.smap_c.specs.Shares.{IsTextRefused};

use crate::codes::code_number;
use crate::handles::{Holder, MapHandle};
use crate::status::{DONE, NO_MEMORY, REFUSED};
use smap_codes::Code;
use smap_fit::bytes_by_source;
use smap_record::MOST_FILE_BYTES;
use std::alloc::Global;

/// Counts how many bytes of the generated file of a map come from each source, and how many from none. `sources` has a place
/// for each source of the map. Where the file is refused, `refusal` is the number of `NotUtf8`, or of M1, it has more than
/// 67,108,864 bytes.
#[unsafe(no_mangle)]
pub extern "C" fn smap_bytes_by_source(
    alloc: Global,
    map: &mut MapHandle,
    generated: &[u8],
    sources: &mut [u64],
    unmapped: &mut u64,
    refusal: &mut u32,
) -> u32
    requires held { IsSome map.old.held }
    requires places { IfSome map.old.held (λ held.
        length sources.old ≡ length held.stated.sources) }
    ensures counts { IfSome map.old.held (λ held. result ≡ 0 →
        IsBytesBySource (length held.stated.sources) (joined held.stated.parts) generated.now
        sources.new unmapped.new) }
    ensures refused { result ≡ 1 → IsTextRefused generated.now refusal.new }
    ensures sound { (number : ℕ) → IsTextRefused generated.now number → result ≡ 1 }
    ensures unreported { result ≢ 1 → refusal.new ≡ refusal.old }
    ensures stays { (map.new.held ≡ map.old.held)
        × (result ≢ 0 → (sources.new ≡ sources.old) × (unmapped.new ≡ unmapped.old)) }
    ensures status { (result ≡ 0) ⊎ (result ≡ 1) ⊎ (result ≡ 3) }
{
    if generated.len() > MOST_FILE_BYTES {
        *refusal = code_number(Code::M1);
        return REFUSED;
    }
    let Ok(text) = str::from_utf8(generated) else {
        *refusal = code_number(Code::NotUtf8);
        return REFUSED;
    };
    let Ok(counted) = bytes_by_source(alloc, map.lend().map(), text) else {
        return NO_MEMORY;
    };
    sources.copy_from_slice(&counted.sources);
    *unmapped = counted.unmapped;
    DONE
}
