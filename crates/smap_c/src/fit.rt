//! Whether a map can be that of a generated file.
ghost use Rattle.std.specs.Prelude.{◌≡◌, ◌≢◌, ◌⊎◌, ℕ, IfSome, IsSome};
ghost use Rattle.smap_index.specs.Parts.{joined};
ghost use Rattle.smap_fit.specs.Fit.{fit_in};
ghost use Rattle.smap_c.specs.Fit.{counts_of_fit};
ghost use Rattle.smap_c.specs.Shares.{IsTextRefused};

use crate::codes::code_number;
use crate::handles::{Holder, MapHandle};
use crate::status::{DONE, NO_MEMORY, REFUSED};
use smap_codes::Code;
use smap_fit::{Fit, fit_of};
use smap_record::MOST_FILE_BYTES;
use std::alloc::Global;

/// How a map fits a generated file.
#[repr(C)]
#[derive(Clone, Copy)]
pub struct FitCounts {
    pub mappings: u64,
    /// Those that stand past the text.
    pub past: u64,
    /// Those that stand inside a word of it.
    pub inside: u64,
    /// Those whose source has content.
    pub compared: u64,
    /// Those of them whose original place is past the content.
    pub outside: u64,
    /// Those of them whose original place shows what the generated place shows.
    pub same: u64,
    /// 1 where the map can be that of the file, and else 0.
    pub fits: u32,
}

/// Says how a map fits a generated file. Where the file is refused, `refusal` is the number of `NotUtf8`, or of M1, it has
/// more than 67,108,864 bytes.
#[unsafe(no_mangle)]
pub extern "C" fn smap_fit(
    alloc: Global,
    map: &mut MapHandle,
    generated: &[u8],
    counts: &mut FitCounts,
    refusal: &mut u32,
) -> u32
    requires held { IsSome map.old.held }
    ensures counts { IfSome map.old.held (λ held. result ≡ 0 → counts.new ≡ counts_of_fit
        (fit_in generated.now held.stated.sources (joined held.stated.parts))) }
    ensures refused { result ≡ 1 → IsTextRefused generated.now refusal.new }
    ensures sound { (number : ℕ) → IsTextRefused generated.now number → result ≡ 1 }
    ensures unreported { result ≢ 1 → refusal.new ≡ refusal.old }
    ensures stays { (map.new.held ≡ map.old.held)
        × (result ≢ 0 → counts.new ≡ counts.old) }
    ensures status { (result ≡ 0) ⊎ (result ≡ 1) ⊎ (result ≡ 3) }
{
    if generated.len() > MOST_FILE_BYTES {
        *refusal = code_number(Code::M1);
        return REFUSED;
    }
    let Ok(text) = str::from_utf8(generated) else {
        *refusal = code_number(Code::NotUtf8);
        return REFUSED;
    };
    let Ok(fit) = fit_of(alloc, map.lend().map(), text) else {
        return NO_MEMORY;
    };
    *counts = counts_of_fit(fit);
    DONE
}

fn counts_of_fit(fit: Fit) -> FitCounts
    ensures { result ≡ counts_of_fit fit }
{
    FitCounts {
        mappings: fit.mappings,
        past: fit.past,
        inside: fit.inside,
        compared: fit.compared,
        outside: fit.outside,
        same: fit.same,
        fits: u32::from(fit.fits()),
    }
}
