//! Texts rewritten piece by piece, over the maps of a table and of a store.
ghost use Rattle.std.specs.Prelude.{◌≡◌, ◌≢◌, ◌⊎◌, None, Some, IfOk, IfSome, IsSome, IsSomeAnd, MatchOption, true};
ghost use Rattle.smap_piecewise.specs.KeptMaps.{holding_of};
ghost use Rattle.smap_piecewise.specs.Rewriting.{output_cleared, text_ended, with_allowance, with_bytes};
ghost use Rattle.smap_piecewise.specs.Work.{counts_of, output_of, wanted_url};
ghost use Rattle.smap_piecewise.specs.declared.stop.Stop.TheVariants.{Done, Wanted};
ghost use Rattle.smap_c.specs.Piecewise.{HasRunOver, IsRefused, IsRunRefused, StopsOver, at_time, is_over_all, new_rewriting};
ghost use Rattle.smap_c.specs.Trace.{counts_seen};

use crate::handles::{Holder, RewritingHandle, StoreHandle, TableHandle};
use crate::status::{DONE, NO_MEMORY, REFUSED, WANTED};
use crate::texts::Text;
use crate::trace::{RewriteRefusal, TraceCounts, counted, refused};
use smap_codes::Code;
use smap_piecewise::{GiveFault, HiddenFrames, Rewriting, Stop, TextOptions};
use smap_store::UrlTable;
use std::alloc::{AllocError, Global};

/// How many bytes a text may have at most, whatever bound is given.
const MOST_GIVEN_BYTES: u64 = 9223372036854775807;

/// How a text is rewritten piece by piece.
#[repr(C)]
#[derive(Clone, Copy)]
pub struct RewritingOptions {
    /// Whether the lines of frames are dropped whose original is in an ignored source.
    pub hide_ignored: bool,
    /// Whether places are rewritten wherever they stand, in place of frames. Then no line is dropped.
    pub anywhere: bool,
    /// Whether the text is read without the control sequences by which a terminal is told of colours and the like (ECMA-48).
    pub strip_ansi: bool,
    /// Whether maps are asked for of which nothing is known.
    pub asks: bool,
    /// How many bytes the text has at most.
    pub most: u64,
    /// How many bytes come out at most.
    pub most_output: u64,
}

/// Makes a rewriting of a text of which nothing was given.
#[unsafe(no_mangle)]
pub extern "C" fn smap_rewriting_new(
    alloc: Global,
    options: &RewritingOptions,
    rewriting: &mut RewritingHandle,
) -> u32
    ensures made { result ≡ 0 → rewriting.new.held ≡ Some (new_rewriting options.now) }
    ensures stays { result ≢ 0 → rewriting.new.held ≡ rewriting.old.held }
    ensures status { (result ≡ 0) ⊎ (result ≡ 3) }
{
    let Ok(text) = asked_rewriting(alloc, options) else {
        return NO_MEMORY;
    };
    match RewritingHandle::new(alloc, text) {
        Ok(handle) => {
            *rewriting = handle;
            DONE
        }
        Err(_failed) => NO_MEMORY,
    }
}

// A rewriting of frames or places, as it is asked for.
fn asked_rewriting(alloc: Global, options: &RewritingOptions) -> Result<Rewriting, AllocError>
    ensures { IfOk result (λ text. text ≡ new_rewriting options.now) }
{
    let how = TextOptions {
        strip: options.strip_ansi,
        asks: options.asks,
        most_bytes: options.most.min(MOST_GIVEN_BYTES),
        most_output: options.most_output,
    };
    if options.anywhere {
        return Rewriting::of_places(alloc, how);
    }
    let hidden = HiddenFrames {
        ignored: options.hide_ignored,
        texts: Vec::new(alloc),
    };
    Ok(Rewriting::of_frames(alloc, hidden, how))
}

/// Gives a rewriting the next bytes of its text. They are refused where it was told that the text ends, or where the text
/// would have more bytes than it may.
#[unsafe(no_mangle)]
pub extern "C" fn smap_rewriting_give(rewriting: &mut RewritingHandle, bytes: &[u8]) -> u32
    requires { IsSome rewriting.old.held }
    ensures given { IfSome rewriting.old.held (λ old. result ≡ 0 →
        rewriting.new.held ≡ Some (with_bytes bytes.now old)) }
    ensures refused { IfSome rewriting.old.held (λ old. result ≡ 1 → IsRefused bytes.now old) }
    ensures sound { IfSome rewriting.old.held (λ old. IsRefused bytes.now old → result ≡ 1) }
    ensures stays { result ≢ 0 → rewriting.new.held ≡ rewriting.old.held }
    ensures status { (result ≡ 0) ⊎ (result ≡ 1) ⊎ (result ≡ 3) }
{
    let text = rewriting.lend();
    if text.is_ended() {
        return REFUSED;
    }
    match text.give(bytes) {
        Ok(()) => DONE,
        Err(GiveFault::TooMuch) => REFUSED,
        Err(GiveFault::Memory) => NO_MEMORY,
    }
}

/// Tells a rewriting that its text ends with the bytes that were given.
#[unsafe(no_mangle)]
pub extern "C" fn smap_rewriting_end(rewriting: &mut RewritingHandle) -> u32
    requires { IsSome rewriting.old.held }
    ensures ended { IfSome rewriting.old.held (λ old.
        rewriting.new.held ≡ Some (text_ended old)) }
    ensures status { result ≡ 0 }
{
    rewriting.lend().end();
    DONE
}

/// Goes on over the maps of a table and, behind them, those that a store has at a time. Returns 0 where all is done that can
/// be decided of the bytes that were given, and 2 before a frame or a place of whose URL it is not known what map it has.
/// Where memory runs out, it stands before a line, bytes or a place that are not done. It is refused before what would make
/// more come out than may, with how many whole lines were written; and where places are rewritten and the table has a map
/// under `*` alone. The store counts each look-up that the table does not answer, and answers as before.
#[unsafe(no_mangle)]
pub extern "C" fn smap_rewriting_run(
    alloc: Global,
    rewriting: &mut RewritingHandle,
    table: &mut TableHandle,
    store: &mut StoreHandle,
    now: u64,
    refusal: &mut RewriteRefusal,
) -> u32
    requires rewriting { IsSome rewriting.old.held }
    requires table { IsSome table.old.held }
    requires store { IsSome store.old.held }
    ensures goes { IfSome rewriting.old.held (λ old. IfSome table.old.held (λ maps.
        IfSome store.old.held (λ kept. IsSomeAnd rewriting.new.held
        (HasRunOver maps (at_time now kept) old)))) }
    ensures done { IfSome table.old.held (λ maps. IfSome store.old.held (λ kept. result ≡ 0 →
        IsSomeAnd rewriting.new.held (λ new. StopsOver maps (at_time now kept) new Done))) }
    ensures wanted { IfSome table.old.held (λ maps. IfSome store.old.held (λ kept. result ≡ 2 →
        IsSomeAnd rewriting.new.held (λ new. StopsOver maps (at_time now kept) new Wanted))) }
    ensures refused { IfSome rewriting.old.held (λ old. IfSome table.old.held (λ maps.
        IfSome store.old.held (λ kept. result ≡ 1 → IsSomeAnd rewriting.new.held
        (IsRunRefused maps (at_time now kept) refusal.new old)))) }
    ensures never { IfSome rewriting.old.held (λ old. IfSome table.old.held (λ maps.
        is_over_all maps old ≡ true → result ≡ 1)) }
    ensures unreported { result ≢ 1 → refusal.new ≡ refusal.old }
    ensures stays { IfSome store.old.held (λ kept. IsSomeAnd store.new.held (λ after.
        holding_of after.kept ≡ holding_of kept.kept)) }
    ensures table { table.new.held ≡ table.old.held }
    ensures held { (IsSome rewriting.new.held) × (IsSome store.new.held) }
    ensures status { (result ≡ 0) ⊎ (result ≡ 1) ⊎ (result ≡ 2) ⊎ (result ≡ 3) }
{
    let maps = table.lend();
    let kept = store.lend();
    let text = rewriting.lend();
    kept.now = now;
    if is_over_all(maps, text) {
        *refusal = refused(Code::Usage, 0);
        return REFUSED;
    }
    match text.run_over(alloc, maps, kept) {
        Ok(Stop::Done) => DONE,
        Ok(Stop::Wanted) => WANTED,
        Ok(Stop::Full) => {
            *refusal = refused(Code::X5, text.whole_lines());
            REFUSED
        }
        Err(_no_memory) => NO_MEMORY,
    }
}

/// Lends the URL before which a rewriting stands, where it stopped because it was not known what map that has.
#[unsafe(no_mangle)]
pub extern "C" fn smap_rewriting_url<'a>(
    rewriting: &'a mut RewritingHandle,
    url: &mut Text<'a>,
) -> u32
    requires { IsSome rewriting.old.held }
    ensures { IfSome rewriting.old.held (λ old. MatchOption (wanted_url old.work)
        ((result ≡ 1) × (url.new ≡ url.old))
        (λ wanted. (result ≡ 0) × (url.new.text.now ≡ wanted))) }
{
    match rewriting.lend().wanted_url() {
        Some(wanted) => {
            url.text = wanted;
            DONE
        }
        None => REFUSED,
    }
}

/// Lets so many bytes come out from now on, behind what is written and was not let go of.
#[unsafe(no_mangle)]
pub extern "C" fn smap_rewriting_allow(rewriting: &mut RewritingHandle, most_output: u64) -> u32
    requires { IsSome rewriting.old.held }
    ensures allowed { IfSome rewriting.old.held (λ old.
        rewriting.new.held ≡ Some (with_allowance most_output old)) }
    ensures status { result ≡ 0 }
{
    rewriting.lend().allow(most_output);
    DONE
}

// Whether places are asked for over a map of all URLs.
fn is_over_all(table: &UrlTable, text: &Rewriting) -> bool
    ensures { result ≡ is_over_all table.now text.now }
{
    text.is_of_places() && table.has_map_of_all()
}

/// Lends what is written of the text and was not let go of.
#[unsafe(no_mangle)]
pub extern "C" fn smap_rewriting_text<'a>(
    rewriting: &'a mut RewritingHandle,
    text: &mut Text<'a>,
) -> u32
    requires { IsSome rewriting.old.held }
    ensures text { IfSome rewriting.old.held (λ old. text.new.text.now ≡ output_of old.work) }
    ensures status { result ≡ 0 }
{
    text.text = rewriting.lend().output();
    DONE
}

/// Lets go of what is written of the text.
#[unsafe(no_mangle)]
pub extern "C" fn smap_rewriting_clear(rewriting: &mut RewritingHandle) -> u32
    requires { IsSome rewriting.old.held }
    ensures cleared { IfSome rewriting.old.held (λ old.
        rewriting.new.held ≡ Some (output_cleared old)) }
    ensures status { result ≡ 0 }
{
    rewriting.lend().clear_output();
    DONE
}

/// Says what was in the text as far as it is done.
#[unsafe(no_mangle)]
pub extern "C" fn smap_rewriting_count(
    rewriting: &mut RewritingHandle,
    counts: &mut TraceCounts,
) -> u32
    requires { IsSome rewriting.old.held }
    ensures counts { IfSome rewriting.old.held (λ old.
        counts_seen counts.new ≡ counts_of old.work) }
    ensures stays { rewriting.new.held ≡ rewriting.old.held }
    ensures status { result ≡ 0 }
{
    *counts = counted(rewriting.lend().summary());
    DONE
}

/// Frees a rewriting, and leaves its handle empty.
#[unsafe(no_mangle)]
pub extern "C" fn smap_rewriting_free(alloc: Global, rewriting: &mut RewritingHandle)
    requires { IsSome rewriting.old.held }
    ensures { rewriting.new.held ≡ None }
{
    rewriting.empty(alloc);
}
