//! A trace in memory, and its rewriting.
ghost use Rattle.std.specs.Prelude.{◌≡◌, ◌≢◌, ◌<◌, ◌≤◌, ◌⊎◌, Some, false, true, IfErr, IfOk, IfSome, IsSome, length, nat_lt};
ghost use Rattle.smap_codes.specs.declared.code.Code.TheVariants.{X3};
ghost use Rattle.smap_lines.specs.Limits.{most_text_bytes};
ghost use Rattle.smap_lines.specs.declared.fault.LineFault.TheVariants.{TooMuch};
ghost use Rattle.smap_store.specs.UrlTable.{named_by_url};
ghost use Rattle.smap_trace.specs.Hiding.{only_ignored};
ghost use Rattle.smap_trace.specs.MapsOf.{counts_named, rewritten_named};
ghost use Rattle.smap_trace.specs.Rewriting.{counts_seen as summary_seen};
ghost use Rattle.smap_c.specs.Trace.{IsRefusedFor, counts_seen, counts_with, frames_alone, has_map_of_all, is_for_all, line_ends};
ghost use Rattle.smap_c.specs.Trace.{most_output_bytes, place_counts_by, placed_by, places_alone, rewrite_refused, text_read, text_with};

use crate::codes::code_number;
use crate::devices::Output;
use crate::handles::{BytesHandle, Holder, TableHandle};
use crate::rewriting::rewrite_text;
use crate::status::{DONE, NO_MEMORY, REFUSED};
use crate::written::hand_out;
use memchr::memchr_iter;
use smap_codes::Code;
use smap_store::UrlTable;
use smap_trace::{RewriteFault, Summary};
use std::alloc::Global;

/// How many bytes come out where nothing else is asked for: 1 GiB.
const MOST_OUTPUT_BYTES: u64 = 1073741824;

/// What was in a trace that was rewritten, or in a text whose places were.
#[repr(C)]
#[derive(Clone, Copy)]
pub struct TraceCounts {
    pub lines: u64,
    /// How many of them were frames or, of a text, how many places it had.
    pub frames: u64,
    /// How many frames or places were replaced.
    pub mapped: u64,
    /// How many frames were hidden.
    pub hidden: u64,
}

/// Why a text is not rewritten: the number of X3 where it has too many bytes, that of X5 where too many would come out,
/// and that of `usage` where places are asked for anywhere and a map is under `*` alone.
#[repr(C)]
#[derive(Clone, Copy)]
pub struct RewriteRefusal {
    pub code: u32,
    /// Of X5, how many LFs stand in what would come out as far as it fits.
    pub lines: u64,
}

/// How a text is rewritten.
#[repr(C)]
#[derive(Clone, Copy)]
pub struct RewriteOptions {
    /// Whether the lines of frames are dropped whose original is in an ignored source.
    pub hide_ignored: bool,
    /// Whether places are rewritten wherever they stand, in place of frames. Then no line is dropped.
    pub anywhere: bool,
    /// Whether the text is read without the control sequences by which a terminal is told of colours and the like (ECMA-48).
    pub strip_ansi: bool,
    /// Whether a frame whose URL is not in the table has the map under it without its query and its fragment, before those
    /// of patterns.
    pub cut: bool,
}

/// Rewrites a trace: a frame whose URL has a map in the table and whose place has an original gets it in its place, and
/// every other byte stays, save the name of its function, where the names of the map's program give the one that was
/// written. With `hide_ignored` the lines of frames whose original is in an ignored source are dropped. A trace of more than
/// 1,073,741,824 bytes is refused, and one of which more would come out. `bytes` and `counts` are written where the trace
/// was rewritten.
#[unsafe(no_mangle)]
pub extern "C" fn smap_rewrite(
    alloc: Global,
    table: &mut TableHandle,
    trace: &[u8],
    hide_ignored: bool,
    bytes: &mut BytesHandle,
    counts: &mut TraceCounts,
) -> u32
    requires { IsSome table.old.held }
    ensures text { IfSome table.old.held (λ maps.
        result ≡ 0 → bytes.new.held
        ≡ Some (rewritten_named (named_by_url false maps) (only_ignored hide_ignored) trace.now)) }
    ensures counts { IfSome table.old.held (λ maps.
        result ≡ 0 → counts_seen counts.new
        ≡ counts_named (named_by_url false maps) (only_ignored hide_ignored) trace.now) }
    ensures refused { IfSome table.old.held (λ maps. result ≡ 1 → (refusal : RewriteRefusal)
        × IsRefusedFor (frames_alone hide_ignored) maps trace.now most_output_bytes refusal) }
    ensures fits { IfSome table.old.held (λ maps. result ≡ 0 → (length trace.now ≤ most_text_bytes)
        × (length (rewritten_named (named_by_url false maps) (only_ignored hide_ignored) trace.now)
        ≤ most_output_bytes)) }
    ensures stays { (table.new.held ≡ table.old.held)
        × (result ≢ 0 → (bytes.new.held ≡ bytes.old.held) × (counts.new ≡ counts.old)) }
    ensures status { (result ≡ 0) ⊎ (result ≡ 1) ⊎ (result ≡ 3) }
{
    let options = RewriteOptions {
        hide_ignored,
        anywhere: false,
        strip_ansi: false,
        cut: false,
    };
    smap_rewrite_with(alloc, table, trace, &options, bytes, counts)
}

/// Rewrites a text: a place `URL:line:column`, wherever it stands in a line, whose URL has a map in the table and which has
/// an original gets it in its stead, and every other byte stays, save the name of the function of its frame, as in a trace.
/// A text of more than 1,073,741,824 bytes is refused, one of which more would come out, and any where the table has a map
/// under `*` alone. `bytes` and `counts`, which has places in place of frames, are written where the text was rewritten.
#[unsafe(no_mangle)]
pub extern "C" fn smap_rewrite_anywhere(
    alloc: Global,
    table: &mut TableHandle,
    text: &[u8],
    bytes: &mut BytesHandle,
    counts: &mut TraceCounts,
) -> u32
    requires { IsSome table.old.held }
    ensures text { IfSome table.old.held (λ maps.
        result ≡ 0 → bytes.new.held ≡ Some (placed_by maps text.now)) }
    ensures counts { IfSome table.old.held (λ maps.
        result ≡ 0 → counts_seen counts.new ≡ place_counts_by maps text.now) }
    ensures refused { IfSome table.old.held (λ maps. result ≡ 1 → (refusal : RewriteRefusal)
        × IsRefusedFor places_alone maps text.now most_output_bytes refusal) }
    ensures sound { IfSome table.old.held (λ maps. has_map_of_all maps ≡ true → result ≡ 1) }
    ensures fits { IfSome table.old.held (λ maps. result ≡ 0 → (length text.now ≤ most_text_bytes)
        × (length (placed_by maps text.now) ≤ most_output_bytes)) }
    ensures stays { (table.new.held ≡ table.old.held)
        × (result ≢ 0 → (bytes.new.held ≡ bytes.old.held) × (counts.new ≡ counts.old)) }
    ensures status { (result ≡ 0) ⊎ (result ≡ 1) ⊎ (result ≡ 3) }
{
    let options = RewriteOptions {
        hide_ignored: false,
        anywhere: true,
        strip_ansi: false,
        cut: false,
    };
    smap_rewrite_with(alloc, table, text, &options, bytes, counts)
}

/// Rewrites a text as `smap_rewrite` does or, with `anywhere`, as `smap_rewrite_anywhere`. With `strip_ansi` it is read
/// without its control sequences, and no more than 1,073,741,824 bytes may be left of it; with `cut` a frame whose URL is
/// not in the table has the map under it without its query and its fragment.
#[unsafe(no_mangle)]
pub extern "C" fn smap_rewrite_with(
    alloc: Global,
    table: &mut TableHandle,
    text: &[u8],
    options: &RewriteOptions,
    bytes: &mut BytesHandle,
    counts: &mut TraceCounts,
) -> u32
    requires { IsSome table.old.held }
    ensures text { IfSome table.old.held (λ maps.
        result ≡ 0 → bytes.new.held ≡ Some (text_with options.now maps text.now)) }
    ensures counts { IfSome table.old.held (λ maps.
        result ≡ 0 → counts_seen counts.new ≡ counts_with options.now maps text.now) }
    ensures refused { IfSome table.old.held (λ maps. result ≡ 1 → (refusal : RewriteRefusal)
        × IsRefusedFor options.now maps text.now most_output_bytes refusal) }
    ensures sound { IfSome table.old.held (λ maps.
        is_for_all options.now maps ≡ true → result ≡ 1) }
    ensures fits { IfSome table.old.held (λ maps. result ≡ 0 →
        (length (text_read options.now text.now) ≤ most_text_bytes)
        × (length (text_with options.now maps text.now) ≤ most_output_bytes)) }
    ensures stays { (table.new.held ≡ table.old.held)
        × (result ≢ 0 → (bytes.new.held ≡ bytes.old.held) × (counts.new ≡ counts.old)) }
    ensures status { (result ≡ 0) ⊎ (result ≡ 1) ⊎ (result ≡ 3) }
{
    let mut refusal = refused(Code::Usage, 0);
    smap_rewrite_within(
        alloc,
        table,
        text,
        options,
        MOST_OUTPUT_BYTES,
        bytes,
        counts,
        &mut refusal,
    )
}

/// The same, where at most `most` bytes may come out. Where more would, it ends with the first that does not fit, nothing is
/// handed out, and `refusal` says how far it came.
#[unsafe(no_mangle)]
pub extern "C" fn smap_rewrite_within(
    alloc: Global,
    table: &mut TableHandle,
    text: &[u8],
    options: &RewriteOptions,
    most: u64,
    bytes: &mut BytesHandle,
    counts: &mut TraceCounts,
    refusal: &mut RewriteRefusal,
) -> u32
    requires { IsSome table.old.held }
    ensures text { IfSome table.old.held (λ maps.
        result ≡ 0 → bytes.new.held ≡ Some (text_with options.now maps text.now)) }
    ensures counts { IfSome table.old.held (λ maps.
        result ≡ 0 → counts_seen counts.new ≡ counts_with options.now maps text.now) }
    ensures refused { IfSome table.old.held (λ maps. result ≡ 1 →
        IsRefusedFor options.now maps text.now most refusal.new) }
    ensures sound { IfSome table.old.held (λ maps.
        is_for_all options.now maps ≡ true → result ≡ 1) }
    ensures fits { IfSome table.old.held (λ maps. result ≡ 0 →
        (length (text_read options.now text.now) ≤ most_text_bytes)
        × (length (text_with options.now maps text.now) ≤ most)) }
    ensures stays { (table.new.held ≡ table.old.held)
        × (result ≢ 0 → (bytes.new.held ≡ bytes.old.held) × (counts.new ≡ counts.old)) }
    ensures unreported { result ≢ 1 → refusal.new ≡ refusal.old }
    ensures status { (result ≡ 0) ⊎ (result ≡ 1) ⊎ (result ≡ 3) }
{
    let maps = table.lend();
    if is_for_all(options, maps) {
        *refusal = refused(Code::Usage, 0);
        return REFUSED;
    }
    let mut output = Output::new(alloc, most);
    let outcome = rewrite_text(alloc, maps, text, options, &mut output);
    let written = output.bytes;
    if written.len() as u64 > most {
        *refusal = refused(Code::X5, line_ends(&written[..most as usize]));
        return REFUSED;
    }
    reported(alloc, outcome, written, bytes, counts, refusal)
}

// Whether places are asked for anywhere over a map of all URLs.
fn is_for_all(options: &RewriteOptions, table: &UrlTable) -> bool
    ensures { result ≡ is_for_all options.now table.now }
{
    options.anywhere && table.has_map_of_all()
}

// Hands out what was written and says what was counted, where a text was rewritten; and its status.
fn reported(
    alloc: Global,
    outcome: Result<Summary, RewriteFault>,
    written: Vec<u8>,
    bytes: &mut BytesHandle,
    counts: &mut TraceCounts,
    refusal: &mut RewriteRefusal,
) -> u32
    ensures done { IfOk outcome (λ summary. result ≡ 0 → (bytes.new.held ≡ Some written.items)
        × (counts_seen counts.new ≡ summary_seen summary)) }
    ensures refused { IfOk outcome (λ summary. (result ≡ 0) ⊎ (result ≡ 3)) }
    ensures failed { IfErr outcome (λ fault. ((result ≡ 1) × (fault ≡ TooMuch)
        × (refusal.new ≡ rewrite_refused X3 0)) ⊎ (result ≡ 3)) }
    ensures unreported { result ≢ 1 → refusal.new ≡ refusal.old }
    ensures stays { result ≢ 0 → (bytes.new.held ≡ bytes.old.held) × (counts.new ≡ counts.old) }
{
    match outcome {
        Ok(summary) => {
            let status = hand_out(alloc, written, bytes);
            if status == DONE {
                *counts = counted(summary);
            }
            status
        }
        Err(RewriteFault::TooMuch) => {
            *refusal = refused(Code::X3, 0);
            REFUSED
        }
        // No read fails here, and a write within the bound fails where memory runs out.
        Err(RewriteFault::Read | RewriteFault::Write | RewriteFault::Memory) => NO_MEMORY,
    }
}

/// A refusal of this code, with so many lines.
pub(crate) fn refused(code: Code, lines: u64) -> RewriteRefusal
    ensures { result ≡ rewrite_refused code lines }
{
    RewriteRefusal {
        code: code_number(code),
        lines,
    }
}

// How many LFs stand in a text.
fn line_ends(text: &[u8]) -> u64
    ensures { result ≡ line_ends text.now }
{
    memchr_iter(b'\n', text).count() as u64
}

/// What was counted, as C has it.
pub(crate) fn counted(summary: Summary) -> TraceCounts
    ensures { counts_seen result ≡ summary_seen summary }
{
    TraceCounts {
        lines: summary.lines,
        frames: summary.frames,
        mapped: summary.mapped,
        hidden: summary.hidden,
    }
}
