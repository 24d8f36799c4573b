//! A text in memory, rewritten by its frames or its places.
ghost use Rattle.std.specs.Prelude.{◌≡◌, [], true, false, IfSome};
ghost use Rattle.smap_c.specs.Trace.{text_read};
ghost use Rattle.smap_c.specs.Private.Rewriting.{EndsRewriting};

use crate::devices::{Input, Output};
use crate::trace::RewriteOptions;
use smap_anywhere::{MapUrls, PlaceNotes, PlaceOptions, rewrite_anywhere};
use smap_io::{ByteSource, WithoutSequences};
use smap_lines::MOST_TEXT_BYTES;
use smap_store::{UrlMaps, UrlTable};
use smap_trace::{
    Beside, Hiding, NoPlaces, RewriteFault, Summary, TraceOptions as FrameOptions, UrlNotes,
    rewrite_over,
};
use std::alloc::Global;

/// Rewrites a text, or what is left of it without its control sequences, into an output that has nothing yet.
pub fn rewrite_text(
    alloc: Global,
    table: &UrlTable,
    text: &[u8],
    options: &RewriteOptions,
    output: &mut Output,
) -> Result<Summary, RewriteFault>
    requires empty { (output.old.bytes.items ≡ []) × (output.old.failed ≡ false) }
    ensures { EndsRewriting options.now table.now (text_read options.now text.now)
        output.new.bytes.items result }
{
    let mut input = Input { left: text };
    if options.strip_ansi {
        let mut stripped = WithoutSequences::new(input);
        rewrite_read(alloc, table, &mut stripped, options, output)
    } else {
        rewrite_read(alloc, table, &mut input, options, output)
    }
}

// Rewrites what an input has left, into an output that has nothing yet.
fn rewrite_read<R: ByteSource>(
    alloc: Global,
    table: &UrlTable,
    input: &mut R,
    options: &RewriteOptions,
    output: &mut Output,
) -> Result<Summary, RewriteFault>
    requires works { (R.seen input.old).failed ≡ false }
    requires empty { (output.old.bytes.items ≡ []) × (output.old.failed ≡ false) }
    ensures { IfSome (R.seen input.old).left (λ read.
        EndsRewriting options.now table.now read output.new.bytes.items result) }
{
    if options.anywhere {
        rewrite_places(alloc, table, input, options, output)
    } else {
        rewrite_frames(alloc, table, input, options, output)
    }
}

// The same by its places anywhere.
fn rewrite_places<R: ByteSource>(
    alloc: Global,
    table: &UrlTable,
    input: &mut R,
    options: &RewriteOptions,
    output: &mut Output,
) -> Result<Summary, RewriteFault>
    requires anywhere { options.now.anywhere ≡ true }
    requires works { (R.seen input.old).failed ≡ false }
    requires empty { (output.old.bytes.items ≡ []) × (output.old.failed ≡ false) }
    ensures { IfSome (R.seen input.old).left (λ read.
        EndsRewriting options.now table.now read output.new.bytes.items result) }
{
    let Ok(urls) = MapUrls::new(alloc, table.exact(), table.locations()) else {
        return Err(RewriteFault::Memory);
    };
    let mut maps = UrlMaps { table, cut: true };
    let options = PlaceOptions {
        known: &urls,
        most_bytes: MOST_TEXT_BYTES,
        is_noted: false,
    };
    let mut notes = PlaceNotes::new(alloc);
    rewrite_anywhere(alloc, input, output, &mut maps, &options, &mut notes)
}

// The same by its frames.
fn rewrite_frames<R: ByteSource>(
    alloc: Global,
    table: &UrlTable,
    input: &mut R,
    options: &RewriteOptions,
    output: &mut Output,
) -> Result<Summary, RewriteFault>
    requires frames { options.now.anywhere ≡ false }
    requires works { (R.seen input.old).failed ≡ false }
    requires empty { (output.old.bytes.items ≡ []) × (output.old.failed ≡ false) }
    ensures { IfSome (R.seen input.old).left (λ read.
        EndsRewriting options.now table.now read output.new.bytes.items result) }
{
    let mut maps = UrlMaps {
        table,
        cut: options.cut,
    };
    let hiding = Hiding::only_ignored(options.hide_ignored);
    let by_frames = FrameOptions::of_frames(hiding, MOST_TEXT_BYTES);
    let mut notes = UrlNotes::new(alloc);
    let mut beside = Beside {
        notes: &mut notes,
        places: &mut NoPlaces,
    };
    let counts = rewrite_over(alloc, input, output, &mut maps, &by_frames, &mut beside)?;
    Ok(counts.summary)
}
