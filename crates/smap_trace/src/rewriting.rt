//! Rewriting a trace.
ghost use Rattle.std.specs.Prelude.{◌≡◌, ◌<◌, ◌^◌, false};
ghost use Rattle.smap_lines.specs.RunEnds.{RunEnds};
ghost use Rattle.smap_trace.specs.Beside.{IsSameBeside};
ghost use Rattle.smap_trace.specs.Hiding.{hiding_seen};
ghost use Rattle.smap_trace.specs.Noted.{nothing_noted};
ghost use Rattle.smap_trace.specs.NotesSeen.{notes_seen};
ghost use Rattle.smap_trace.specs.Rewriting.{Looked, Rewrites, RewritesFront, RewritesNamed, RewritesNamedFront, asked_seen};

use crate::beside::Beside;
use crate::frame_rewriter::FrameRewriter;
use crate::hiding::Hiding;
use crate::maps::{Maps, TableMaps};
use crate::options::TraceOptions;
use crate::outcome::{RewriteCounts, RewriteFault, Summary};
use crate::passed::{NoPlaces, PlaceCounter};
use crate::remembered::Remembered;
use crate::table::Table;
use crate::text_note::TextNote;
use crate::url_notes::UrlNotes;
use smap_io::{ByteSink, ByteSource};
use smap_lines::{LineCounts, MOST_TEXT_BYTES, edit_lines};
use std::alloc::Global;

/// Rewrites a trace while it is read: a frame whose URL is in the table and whose place has an original gets it in its
/// place, and every other byte stays. With `hide_ignored` the line of a frame whose original is in a source that the map
/// says to ignore is dropped, with its LF, whatever the source's name. The caller gives devices that have not failed.
/// The output is not flushed.
///
/// What became of each line that was read was written before more is read. The first failure ends it. What was written
/// is then a front of what the bytes that were read become; where a read failed, all of what the whole lines among them
/// become; and where memory ran out, neither device was asked.
pub fn rewrite<R: ByteSource, W: ByteSink>(
    alloc: Global,
    input: &mut R,
    output: &mut W,
    table: &Table,
    hide_ignored: bool,
) -> Result<Summary, RewriteFault>
    requires input_works { (R.seen input.old).failed ≡ false }
    requires output_works { (W.seen output.old).failed ≡ false }
    ensures ends { RunEnds R.seen W.seen input.old input.new output.old output.new
        (λ before after. Rewrites before after table.now hide_ignored)
        (λ before after. RewritesFront before after table.now hide_ignored) result }
{
    let mut maps = TableMaps(table);
    let options = TraceOptions::of_frames(Hiding::only_ignored(hide_ignored), MOST_TEXT_BYTES);
    let mut notes = UrlNotes::new(alloc);
    let mut beside = Beside {
        notes: &mut notes,
        places: &mut NoPlaces,
    };
    let counts = rewrite_over(alloc, input, output, &mut maps, &options, &mut beside)?;
    Ok(counts.summary)
}

/// The same over maps that are looked for when a frame names them, and that may know the written names of functions: with an
/// original a frame gets that of its function, where this is one name. Where that is asked, it is noted what became of the
/// first 100 different URLs that frames name, and what its lines of up to 65,536 bytes are as a text; and the places that
/// are passed over in such lines are counted, as far as a number. The caller gives devices that have not failed, and notes
/// without any. What the counter counts stays the same. The output is not flushed.
pub fn rewrite_over<R: ByteSource, W: ByteSink, M: Maps, P: PlaceCounter>(
    alloc: Global,
    input: &mut R,
    output: &mut W,
    maps: &mut M,
    options: &TraceOptions<'_>,
    beside: &mut Beside<'_, '_, P>,
) -> Result<RewriteCounts, RewriteFault>
    requires input_works { (R.seen input.old).failed ≡ false }
    requires output_works { (W.seen output.old).failed ≡ false }
    requires most { options.now.most < 2 ^ 63 }
    requires unnoted { notes_seen beside.old.notes.now ≡ nothing_noted }
    ensures ends { RunEnds R.seen W.seen input.old input.new output.old output.new
        (λ before after counts. RewritesNamed M.Finds M.found M.names
        (asked_seen (P.count beside.old.places.now) options.now)
        before after maps.old maps.new counts (notes_seen beside.new.notes.now))
        (RewritesNamedFront (M.Gives maps.old) (M.GivesNames maps.old) M.names_any
        (hiding_seen options.now.hiding) options.now.most) result }
    ensures looked { Looked M.Finds maps.old maps.new }
    ensures counter { P.count beside.new.places.now ≡ P.count beside.old.places.now }
    ensures same { IsSameBeside beside.old beside.new }
{
    let mut remembered = Remembered::new(alloc);
    let mut rewriter = FrameRewriter {
        alloc,
        maps,
        remembered: &mut remembered,
        options,
        notes: beside.notes,
        places: beside.places,
        frames: 0,
        mapped: 0,
        hidden: 0,
        passed: 0,
        text: TextNote::none(),
    };
    let LineCounts { lines, long } = edit_lines(alloc, input, output, &mut rewriter, options.most)?;
    let summary = Summary {
        lines,
        frames: rewriter.frames,
        mapped: rewriter.mapped,
        hidden: rewriter.hidden,
    };
    Ok(RewriteCounts {
        summary,
        long,
        passed: rewriter.passed,
        text: rewriter.text,
    })
}
