//! What is said at the end, of names, of maps that were compared, and of URLs.
ghost use Rattle.std.specs.Prelude.{option_copied};
ghost use Rattle.smap_text_answers.specs.Told.{TellsLines, told_seen};
ghost use Rattle.smap_text_answers.specs.Request.{request_seen};
ghost use Rattle.smap_text_answers.specs.RewriteFrom.{SaysUrls};
ghost use Rattle.smap_trace.specs.NotesSeen.{notes_seen};

use crate::storing::StoreEnd;
use crate::text_over_store::TextRun;
use crate::told::{ToldLines, tell_lines};
use crate::url_lines::tell_urls;
use smap_anywhere::PlaceNotes;
use smap_io::ByteSink;
use smap_replies::{DONE, FileReader};
use smap_trace::RewriteCounts;
use std::alloc::Global;

/// Says what was told, of names or of maps that were not compared, where the text was rewritten to its end, and gives the
/// status of that.
pub fn say_told<C, E: ByteSink>(
    alloc: Global,
    end: &StoreEnd<C>,
    told: &ToldLines,
    errors: &mut E,
) -> u8
    ensures { TellsLines (told_seen told.now) end.now.result result (E.seen errors.old)
        (E.seen errors.new) }
{
    match &end.result {
        Ok(_) => tell_lines(alloc, told, errors),
        Err(_) => DONE,
    }
}

/// Says what became of the URLs that were noted, where that is asked, and gives the status of that.
pub fn say_urls<F: FileReader, E: ByteSink>(
    run: &TextRun<'_, '_, '_, F>,
    end: &StoreEnd<RewriteCounts>,
    notes: &PlaceNotes,
    errors: &mut E,
) -> u8
    ensures { SaysUrls (F.gives run.now.request.now.maps.now.files.now)
        (option_copied run.now.request.now.maps.now.base) run.now.request.now.maps.now.interval
        (request_seen run.now.request.now) run.now.sources.now end.now
        (notes_seen notes.now.named) (notes_seen notes.now.others) result
        (E.seen errors.old) (E.seen errors.new) }
{
    if !run.request.options.explain {
        return DONE;
    }
    match end.result {
        Ok(counts) => tell_urls(run, notes, &counts, errors),
        Err(_) => DONE,
    }
}
