//! Rewriting a text over a store of maps.
ghost use Rattle.std.specs.Prelude.{◌≡◌, ◌<◌, ◌^◌, false};
ghost use Rattle.smap_text_answers.specs.Told.{nothing_told, told_seen};
ghost use Rattle.smap_text_answers.specs.Request.{request_seen};
ghost use Rattle.smap_text_answers.specs.RewriteFrom.{EndsText};
ghost use Rattle.smap_text_answers.specs.StoreRun.{store_of};
ghost use Rattle.smap_anywhere.specs.Anywhere.{AreNone};
ghost use Rattle.smap_trace.specs.NotesSeen.{notes_seen};

use crate::anywhere::rewrite_places;
use crate::frames::rewrite_frames;
use crate::loader::FileLoader;
use crate::naming::rewrite_named;
use crate::request::TextRequest;
use crate::sources::MapSources;
use crate::storing::StoreWork;
use crate::told::ToldLines;
use smap_anywhere::PlaceNotes;
use smap_io::{ByteSink, ByteSource};
use smap_replies::FileReader;
use smap_store::{MapCache, MapLoader};
use smap_trace::{RewriteCounts, RewriteFault};
use std::alloc::Global;

/// What is asked, and what a text is rewritten over.
#[derive(Drop)]
pub struct TextRun<'s, 'a, 'r, F: FileReader> {
    pub alloc: Global,
    pub request: &'s TextRequest<'a, 'r, F>,
    pub sources: &'s MapSources,
}

/// Rewriting a text over a store of maps, with the notes of what it names, and what is to be told of names.
#[derive(Drop)]
pub struct Rewriting<'s, 'a, 'r, Q: FileReader> {
    pub alloc: Global,
    pub request: &'s TextRequest<'a, 'r, Q>,
    pub notes: PlaceNotes,
    pub told: ToldLines,
}

impl<Q: FileReader> StoreWork for Rewriting<'_, '_, '_, Q> {
    ghost use Rattle.std.specs.Prelude.{◌≡◌, ◌<◌, ◌^◌};
    ghost use Rattle.smap_anywhere.specs.Anywhere.{AreNone};
    ghost use Rattle.smap_text_answers.specs.Told.{nothing_told, told_seen};
    ghost use Rattle.smap_text_answers.specs.Request.{request_seen};
    ghost use Rattle.smap_text_answers.specs.RewriteFrom.{RewritesText, RewritesTextFront};
    ghost use Rattle.smap_trace.specs.NotesSeen.{notes_seen};

    type Counts = RewriteCounts;

    ghost Ready = { λ work. AreNone work.notes × (told_seen work.told ≡ nothing_told)
        × ((request_seen work.request.now).limit_bytes < 2 ^ 63) };

    ghost Whole = { λ work later sources Finds before after old new counts.
        RewritesText (Q.gives work.request.now.maps.now.files.now) (request_seen work.request.now) sources Finds before after old new counts
        (notes_seen later.notes.named) (notes_seen later.notes.others) (told_seen later.told) };

    ghost Front = { λ work sources.
        RewritesTextFront (Q.gives work.request.now.maps.now.files.now) (request_seen work.request.now) sources };

    fn run<F: FileReader, E: ByteSink, R: ByteSource, W: ByteSink>(
        &mut self,
        sources: &MapSources,
        cache: &mut MapCache,
        loader: &mut FileLoader<'_, '_, '_, F, E>,
        input: &mut R,
        output: &mut W,
    ) -> Result<RewriteCounts, RewriteFault> {
        let run = TextRun {
            alloc: self.alloc,
            request: self.request,
            sources,
        };
        let (notes, told) = (&mut self.notes, &mut self.told);
        rewrite_text(&run, cache, loader, notes, told, input, output)
    }
}

// Rewrites the text over a store of maps: its frames, or its places anywhere. (It is generic in what loads them: the borrow
// checker does not cover a call of `rewrite_over` over a loader that borrows from elsewhere.)
fn rewrite_text<F: FileReader, L: MapLoader, R: ByteSource, W: ByteSink>(
    run: &TextRun<'_, '_, '_, F>,
    cache: &mut MapCache,
    loader: &mut L,
    notes: &mut PlaceNotes,
    told: &mut ToldLines,
    input: &mut R,
    output: &mut W,
) -> Result<RewriteCounts, RewriteFault>
    requires unnoted { AreNone notes.old }
    requires untold { told_seen told.old ≡ nothing_told }
    requires input_works { (R.seen input.old).failed ≡ false }
    requires output_works { (W.seen output.old).failed ≡ false }
    requires limit { (request_seen run.now.request.now).limit_bytes < 2 ^ 63 }
    ensures { EndsText R.seen W.seen (F.gives run.now.request.now.maps.now.files.now)
        L.Loads L.MayLoad (request_seen run.now.request.now)
        run.now.sources.now input.old input.new output.old output.new
        (store_of run.now.sources.now cache.old loader.old)
        (store_of run.now.sources.now cache.new loader.new)
        (notes_seen notes.new.named) (notes_seen notes.new.others)
        (told_seen told.new) result }
{
    if run.request.options.names {
        rewrite_named(run, cache, loader, notes, told, input, output)
    } else if run.request.options.anywhere {
        rewrite_places(run, cache, loader, notes, input, output)
    } else {
        rewrite_frames(run, cache, loader, notes, input, output)
    }
}
