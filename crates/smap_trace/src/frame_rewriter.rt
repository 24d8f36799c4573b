//! The frames of a trace, rewritten line by line; what became of them and what the text is, noted where that is asked; and
//! the places that are passed over, counted as far as a number.
ghost use Rattle.std.specs.Prelude.{◌≡◌, ◌++◌, is_some, map, true};
ghost use Rattle.std.specs.List.{concat};
ghost use Rattle.smap_lines.specs.LineOutput.{IsPut};
ghost use Rattle.smap_lines.specs.Lines.{end_in};
ghost use Rattle.smap_trace.specs.FrameSeen.{parts_seen};
ghost use Rattle.smap_trace.specs.FunctionNames.{named, with_head};
ghost use Rattle.smap_trace.specs.Hiding.{hiding_seen};
ghost use Rattle.smap_trace.specs.HeadSeen.{head_seen};
ghost use Rattle.smap_trace.specs.NotesSeen.{naming_seen, notes_seen};
ghost use Rattle.smap_trace.specs.Private.FrameRewriter.{IsNotedIf};
ghost use Rattle.smap_trace.specs.Private.Remembered.{StaysRight, is_right};
ghost use Rattle.smap_trace.specs.Rewritten.{fate_at, line_after, original_in};
ghost use Rattle.smap_trace.specs.SightSeen.{fate_seen, replacement_seen};
ghost use Rattle.smap_trace.specs.UrlNotes.{naming_with};

use crate::frames::frame_of_line;
use crate::function_name::{HeadCut, head_cut};
use crate::hiding::Hiding;
use crate::maps::Maps;
use crate::options::TraceOptions;
use crate::original::Replacement;
use crate::parts::Frame;
use crate::passed::{PlaceCounter, passed_after};
use crate::printed::{MOST_PRINTED_BYTES, print_place};
use crate::remembered::Remembered;
use crate::sight::{Sight, look_at};
use crate::text_note::{TextNote, text_noted};
use crate::url_notes::{Naming, UrlNotes};
use smap_io::{ByteSink, DeviceFault};
use smap_lines::{LineEditor, LineOutput, end_of_line};
use std::alloc::Global;

/// Rewrites the frames among the lines of a trace, counts and notes them, and counts the places that are passed over.
#[derive(Drop)]
pub struct FrameRewriter<'m, 'r, 'o, 'h, 'n, 'p, M: Maps, P: PlaceCounter> {
    pub alloc: Global,
    pub maps: &'m mut M,
    /// What was answered before, over maps that are still found.
    pub remembered: &'r mut Remembered,
    pub options: &'o TraceOptions<'h>,
    pub notes: &'n mut UrlNotes,
    pub places: &'p mut P,
    pub frames: u64,
    pub mapped: u64,
    pub hidden: u64,
    pub passed: u64,
    pub text: TextNote,
}

impl<M: Maps, P: PlaceCounter> LineEditor for FrameRewriter<'_, '_, '_, '_, '_, '_, M, P> {
    ghost use Rattle.smap_trace.specs.Private.FrameRewriter.{RewriterBecomes, RewriterReaches, RewriterSteps, room_of};
    ghost use Rattle.smap_trace.specs.Laws.Rewriter.{became_frame, room_after, same_frame, some_frame};
    ghost use Rattle.smap_trace.specs.Laws.Rewriter.{rewriter_goes_on, rewriter_stays};

    ghost Becomes = { RewriterBecomes M.Gives M.GivesNames M.names_any };

    ghost Steps = { RewriterSteps M.Finds M.found M.names P.count };

    ghost Reaches = { RewriterReaches M.Finds P.count };

    ghost room = { room_of M.found };

    fn edit<W: ByteSink>(
        &mut self,
        line: &[u8],
        is_ended: bool,
        output: &mut LineOutput<'_, W>,
    ) -> Result<(), DeviceFault> {
        let Some(frame) = frame_of_line(line) else {
            output.put_line(line, is_ended)?;
            self.text = text_noted(
                self.options.is_noted,
                self.places,
                self.text,
                line,
                is_ended,
            );
            self.passed = passed_after(self.options, self.places, self.passed, None, false, line);
            return Ok(());
        };
        find_map(self.maps, self.remembered, frame.url);
        let hiding = &self.options.hiding;
        let (has_map, sight, head) = look_named(
            self.alloc,
            self.maps,
            self.remembered,
            hiding,
            &frame,
        );
        put_sight(line, &frame, &head, &sight, is_ended, output)?;
        self.frames += 1;
        self.mapped += u64::from(sight.is_mapped());
        self.hidden += u64::from(sight.is_hidden());
        self.text = text_noted(
            self.options.is_noted,
            self.places,
            self.text,
            line,
            is_ended,
        );
        self.passed = passed_after(
            self.options,
            self.places,
            self.passed,
            Some(frame.url),
            has_map,
            line,
        );
        note_if(self.options.is_noted, self.notes, &frame, has_map, &sight);
        Ok(())
    }

    ghost some = { some_frame M.Gives M.GivesNames M.names_any M.Finds M.found M.names P.count
        M.some M.some_names };

    ghost became = { became_frame M.Gives M.GivesNames M.names_any M.Finds M.found M.names P.count
        M.given M.given_names M.unnamed };

    ghost same = { same_frame M.Gives M.GivesNames M.names_any M.Finds M.found M.names P.count
        M.same M.same_names };

    ghost stays = { rewriter_stays M.Finds P.count };

    ghost goes_on = { rewriter_goes_on M.Finds P.count };

    ghost room_for_one = { room_after M.Gives M.GivesNames M.names_any M.Finds M.found M.names
        P.count };
}

// Looks for the map of a URL. Where others may be found then, what was answered is forgotten.
fn find_map<M: Maps>(maps: &mut M, remembered: &mut Remembered, url: &[u8])
    ensures finds { M.Finds maps.old url.now maps.new }
    ensures right { is_right (M.found maps.old) remembered.old ≡ true →
        is_right (M.found maps.new) remembered.new ≡ true }
{
    if maps.find(url) {
        remembered.forget();
    }
}

// Whether the URL of a frame has a map, what the frame is, and what stands before its URL then, over maps of which that of
// the URL was looked for.
fn look_named<'a, M: Maps>(
    alloc: Global,
    maps: &'a M,
    remembered: &mut Remembered,
    hiding: &Hiding<'_>,
    frame: &Frame<'a>,
) -> (bool, Sight<'a>, HeadCut<'a>)
    ensures has_map { result.0 ≡ is_some (M.found maps.now frame.now.url.now) }
    ensures sight { is_right (M.found maps.now) remembered.old ≡ true →
        fate_seen (parts_seen frame.now) result.1
        ≡ fate_at (hiding_seen hiding.now) (parts_seen frame.now)
        (original_in (parts_seen frame.now) (M.found maps.now frame.now.url.now)) }
    ensures named { is_right (M.found maps.now) remembered.old ≡ true →
        fate_seen (with_head (head_seen result.2) (parts_seen frame.now)) result.1
        ≡ fate_at (hiding_seen hiding.now)
        (named (M.names maps.now frame.now.url.now) (parts_seen frame.now))
        (original_in (parts_seen frame.now) (M.found maps.now frame.now.url.now)) }
    ensures right { StaysRight (M.found maps.now) remembered.old remembered.new }
{
    let (has_map, sight) = look_at(alloc, maps, remembered, hiding, frame);
    let head = named_head(alloc, maps, frame);
    (has_map, sight, head)
}

// Puts what becomes of the line of a frame, before whose URL this stands then, with the end of the line.
fn put_sight<W: ByteSink>(
    line: &[u8],
    frame: &Frame<'_>,
    head: &HeadCut<'_>,
    sight: &Sight<'_>,
    is_ended: bool,
    output: &mut LineOutput<'_, W>,
) -> Result<(), DeviceFault>
    ensures { IsPut W.seen output.old output.new
        (line_after (record { bytes = line.now; is_ended = is_ended })
        (fate_seen (with_head (head_seen head.now) (parts_seen frame.now)) sight.now)) result }
{
    match sight {
        Sight::Staying => output.put_line(line, is_ended),
        Sight::Replaced(replacement) => {
            put_frame(head, replacement, frame.tail, is_ended, output)
        }
        Sight::Hidden => Ok(()),
    }
}

// What stands before the URL of a frame, with the written name of its function, where the maps have one.
fn named_head<'a, M: Maps>(alloc: Global, maps: &'a M, frame: &Frame<'a>) -> HeadCut<'a>
    ensures { head_seen result
        ≡ (named (M.names maps.now frame.now.url.now) (parts_seen frame.now)).head }
{
    if !maps.knows_names() {
        return whole_head(frame.head);
    }
    let Some(cut) = head_cut(frame.head) else {
        return whole_head(frame.head);
    };
    match maps.written_name(alloc, frame.url, cut.name, frame.line, frame.column) {
        Some(name) => HeadCut {
            before: cut.before,
            name,
            behind: cut.behind,
        },
        None => whole_head(frame.head),
    }
}

// What stands before a URL, as one piece.
fn whole_head(head: &[u8]) -> HeadCut<'_>
    ensures { head_seen result ≡ head.now }
{
    HeadCut {
        before: head,
        name: &[],
        behind: &[],
    }
}

// Puts a frame, of which this stands before the URL and this behind the column, with its original in place of its place,
// and with the end of its line.
fn put_frame<W: ByteSink>(
    head: &HeadCut<'_>,
    replacement: &Replacement<'_>,
    tail: &[u8],
    is_ended: bool,
    output: &mut LineOutput<'_, W>,
) -> Result<(), DeviceFault>
    ensures { IsPut W.seen output.old output.new
        ((head_seen head.now ++ replacement_seen replacement.now ++ tail.now) ++ end_in is_ended)
        result }
{
    let mut room = [0; MOST_PRINTED_BYTES];
    let pieces = pieces_of(
        *head,
        replacement.name.as_bytes(),
        print_place(replacement.line, replacement.column, &mut room),
        tail,
        end_of_line(is_ended),
    );
    output.put_all(&pieces)
}

// What a frame is joined of.
fn pieces_of<'a>(
    head: HeadCut<'a>,
    name: &'a [u8],
    place: &'a [u8],
    tail: &'a [u8],
    end: &'a [u8],
) -> [&'a [u8]; 7]
    ensures { concat (map (λ piece. piece.now) result)
        ≡ (head_seen head.entry ++ (name.now ++ place.now) ++ tail.now) ++ end.now }
{
    [head.before, head.name, head.behind, name, place, tail, end]
}

// Notes what became of a frame, whose URL has a map or none, where that is asked.
fn note_if(
    is_noted: bool,
    notes: &mut UrlNotes,
    frame: &Frame<'_>,
    has_map: bool,
    sight: &Sight<'_>,
)
    ensures { IsNotedIf is_noted
        (naming_with (parts_seen frame.now) has_map (fate_seen (parts_seen frame.now) sight.now))
        (notes_seen notes.old) (notes_seen notes.new) }
{
    if is_noted {
        notes.note(&naming_with(frame, has_map, sight));
    }
}

// What a frame is noted as.
fn naming_with<'a>(frame: &Frame<'a>, has_map: bool, sight: &Sight<'_>) -> Naming<'a>
    ensures { naming_seen result
        ≡ naming_with (parts_seen frame.now) has_map (fate_seen (parts_seen frame.now) sight.now) }
{
    let (mapped, staying) = match sight {
        Sight::Staying => (false, true),
        Sight::Replaced(_) => (true, false),
        Sight::Hidden => (false, false),
    };
    Naming {
        url: frame.url,
        line: frame.line,
        column: frame.column,
        found: has_map,
        mapped,
        unmapped: has_map && staying,
    }
}
