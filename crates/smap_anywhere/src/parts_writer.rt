//! What becomes of the places of a chunk, written as they are met.
ghost use Rattle.std.specs.Prelude.{◌≡◌, ◌<◌, ◌≤◌, ◌+◌, ◌-◌, ◌++◌, ◌∷◌, ◌^◌, [], is_some, length, map, option_map, IfOk, OnOk};
ghost use Rattle.std.specs.List.{concat};
ghost use Rattle.smap_lines.specs.LineOutput.{IsOnePut, IsPut};
ghost use Rattle.smap_pairs.specs.Halved.{halved};
ghost use Rattle.smap_pairs.specs.LinePlaces.{span_url};
ghost use Rattle.smap_pairs.specs.Spans.{AreSpansInOrder};
ghost use Rattle.smap_anywhere.specs.NamedParts.{chunk_by_spans, found_by, gives_by, replacing};
ghost use Rattle.smap_anywhere.specs.PartSteps.{MayBecomeBy, naming_by};
ghost use Rattle.smap_anywhere.specs.Replaced.{text_in};
ghost use Rattle.smap_anywhere.specs.ChunkParts.{place_with};
ghost use Rattle.smap_anywhere.specs.Private.PartsWriter.{AreNoted, Becomes, IsSameWriter};
ghost use Rattle.smap_anywhere.specs.Private.PlaceText.{place_text};
ghost use Rattle.smap_trace.specs.NotesSeen.{notes_seen};
ghost use Rattle.smap_trace.specs.Rewriting.{Looked};

use crate::frame_function::{FunctionPut, function_for};
use crate::replacement::find_replacement;
use smap_io::{ByteSink, DeviceFault};
use smap_lines::LineOutput;
use smap_pairs::Span;
use smap_record::ReadyMap;
use smap_trace::{MOST_PRINTED_BYTES, Maps, Naming, UrlNotes, print_place};
use std::alloc::Global;

/// Writes the parts of a text, counts its places and those that are replaced, and notes what they name where that is asked.
#[derive(Drop)]
pub struct PartsWriter<'m, 'n, M: Maps> {
    pub alloc: Global,
    pub maps: &'m mut M,
    pub places: u64,
    pub mapped: u64,
    pub is_noted: bool,
    pub notes: &'n mut UrlNotes,
}

impl<M: Maps> PartsWriter<'_, '_, M> {
    /// Puts what becomes of a chunk that has these places: each is replaced by what the map of its URL has for it, which is
    /// looked for when the place is met, and the function of its frame gets its written name then. In `room` URLs are put
    /// together that stand there with two backslashes for one. If a write fails, a front of it was written.
    pub fn put_parts<W: ByteSink>(
        &mut self,
        text: &[u8],
        spans: &[Span],
        room: &mut [u8],
        output: &mut LineOutput<'_, W>,
    ) -> Result<(), DeviceFault>
        requires order { AreSpansInOrder 0 (length text.now) spans.now }
        requires room { length text.now ≤ length room.old }
        requires countable_places { self.old.places + length text.now < 2 ^ 64 }
        requires countable_mapped { self.old.mapped + length text.now < 2 ^ 64 }
        ensures same { IsSameWriter self.old self.new }
        ensures room { length room.new ≡ length room.old }
        ensures looked { Looked M.Finds self.old.maps.now self.new.maps.now }
        ensures puts { IsOnePut W.seen output.old output.new
            (MayBecomeBy (replacing M.names_any)
            (gives_by M.names_any (M.Gives self.old.maps.now) (M.GivesNames self.old.maps.now))
            (chunk_by_spans M.names_any text.now 0 spans.now))
            (Becomes (replacing M.names_any) M.Finds (found_by M.names_any M.found M.names)
            self.old self.new (chunk_by_spans M.names_any text.now 0 spans.now)) result }
        ensures few_places { OnOk result (self.new.places ≤ self.old.places + length text.now) }
        ensures few_mapped { OnOk result (self.new.mapped ≤ self.old.mapped + length text.now) }
    {
        let mut from = 0;
        let mut rest = spans;
        while let Some((span, later)) = rest.split_first() {
            let url = url_of(text, span, room);
            self.maps.find(url);
            let map = self.maps.map_for(url);
            let function = function_for(self.alloc, self.maps, url, text, from, span);
            let is_mapped = put_place(self.alloc, map, text, from, span, &function, output)?;
            self.places += 1;
            self.mapped += u64::from(is_mapped);
            note_place(
                self.is_noted,
                self.notes,
                map.is_some(),
                url,
                span,
                is_mapped,
            );
            from = span.end;
            rest = later;
        }
        output.put(&text[from..])
    }
}

/// The URL of a place; where it stands there with two backslashes for one, it is put together in `room`.
pub fn url_of<'a>(text: &'a [u8], span: &Span, room: &'a mut [u8]) -> &'a [u8]
    requires order { span.now.start ≤ span.now.url_end }
    requires within { span.now.url_end ≤ length text.now }
    requires room { length text.now ≤ length room.old }
    ensures { result.now ≡ span_url text.now span.now }
{
    let url = &text[span.start..span.url_end];
    if span.is_halved {
        halve_within(url, room)
    } else {
        url
    }
}

// A text with one backslash for each two, put together in `room`.
fn halve_within<'r>(text: &[u8], room: &'r mut [u8]) -> &'r [u8]
    requires { length text.now ≤ length room.old }
    ensures { result.now ≡ halved text.now }
{
    let mut count = 0;
    let mut rest = text;
    while let Some((byte, behind)) = rest.split_first() {
        room[count] = *byte;
        count += 1;
        rest = match behind.split_first() {
            Some((b'\\', further)) if *byte == b'\\' => further,
            _ => behind,
        };
    }
    &room[..count]
}

// Puts the bytes of a text from byte `from` on that stand before a place and its function, and what becomes of these where
// the place's URL has this map, and this is put for the function then; and says whether the place is replaced.
fn put_place<W: ByteSink>(
    alloc: Global,
    map: Option<&ReadyMap>,
    text: &[u8],
    from: usize,
    span: &Span,
    function: &FunctionPut<'_>,
    output: &mut LineOutput<'_, W>,
) -> Result<bool, DeviceFault>
    requires after { from + function.now.bytes ≤ span.now.start }
    requires some { span.now.start ≤ span.now.end }
    requires within { span.now.end ≤ length text.now }
    ensures put { IsPut W.seen output.old output.new
        (place_text text.now from (span.now.start - function.now.bytes) span.now
        (function.now.name.now ++ function.now.behind.now)
        (option_map (λ file. file.now.stated) map.entry)) result }
    ensures mapped { IfOk result (λ mapped. mapped ≡ is_some
        (text_in (option_map (λ file. file.now.stated) map.entry) span.now.line span.now.column)) }
{
    let Some(replacement) = find_replacement(alloc, map, span) else {
        output.put(&text[from..span.end])?;
        return Ok(false);
    };
    let mut room = [0; MOST_PRINTED_BYTES];
    let pieces = pieces_of(
        &text[from..span.start - function.bytes],
        *function,
        replacement.name.as_bytes(),
        print_place(replacement.line, replacement.column, &mut room),
    );
    output.put_all(&pieces)?;
    Ok(true)
}

// What is put where a place is replaced.
fn pieces_of<'a>(
    front: &'a [u8],
    function: FunctionPut<'a>,
    name: &'a [u8],
    printed: &'a [u8],
) -> [&'a [u8]; 5]
    ensures { concat (map (λ piece. piece.now) result)
        ≡ front.now
        ++ ((function.entry.name.now ++ function.entry.behind.now) ++ (name.now ++ printed.now)) }
{
    [front, function.name, function.behind, name, printed]
}

// Notes a place that has this URL, where that is asked: whether a map was found for it, and whether the place was replaced.
fn note_place(
    is_noted: bool,
    notes: &mut UrlNotes,
    found: bool,
    url: &[u8],
    span: &Span,
    mapped: bool,
)
    ensures { AreNoted is_noted (naming_by (place_with url.now span.now) found mapped ∷ [])
        (notes_seen notes.old) (notes_seen notes.new) }
{
    if !is_noted {
        return;
    }
    notes.note(&Naming {
        url,
        line: span.line,
        column: span.column,
        found,
        mapped,
        unmapped: found && !mapped,
    });
}
