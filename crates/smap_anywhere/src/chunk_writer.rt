//! A text that is cut into chunks while it is read, and what becomes of each, written as soon as it is decided.
ghost use Rattle.std.specs.Prelude.{◌≡◌, ◌<◌, ◌≤◌, ◌+◌, ◌^◌, [], IfOk, OnErr, OnOk, drop, length, suc};
ghost use Rattle.smap_anywhere.specs.ChunkParts.{has_any, line_of, place_of_span, spans_of, unknown_among, unless_any};
ghost use Rattle.smap_anywhere.specs.NamedParts.{cut_parts_by, found_by, gives_by, replacing};
ghost use Rattle.smap_anywhere.specs.Private.ChunkWriter.{FailsToPutParts, HasRoom, IsSameChunkWriter};
ghost use Rattle.smap_anywhere.specs.Private.ChunkWriter.{IsUndecided, Passes, PutsParts, Writes, parts_behind};
ghost use Rattle.smap_anywhere.specs.Private.PartsWriter.{AddsNotes, AreNoted};
ghost use Rattle.smap_anywhere.specs.SeemingUrls.{urls_seeming};
ghost use Rattle.smap_lines.specs.Limits.{most_line_bytes};
ghost use Rattle.smap_lines.specs.LineOutput.{IsSameOutput};
ghost use Rattle.smap_pairs.specs.Chunks.Cut.{chunk};
ghost use Rattle.smap_pairs.specs.Chunks.{IsInOneLine};
ghost use Rattle.smap_pairs.specs.LinePlaces.{span_url};
ghost use Rattle.smap_pairs.specs.Spans.{AreSpansInOrder};
ghost use Rattle.smap_trace.specs.NotesSeen.{notes_seen};
ghost use Rattle.smap_trace.specs.Rewriting.{Looked};

use crate::chunk_line::{find, line_of};
use crate::parts_writer::{PartsWriter, url_of};
use crate::plain_lines::plain_lines;
use crate::seeming_urls::SeemingUrls;
use smap_io::{ByteSink, DeviceFault};
use smap_lines::LineOutput;
use smap_locations::without_query;
use smap_pairs::{KnownUrls, LinePlaces, Span, first_chunk, staying_bytes};
use smap_trace::{Maps, Naming, UrlNotes};

/// Writes a text chunk by chunk: what a line has of places, room for it, the writer of its parts, the notes of what looks
/// like a URL and has no map, and whether what stands behind the last chunk stays up to the next `"` or the line's end.
#[derive(Drop)]
pub struct ChunkWriter<'k, 'r, 'm, 'n, 'o, M: Maps, K: KnownUrls> {
    pub known: &'k K,
    pub places: &'r mut LinePlaces,
    pub room: &'r mut [u8],
    pub writer: PartsWriter<'m, 'n, M>,
    pub others: &'o mut UrlNotes,
    pub is_broken: bool,
}

impl<M: Maps, K: KnownUrls> ChunkWriter<'_, '_, '_, '_, '_, M, K> {
    /// Writes what becomes of a text as far as it is decided, and counts the bytes of it: up to its last LF at least, and
    /// all but 65,536 bytes; and all, where nothing follows it. Nothing waits then.
    pub fn write_decided<W: ByteSink>(
        &mut self,
        text: &[u8],
        is_last: bool,
        output: &mut LineOutput<'_, W>,
    ) -> Result<usize, DeviceFault>
        requires room { HasRoom self.old }
        requires countable_places { self.old.writer.places + length text.now < 2 ^ 64 }
        requires countable_mapped { self.old.writer.mapped + length text.now < 2 ^ 64 }
        ensures same { IsSameChunkWriter self.old self.new }
        ensures same_output { IsSameOutput output.old output.new }
        ensures looked { Looked M.Finds self.old.writer.maps.now self.new.writer.maps.now }
        ensures writes { IfOk result (λ count. Writes (replacing M.names_any)
            M.Finds (found_by M.names_any M.found M.names) W.seen M.names_any
            (K.known self.old.known.now) self.old self.new output.old output.new
            is_last text.now count) }
        ensures undecided { IfOk result (λ count. IsUndecided is_last (drop count text.now)) }
        ensures none { OnOk result (output.new.gathered.now ≡ []) }
        ensures no_failure { OnOk result
            ((W.seen output.new.sink.now).failed ≡ (W.seen output.old.sink.now).failed) }

        ensures fails { OnErr result (FailsToPutParts (replacing M.names_any)
            (gives_by M.names_any (M.Gives self.old.writer.maps.now)
            (M.GivesNames self.old.writer.maps.now)) W.seen output.old output.new
            (parts_behind M.names_any (K.known self.old.known.now) self.old.is_broken text.now)) }
    {
        let mut done = 0;
        loop {
            let bytes = self.put_next(&text[done..], is_last, output)?;
            if bytes == 0 {
                break;
            }
            done += bytes;
        }
        output.write()?;
        Ok(done)
    }

    // Puts what becomes of the first chunk of a text, or of the bytes of it that stay, or of the lines of it that are told
    // to have no place; and counts its bytes, none where these are not decided.
    fn put_next<W: ByteSink>(
        &mut self,
        text: &[u8],
        is_last: bool,
        output: &mut LineOutput<'_, W>,
    ) -> Result<usize, DeviceFault>
        requires room { HasRoom self.old }
        requires countable_places { self.old.writer.places + length text.now < 2 ^ 64 }
        requires countable_mapped { self.old.writer.mapped + length text.now < 2 ^ 64 }
        ensures same { IsSameChunkWriter self.old self.new }
        ensures looked { Looked M.Finds self.old.writer.maps.now self.new.writer.maps.now }
        ensures passes { IfOk result (λ count. Passes (replacing M.names_any)
            M.Finds (found_by M.names_any M.found M.names) W.seen M.names_any
            (K.known self.old.known.now) self.old self.new output.old output.new
            is_last text.now count) }
        ensures undecided { IfOk result (λ count. count ≡ 0 → IsUndecided is_last text.now) }

        ensures fails { OnErr result (FailsToPutParts (replacing M.names_any)
            (gives_by M.names_any (M.Gives self.old.writer.maps.now)
            (M.GivesNames self.old.writer.maps.now)) W.seen output.old output.new
            (parts_behind M.names_any (K.known self.old.known.now) self.old.is_broken text.now)) }
    {
        if self.is_broken {
            let bytes = staying_bytes(text);
            if bytes > 0 {
                output.put(&text[..bytes])?;
                self.is_broken = text[bytes - 1] != b'\n';
                return Ok(bytes);
            }
        } else if !self.writer.is_noted {
            let bytes = plain_lines(self.known, text);
            if bytes > 0 {
                output.put(&text[..bytes])?;
                return Ok(bytes);
            }
        }
        let Some(chunk) = first_chunk(text, is_last) else {
            return Ok(0);
        };
        self.put_chunk(&text[..chunk.bytes], output)?;
        self.is_broken = chunk.is_broken;
        Ok(chunk.bytes)
    }

    // Puts what becomes of a chunk.
    fn put_chunk<W: ByteSink>(
        &mut self,
        text: &[u8],
        output: &mut LineOutput<'_, W>,
    ) -> Result<(), DeviceFault>
        requires room { HasRoom self.old }
        requires one { IsInOneLine text.now }
        requires countable_places { self.old.writer.places + length text.now < 2 ^ 64 }
        requires countable_mapped { self.old.writer.mapped + length text.now < 2 ^ 64 }
        ensures same { IsSameChunkWriter self.old self.new }
        ensures same_broken { self.new.is_broken ≡ self.old.is_broken }
        ensures looked { Looked M.Finds self.old.writer.maps.now self.new.writer.maps.now }
        ensures puts { OnOk result (PutsParts (replacing M.names_any) M.Finds
            (found_by M.names_any M.found M.names) W.seen self.old self.new output.old output.new
            (cut_parts_by M.names_any (K.known self.old.known.now) (chunk text.now))
            (unknown_among (K.known self.old.known.now) text.now
            (spans_of urls_seeming text.now))) }
        ensures few_places { OnOk result
            (self.new.writer.places ≤ self.old.writer.places + length text.now) }
        ensures few_mapped { OnOk result
            (self.new.writer.mapped ≤ self.old.writer.mapped + length text.now) }

        ensures fails { OnErr result (FailsToPutParts (replacing M.names_any)
            (gives_by M.names_any (M.Gives self.old.writer.maps.now)
            (M.GivesNames self.old.writer.maps.now)) W.seen output.old output.new
            (cut_parts_by M.names_any (K.known self.old.known.now) (chunk text.now))) }
    {
        let line = line_of(text);
        find(self.places, self.known, line);
        self.writer
            .put_parts(text, self.places.places(), self.room, output)?;
        self.note_others(text, line);
        Ok(())
    }

    // Notes what looks like a URL in a chunk, which is this line, and has no map, where that is asked.
    fn note_others(&mut self, text: &[u8], line: &[u8])
        requires room { HasRoom self.old }
        requires line { line.now ≡ line_of text.now }
        requires few { length line.now ≤ most_line_bytes }
        requires within { length line.now ≤ length text.now }
        requires few_bytes { length text.now ≤ suc most_line_bytes }
        ensures same { IsSameChunkWriter self.old self.new }
        ensures same_writer { self.new.writer ≡ self.old.writer }
        ensures same_broken { self.new.is_broken ≡ self.old.is_broken }
        ensures others { AreNoted self.old.writer.is_noted
            (unknown_among (K.known self.old.known.now) text.now (spans_of urls_seeming text.now))
            (notes_seen self.old.others.now) (notes_seen self.new.others.now) }
    {
        if !self.writer.is_noted {
            return;
        }
        find(self.places, &SeemingUrls, line);
        note_unknown(
            self.known,
            text,
            self.places.places(),
            self.room,
            self.others,
        );
    }
}

// Notes those of the places of a chunk whose URLs have no map.
fn note_unknown<K: KnownUrls>(
    known: &K,
    text: &[u8],
    spans: &[Span],
    room: &mut [u8],
    notes: &mut UrlNotes,
)
    requires order { AreSpansInOrder 0 (length text.now) spans.now }
    requires room { length text.now ≤ length room.old }
    ensures { AddsNotes (unknown_among (K.known known.now) text.now spans.now)
        (notes_seen notes.old) (notes_seen notes.new) }
{
    let mut rest = spans;
    while let Some((span, later)) = rest.split_first() {
        note_place(known, text, span, room, notes);
        rest = later;
    }
}

// Notes a place of a chunk, if its URL has no map.
fn note_place<K: KnownUrls>(
    known: &K,
    text: &[u8],
    span: &Span,
    room: &mut [u8],
    notes: &mut UrlNotes,
)
    requires order { span.now.start ≤ span.now.url_end }
    requires within { span.now.url_end ≤ length text.now }
    requires room { length text.now ≤ length room.old }
    ensures { AddsNotes (unless_any (has_any (K.known known.now) (span_url text.now span.now))
        (place_of_span text.now span.now)) (notes_seen notes.old) (notes_seen notes.new) }
{
    let url = url_of(text, span, room);
    if has_any(known, url) {
        return;
    }
    notes.note(&Naming {
        url,
        line: span.line,
        column: span.column,
        found: false,
        mapped: false,
        unmapped: false,
    });
}

// Whether a URL has a map, or has one without its query and its fragment.
fn has_any<K: KnownUrls>(known: &K, url: &[u8]) -> bool
    ensures { result ≡ has_any (K.known known.now) url.now }
{
    known.has_own(url) || known.is_name(without_query(url)) || known.has_pattern(url)
}
