//! Rewriting the places of a text.
ghost use Rattle.std.specs.Prelude.{◌≡◌, ◌<◌, ◌^◌, false, length, suc, IfErr, IfOk, OnErr};
ghost use Rattle.smap_anywhere.specs.Anywhere.{AreNone, RewritesAnywhereFrontOver, RewritesAnywhereOver};
ghost use Rattle.smap_anywhere.specs.Asked.{asked_seen};
ghost use Rattle.smap_anywhere.specs.NamedParts.{found_by, gives_by, replacing};
ghost use Rattle.smap_lines.specs.Limits.{most_line_bytes};
ghost use Rattle.smap_lines.specs.RunEnds.{RunEnds};
ghost use Rattle.smap_lines.specs.declared.fault.LineFault.TheVariants.{Memory};
ghost use Rattle.smap_trace.specs.NotesSeen.{notes_seen};
ghost use Rattle.smap_trace.specs.Rewriting.{Looked};

use crate::chunk_writer::ChunkWriter;
use crate::line_ends::LinesRead;
use crate::notes::PlaceNotes;
use crate::parts_writer::PartsWriter;
use crate::window::Window;
use smap_io::{ByteSink, ByteSource};
use smap_lines::{Gathered, LineOutput, MOST_LINE_BYTES};
use smap_pairs::{KnownUrls, LinePlaces};
use smap_trace::{Maps, RewriteFault, Summary, UrlNotes};
use std::alloc::{AllocError, Global};

// How many bytes are read at once, at least.
const READ_BYTES: usize = 32768;

/// How the places of a text are rewritten.
#[derive(Clone, Copy)]
pub struct PlaceOptions<'k, K: KnownUrls> {
    /// Which URLs have a map.
    pub known: &'k K,
    /// How many bytes of the text are taken at most: less than 2^63.
    pub most_bytes: u64,
    /// Whether it is noted what became of the URLs that places name, and which look like one and have no map.
    pub is_noted: bool,
}

/// Rewrites a text while it is read: a place, wherever it stands, whose URL is known and that has an original gets it in its
/// stead, and the function of its frame, where it is that of one, the name that is known to be written for it; and every
/// other byte stays. The map of its URL is looked for when the place is met. The summary counts places as frames; none is
/// hidden. A text of more than `most_bytes` bytes is refused when more were read. The caller gives devices
/// that have not failed, and notes without any. The output is not flushed.
///
/// All room is made before the first read. What became of each line that was read was written before more is read. The
/// first failure ends it. What was written is then a front of what the bytes that were read become; where a read failed, all
/// of what the whole lines among them become; and where memory ran out, neither device was asked. The notes stay then.
pub fn rewrite_anywhere<R: ByteSource, W: ByteSink, M: Maps, K: KnownUrls>(
    alloc: Global,
    input: &mut R,
    output: &mut W,
    maps: &mut M,
    options: &PlaceOptions<'_, K>,
    notes: &mut PlaceNotes,
) -> Result<Summary, RewriteFault>
    requires input_works { (R.seen input.old).failed ≡ false }
    requires output_works { (W.seen output.old).failed ≡ false }
    requires most_bytes { options.now.most_bytes < 2 ^ 63 }
    requires unnoted { AreNone notes.old }
    ensures ends { RunEnds R.seen W.seen input.old input.new output.old output.new
        (λ before after summary. RewritesAnywhereOver (replacing M.names_any) M.Finds
        (found_by M.names_any M.found M.names) (asked_seen M.names_any K.known options.now)
        before after maps.old maps.new summary (notes_seen notes.new.named) (notes_seen notes.new.others))
        (RewritesAnywhereFrontOver (replacing M.names_any)
        (gives_by M.names_any (M.Gives maps.old) (M.GivesNames maps.old))
        (asked_seen M.names_any K.known options.now)) result }
    ensures notes_stay { OnErr result (notes.new ≡ notes.old) }
    ensures looked { Looked M.Finds maps.old maps.new }
    ensures memory_maps { IfErr result (λ fault. fault ≡ Memory → maps.new ≡ maps.old) }
{
    let (Ok(mut window), Ok(mut gathered), Ok(mut places), Ok(mut room)) = (
        Window::new(alloc, MOST_LINE_BYTES + READ_BYTES),
        Gathered::new(alloc),
        LinePlaces::with_room(alloc, MOST_LINE_BYTES),
        room_for_urls(alloc),
    ) else {
        return Err(RewriteFault::Memory);
    };
    let mut named = UrlNotes::new(alloc);
    let mut others = UrlNotes::new(alloc);
    let mut chunks = ChunkWriter {
        known: options.known,
        places: &mut places,
        room: &mut room,
        writer: PartsWriter {
            alloc,
            maps,
            places: 0,
            mapped: 0,
            is_noted: options.is_noted,
            notes: &mut named,
        },
        others: &mut others,
        is_broken: false,
    };
    let mut lines = LinesRead {
        ended: 0,
        is_open: false,
    };
    let mut total: u64 = 0;
    loop {
        let Ok(count) = window.read(input) else {
            return Err(RewriteFault::Read);
        };
        if count as u64 > options.most_bytes - total {
            return Err(RewriteFault::TooMuch);
        }
        total += count as u64;
        let bytes = window.bytes();
        lines.go_on(&bytes[bytes.len() - count..]);
        let mut lent = LineOutput {
            gathered: &mut gathered,
            sink: output,
        };
        let Ok(written) = chunks.write_decided(bytes, count == 0, &mut lent) else {
            return Err(RewriteFault::Write);
        };
        if count == 0 {
            let summary = Summary {
                lines: lines.all(),
                frames: chunks.writer.places,
                mapped: chunks.writer.mapped,
                hidden: 0,
            };
            notes.named = named;
            notes.others = others;
            return Ok(summary);
        }
        window.cut(written);
    }
}

// Room for the URLs of a chunk and its LF, to put them together there.
fn room_for_urls(alloc: Global) -> Result<Vec<u8>, AllocError>
    ensures { IfOk result (λ room. length room.items ≡ suc most_line_bytes) }
{
    vec![in alloc; 0; MOST_LINE_BYTES + 1]
}
