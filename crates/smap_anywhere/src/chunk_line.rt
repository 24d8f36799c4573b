//! A chunk as a line, and the places of one.
ghost use Rattle.std.specs.Prelude.{◌≡◌, ◌≤◌, length};
ghost use Rattle.smap_anywhere.specs.ChunkParts.{line_of, spans_of};
ghost use Rattle.smap_lines.specs.Limits.{most_line_bytes};
ghost use Rattle.smap_pairs.specs.Chunks.{IsInOneLine};
ghost use Rattle.smap_pairs.specs.LinePlaces.{places_in};
ghost use Rattle.smap_pairs.specs.Seen.{seen_of};
ghost use Rattle.smap_pairs.specs.Spans.{AreSpansInOrder};

use smap_pairs::{KnownUrls, LinePlaces};

/// Finds the places of a line, for which there is room.
pub fn find<K: KnownUrls>(places: &mut LinePlaces, known: &K, line: &[u8])
    requires { length line.now ≤ places.old.most_bytes }
    ensures places { places.new.places ≡ places_in (K.known known.now) line.now (seen_of line.now) }
    ensures order { AreSpansInOrder 0 (length line.now) places.new.places }
    ensures same_room { places.new.most_bytes ≡ places.old.most_bytes }
{
    match places.find(known, line) {
        Ok(()) => {}
        Err(_) => unreachable!(),
    }
}

/// Finds the places of a chunk, in room for a line of 65,536 bytes.
pub fn find_in_chunk<K: KnownUrls>(places: &mut LinePlaces, known: &K, chunk: &[u8])
    requires one { IsInOneLine chunk.now }
    requires room { places.old.most_bytes ≡ most_line_bytes }
    ensures spans { places.new.places ≡ spans_of (K.known known.now) chunk.now }
    ensures order { AreSpansInOrder 0 (length chunk.now) places.new.places }
    ensures same_room { places.new.most_bytes ≡ places.old.most_bytes }
{
    let line = line_of(chunk);
    find(places, known, line);
}

/// A chunk without the LF at its end.
pub fn line_of(text: &[u8]) -> &[u8]
    requires { IsInOneLine text.now }
    ensures line { result.now ≡ line_of text.now }
    ensures few { length result.now ≤ most_line_bytes }
    ensures within { length result.now ≤ length text.now }
{
    let Some((byte, line)) = text.split_last() else {
        return text;
    };
    if *byte == b'\n' { line } else { text }
}
