//! Lines without a place, which need not be looked at.
ghost use Rattle.std.specs.Prelude.{◌≡◌, ◌≤◌, Bool, length, map, take};
ghost use Rattle.std.specs.List.{flat_map};
ghost use Rattle.smap_anywhere.specs.NamedParts.{cut_parts_by};
ghost use Rattle.smap_anywhere.specs.Parts.{other};
ghost use Rattle.smap_lines.specs.Lines.{IsWholeLines};
ghost use Rattle.smap_pairs.specs.Chunks.{cuts_of};

use memchr::memrchr;
use smap_pairs::KnownUrls;

/// How many bytes the lines of a text have before that in which what all URLs begin with stands first: none has a place.
pub fn plain_lines<K: KnownUrls>(known: &K, text: &[u8]) -> usize
    ensures within { result ≤ length text.now }
    ensures whole { IsWholeLines (take result text.now) }
    ensures plain { (is_named : Bool) →
        flat_map (cut_parts_by is_named (K.known known.now)) (cuts_of (take result text.now))
        ≡ map other (take result text.now) }
{
    match known.find_front(text) {
        Some(front) => whole_lines(&text[..front]),
        None => whole_lines(text),
    }
}

// How many bytes a text has up to its last LF.
fn whole_lines(text: &[u8]) -> usize
    ensures within { result ≤ length text.now }
    ensures whole { IsWholeLines (take result text.now) }
{
    match memrchr(b'\n', text) {
        Some(end) => end + 1,
        None => 0,
    }
}
