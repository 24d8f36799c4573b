//! What is noted of a text as a whole.
ghost use Rattle.std.specs.Prelude.{◌≡◌, [], ◌∷◌};
ghost use Rattle.smap_trace.specs.Private.TextNoting.{text_noted};
ghost use Rattle.smap_trace.specs.TextNote.{no_text_noted, opening_seen, opening_with, text_note_seen};

use crate::passed::PlaceCounter;
use smap_lines::end_of_line;

// How many bytes of a text are noted at most.
const MOST_OPENING_BYTES: usize = 6;

/// The first bytes of a text: 6 at most.
#[derive(Clone, Copy)]
pub struct Opening {
    bytes: [u8; MOST_OPENING_BYTES],
    len: usize,
}

/// What is noted of a text beside the URLs that its frames name, of its lines of up to 65,536 bytes.
#[derive(Clone, Copy)]
pub struct TextNote {
    /// How often the URLs that are counted stand in it, in places or not, as far as 64 bits can count.
    pub mentions: u64,
    /// What it begins with.
    pub opening: Opening,
}

impl Opening {
    /// The bytes.
    pub fn as_bytes(&self) -> &[u8]
        ensures { result.now ≡ opening_seen self.now }
    {
        match self.bytes.get(..self.len) {
            Some(front) => front,
            None => &self.bytes,
        }
    }

    // Puts bytes behind it, as far as there is room.
    fn put(&mut self, more: &[u8])
        ensures { opening_seen self.new ≡ opening_with (opening_seen self.old) more.now }
    {
        if self.len < MOST_OPENING_BYTES {
            for byte in more {
                self.push(*byte);
            }
        }
    }

    // Puts a byte behind it, where there is room.
    fn push(&mut self, byte: u8)
        ensures { opening_seen self.new ≡ opening_with (opening_seen self.old) (byte ∷ []) }
    {
        if self.len < MOST_OPENING_BYTES {
            self.bytes[self.len] = byte;
            self.len += 1;
        }
    }
}

impl TextNote {
    /// Nothing is noted.
    pub fn none() -> TextNote
        ensures { text_note_seen result ≡ no_text_noted }
    {
        TextNote {
            mentions: 0,
            opening: Opening {
                bytes: [0; MOST_OPENING_BYTES],
                len: 0,
            },
        }
    }
}

/// What is noted of a text with a line more, where that is asked.
#[tactic(auto, using(crate::proofs::TextNoteLaws::opening_both))]
pub fn text_noted<P: PlaceCounter>(
    is_noted: bool,
    places: &P,
    note: TextNote,
    line: &[u8],
    is_ended: bool,
) -> TextNote
    ensures { text_note_seen result ≡ text_noted is_noted (P.count places.now) (text_note_seen note)
        (record { bytes = line.now; is_ended = is_ended }) }
{
    if !is_noted {
        return note;
    }
    let mut opening = note.opening;
    opening.put(line);
    opening.put(end_of_line(is_ended));
    TextNote {
        mentions: places.count_mentions(note.mentions, line),
        opening,
    }
}
