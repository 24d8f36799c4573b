//! What a trace came to, URL by URL.
ghost use Rattle.std.specs.Prelude.{◌≡◌, ◌++◌, ◌∷◌, [], List, false, ⊤, IfOk, MatchBool, map, position};
ghost use Rattle.smap_trace.specs.Noted.{AreNotesOf};
ghost use Rattle.smap_trace.specs.Private.Noting.{IsNoted, first_note, is_of, place_where, with_naming, with_one};
ghost use Rattle.smap_trace.specs.NotesSeen.{naming_seen, note_seen, notes_seen};
ghost use Rattle.smap_trace.specs.UrlNotes.{NamingSeen};

use std::alloc::{AllocError, Global};

// How many URLs are noted.
const MOST_URLS: usize = 100;

/// A frame, or a place, that names a URL, and what became of it. Its line and its column count from 1.
#[derive(Clone, Copy)]
pub struct Naming<'a> {
    pub url: &'a [u8],
    pub line: u32,
    pub column: u32,
    /// Whether a map was found for the URL.
    pub found: bool,
    /// Whether it was replaced.
    pub mapped: bool,
    /// Whether it stays though there is a map.
    pub unmapped: bool,
}

/// What is noted of a URL.
#[derive(Drop)]
pub struct UrlNote {
    pub url: Vec<u8>,
    /// How many frames or places name it, up to 18,446,744,073,709,551,615.
    pub frames: u64,
    /// How many of these were replaced.
    pub mapped: u64,
    /// Whether a map was found for it.
    pub found: bool,
    /// The line and the column of the first of these that stays though there is a map: this has no mapping there, or one
    /// without a source whose name can be put there. They count from 1.
    pub unmapped: Option<(u32, u32)>,
}

/// What is noted of the first 100 different URLs that frames or places name, in the order in which they do so first.
#[derive(Drop)]
pub struct UrlNotes {
    alloc: Global,
    pub notes: Vec<UrlNote>,
    /// Whether memory ran out, so that these are not all, or not all that is noted of them.
    pub is_short: bool,
}

impl UrlNotes {
    /// Nothing is noted. The call takes no memory.
    pub fn new(alloc: Global) -> UrlNotes
        ensures { notes_seen result ≡ record { notes = []; is_short = false } }
    {
        UrlNotes {
            alloc,
            notes: Vec::new(alloc),
            is_short: false,
        }
    }

    /// Notes one naming more.
    pub fn note(&mut self, naming: &Naming<'_>)
        ensures { (namings : List NamingSeen) → AreNotesOf namings (notes_seen self.old) →
            AreNotesOf (namings ++ naming_seen naming.now ∷ []) (notes_seen self.new) }
    {
        self.note_one(naming);
    }

    // The same, from the notes alone.
    fn note_one(&mut self, naming: &Naming<'_>)
        ensures { IsNoted (notes_seen self.old) (naming_seen naming.now) (notes_seen self.new) }
    {
        if let Some(place) = place_of(&self.notes, naming.url) {
            count_at(&mut self.notes, place, naming);
        } else if self.notes.len() < MOST_URLS {
            self.add(naming);
        }
    }

    // Notes the first naming of a URL, where there is memory for that.
    fn add(&mut self, naming: &Naming<'_>)
        ensures { MatchBool self.new.is_short ⊤ ((self.old.is_short ≡ false)
            × (map note_seen self.new.notes.items
            ≡ map note_seen self.old.notes.items ++ first_note (naming_seen naming.now) ∷ [])) }
    {
        let Ok(note) = first_note(self.alloc, naming) else {
            self.is_short = true;
            return;
        };
        if self.notes.push(note).is_err() {
            self.is_short = true;
        }
    }
}

// The index of the note of a URL.
fn place_of(notes: &[UrlNote], url: &[u8]) -> Option<usize>
    ensures { result ≡ position (λ note. is_of url.now (note_seen note)) notes.now }
{
    notes.iter().position(|note| is_of(note, url))
}

// Whether a note is of this URL.
fn is_of(note: &UrlNote, url: &[u8]) -> bool
    ensures { result ≡ is_of url.now (note_seen note.now) }
{
    url == note.url.as_slice()
}

// Counts a naming in the note at an index.
fn count_at(notes: &mut Vec<UrlNote>, place: usize, naming: &Naming<'_>)
    requires { position (λ note. is_of naming.now.url.now (note_seen note)) notes.old.items
        ≡ Some place }
    ensures { map note_seen notes.new.items
        ≡ with_one (naming_seen naming.now) (map note_seen notes.old.items) }
{
    count(&mut notes[place], naming);
}

// Counts a naming in the note of its URL.
fn count(note: &mut UrlNote, naming: &Naming<'_>)
    ensures { note_seen note.new ≡ with_naming (naming_seen naming.now) (note_seen note.old) }
{
    note.frames = note.frames.saturating_add(1);
    note.mapped = note.mapped.saturating_add(u64::from(naming.mapped));
    note.found = note.found || naming.found;
    note.unmapped = note.unmapped.or(place_where(naming));
}

// The note of a URL that is named the first time.
fn first_note(alloc: Global, naming: &Naming<'_>) -> Result<UrlNote, AllocError>
    ensures { IfOk result (λ note. note_seen note ≡ first_note (naming_seen naming.now)) }
{
    Ok(UrlNote {
        url: Vec::from_slice(alloc, naming.url)?,
        frames: 1,
        mapped: u64::from(naming.mapped),
        found: naming.found,
        unmapped: place_where(naming),
    })
}

// The place of a naming, where it is unmapped.
fn place_where(naming: &Naming<'_>) -> Option<(u32, u32)>
    ensures { result ≡ place_where naming.now.unmapped naming.now.line naming.now.column }
{
    if naming.unmapped {
        Some((naming.line, naming.column))
    } else {
        None
    }
}
