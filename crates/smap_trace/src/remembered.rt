//! Answers that come again.
ghost use Rattle.std.specs.Prelude.{◌≡◌, [], Some, IfSome, true, option_map};
ghost use Rattle.smap_trace.specs.MapsOf.{MapsByUrl};
ghost use Rattle.smap_record.specs.Record.{MapRecord};
ghost use Rattle.smap_trace.specs.Private.Remembered.{IsRemembered, IsUrlAt, StaysRight, is_answer, is_right, origin_at, url_text};
ghost use Rattle.smap_trace.specs.Rewritten.{original_at};
ghost use Rattle.smap_trace.specs.SightSeen.{original_seen};

use crate::original::{KnownOrigin, Original, origin_at, original_from};
use smap_record::ReadyMap;
use std::alloc::Global;

// How many places are remembered at most, and at first.
const MOST_PLACES: usize = 16384;

const FIRST_PLACES: usize = 64;

// How many URLs their places name, and how many bytes one has at most.
const MOST_URLS: usize = 256;

const MOST_URL_BYTES: usize = 252;

// After how many places that come for the first time, while none comes again, nothing is remembered for a while; how many of
// them one that comes again makes up for, as looking it up would cost so much more than remembering one did; and for how
// many places nothing is remembered then.
const MOST_PATIENCE: u32 = 4096;

const WORTH: u32 = 4;

const MOST_REST: u32 = 65536;

// A URL: its first `len` bytes.
#[derive(Clone, Copy)]
pub struct RememberedUrl {
    pub len: usize,
    pub bytes: [u8; MOST_URL_BYTES],
}

// A place, whose URL has this number, and its origin. Where the line is 0, nothing is remembered.
#[derive(Clone, Copy)]
pub struct RememberedPlace {
    pub url: u32,
    pub line: u32,
    pub column: u32,
    pub origin: Option<KnownOrigin>,
}

const NO_PLACE: RememberedPlace = RememberedPlace {
    url: 0,
    line: 0,
    column: 0,
    origin: None,
};

/// Where places come from that were asked for before, so that they are not looked up again. All room is made at first; and
/// what falls on a taken place replaces it. Where few come again, all are looked up for a while, and none is remembered.
#[derive(Drop)]
pub struct Remembered {
    pub places: Vec<RememberedPlace>,
    pub urls: Vec<RememberedUrl>,
    // How many places were put since there was room for so many.
    pub stored: usize,
    // The number of the URL that was remembered last.
    pub recent: u32,
    // The number that a URL may have, by some of its bytes.
    pub hints: [u8; 256],
    // How many places may come for the first time until nothing is remembered for a while, if none comes again.
    pub patience: u32,
    // For how many places nothing is remembered.
    pub rest: u32,
}

impl Remembered {
    /// Nothing is remembered. Where there is no memory for it, nothing will be.
    pub fn new(alloc: Global) -> Remembered
        ensures { result.places.items ≡ [] }
    {
        let (Ok(places), Ok(urls)) = (
            Vec::with_capacity(alloc, MOST_PLACES),
            Vec::with_capacity(alloc, MOST_URLS),
        ) else {
            return Remembered::with_room(Vec::new(alloc), Vec::new(alloc));
        };
        Remembered::with_room(places, urls)
    }

    // Nothing is remembered, and there is so much room for it.
    fn with_room(places: Vec<RememberedPlace>, urls: Vec<RememberedUrl>) -> Remembered
        ensures { result.places.items ≡ places.items }
    {
        Remembered {
            places,
            urls,
            stored: 0,
            recent: 0,
            hints: [0; 256],
            patience: MOST_PATIENCE,
            rest: 0,
        }
    }

    /// Forgets everything.
    pub fn forget(&mut self)
        ensures { self.new.places.items ≡ [] }
    {
        self.places.clear();
        self.urls.clear();
    }

    /// Where a place comes from, if the map of its URL has an origin for it. The line and the column are as printed, from 1.
    pub fn original_at<'t>(
        &mut self,
        alloc: Global,
        map: &'t ReadyMap,
        url: &[u8],
        line: u32,
        column: u32,
    ) -> Option<Original<'t>>
        ensures original { (maps : MapsByUrl) → maps url.now ≡ Some map.now.stated →
            is_right maps self.old ≡ true →
            option_map original_seen result ≡ original_at map.now.stated line column }
        ensures right { (maps : MapsByUrl) → maps url.now ≡ Some map.now.stated →
            StaysRight maps self.old self.new }
    {
        original_from(map, self.origin_at(alloc, map, url, line, column))
    }

    // The origin of such a place.
    fn origin_at(
        &mut self,
        alloc: Global,
        map: &ReadyMap,
        url: &[u8],
        line: u32,
        column: u32,
    ) -> Option<KnownOrigin>
        ensures origin { (maps : MapsByUrl) → maps url.now ≡ Some map.now.stated →
            is_right maps self.old ≡ true → result ≡ origin_at map.now.stated line column }
        ensures right { (maps : MapsByUrl) → maps url.now ≡ Some map.now.stated →
            StaysRight maps self.old self.new }
    {
        if self.rests() {
            return origin_at(alloc, map, line, column);
        }
        let index = self.index_of(url, line, column);
        if let Some(origin) = self.recall(index, url, line, column) {
            self.came_again();
            return origin;
        }
        self.came_first();
        let origin = origin_at(alloc, map, line, column);
        self.remember(index, url, line, column, origin);
        origin
    }

    // Whether nothing is remembered for now, which is so for one place less from then on.
    fn rests(&mut self) -> bool
        ensures { (maps : MapsByUrl) → StaysRight maps self.old self.new }
    {
        let rests = self.rest > 0;
        self.rest = self.rest.saturating_sub(1);
        rests
    }

    // Counts a place that came again.
    fn came_again(&mut self)
        ensures { (maps : MapsByUrl) → StaysRight maps self.old self.new }
    {
        self.patience = self.patience.saturating_add(WORTH).min(MOST_PATIENCE);
    }

    // Counts a place that came for the first time.
    fn came_first(&mut self)
        ensures { (maps : MapsByUrl) → StaysRight maps self.old self.new }
    {
        self.patience = self.patience.saturating_sub(1);
        if self.patience == 0 {
            self.patience = MOST_PATIENCE;
            self.rest = MOST_REST;
        }
    }

    // The index at which a place would stand. Any would do: places that stand at the same replace each other.
    fn index_of(&self, url: &[u8], line: u32, column: u32) -> usize {
        let mixed = line
            .wrapping_mul(0x9E37_79B1)
            .wrapping_add(column.wrapping_mul(0x85EB_CA6B));
        ((mixed >> 16) as usize ^ url.len()) & self.places.len().wrapping_sub(1)
    }

    // The origin of a place that is remembered at an index.
    fn recall(
        &self,
        index: usize,
        url: &[u8],
        line: u32,
        column: u32,
    ) -> Option<Option<KnownOrigin>>
        ensures { IfSome result (IsRemembered self.now url.now line column) }
    {
        let place = self.places.get(index)?;
        if place.line == 0 || place.line != line || place.column != column {
            return None;
        }
        if self.is_url(place.url, url) {
            Some(place.origin)
        } else {
            None
        }
    }

    // Whether a URL is remembered under a number.
    fn is_url(&self, number: u32, url: &[u8]) -> bool
        ensures { result ≡ true → IsUrlAt self.now url.now number }
    {
        match self.urls.get(number as usize) {
            Some(known) => is_text(known, url),
            None => false,
        }
    }

    // Remembers the origin of a place, at an index.
    fn remember(
        &mut self,
        index: usize,
        url: &[u8],
        line: u32,
        column: u32,
        origin: Option<KnownOrigin>,
    )
        ensures { (maps : MapsByUrl) (stated : MapRecord) → maps url.now ≡ Some stated →
            origin ≡ origin_at stated line column → StaysRight maps self.old self.new }
    {
        let Some(number) = self.number_of(url) else {
            return;
        };
        self.grow();
        let place = RememberedPlace {
            url: number,
            line,
            column,
            origin,
        };
        self.put(index, place);
    }

    // Puts a place at an index, where there is room.
    fn put(&mut self, index: usize, place: RememberedPlace)
        ensures { (maps : MapsByUrl) → is_answer maps self.old.urls.items place ≡ true →
            StaysRight maps self.old self.new }
    {
        if let Some(taken) = self.places.get_mut(index) {
            *taken = place;
        }
    }

    // Makes room for twice as many places, where as many were put as there is room for.
    fn grow(&mut self)
        ensures urls { self.new.urls.items ≡ self.old.urls.items }
        ensures right { (maps : MapsByUrl) → StaysRight maps self.old self.new }
    {
        let room = self.places.len();
        self.stored = self.stored.saturating_add(1);
        if self.stored < room || room >= self.places.capacity() {
            return;
        }
        self.stored = 0;
        let more = room.saturating_mul(2).max(FIRST_PLACES);
        let _ = self.places.resize(more, NO_PLACE);
    }

    // The number of a URL, which is remembered from now on; `None` where it is too long.
    fn number_of(&mut self, url: &[u8]) -> Option<u32>
        ensures number { IfSome result (IsUrlAt self.new url.now) }
        ensures right { (maps : MapsByUrl) → StaysRight maps self.old self.new }
    {
        if self.is_url(self.recent, url) {
            return Some(self.recent);
        }
        let hint = hint_of(url) as usize;
        let hinted = u32::from(self.hints[hint]);
        if self.is_url(hinted, url) {
            self.recent = hinted;
            return Some(hinted);
        }
        let number = self.add_url(url)?;
        self.hints[hint] = number;
        self.recent = u32::from(number);
        Some(u32::from(number))
    }

    // Remembers a URL, and says its number. Where there is no room, everything else is forgotten.
    fn add_url(&mut self, url: &[u8]) -> Option<u8>
        ensures number { IfSome result (IsUrlAt self.new url.now) }
        ensures right { (maps : MapsByUrl) → StaysRight maps self.old self.new }
    {
        let known = known_url(url)?;
        self.make_room();
        let number = u8::try_from(self.urls.len()).ok()?;
        if self.urls.len() >= self.urls.capacity() {
            return None;
        }
        match self.urls.push(known) {
            Ok(()) => Some(number),
            Err(_) => None,
        }
    }

    // Forgets everything where there is no room for a URL more.
    fn make_room(&mut self)
        ensures { (maps : MapsByUrl) → StaysRight maps self.old self.new }
    {
        if self.urls.len() >= self.urls.capacity() {
            self.forget();
        }
    }
}

// Whether a URL is this text.
fn is_text(known: &RememberedUrl, text: &[u8]) -> bool
    ensures { result ≡ true → url_text known.now ≡ text.now }
{
    known.len == text.len() && known.len <= MOST_URL_BYTES && &known.bytes[..known.len] == text
}

// A URL that is not too long.
fn known_url(text: &[u8]) -> Option<RememberedUrl>
    ensures { IfSome result (λ known. url_text known ≡ text.now) }
{
    if text.len() > MOST_URL_BYTES {
        return None;
    }
    let mut bytes = [0; MOST_URL_BYTES];
    bytes[..text.len()].copy_from_slice(text);
    Some(RememberedUrl {
        len: text.len(),
        bytes,
    })
}

// A number of some of a URL's last bytes.
fn hint_of(url: &[u8]) -> u8 {
    let mut hint: u8 = 0;
    for byte in &url[url.len().saturating_sub(12)..] {
        hint = hint.wrapping_mul(31).wrapping_add(*byte);
    }
    hint
}
