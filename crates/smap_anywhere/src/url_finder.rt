//! What looks like a URL at the places of a text, found one after another.
ghost use Rattle.std.specs.Prelude.{◌≡◌, ◌<◌, ◌≤◌, ◌+◌, ◌∷◌, [], IfOk, IfSome, MatchOption, drop, false, length, nat_lt};
ghost use Rattle.smap_anywhere.specs.FoundUrls.{IsWithin, goes_on, nothing_read, url_there, urls_left, urls_waiting};
ghost use Rattle.smap_anywhere.specs.Private.UrlFinder.{HandsOut};

use crate::chunk_line::find_in_chunk;
use crate::seeming_urls::SeemingUrls;
use smap_lines::MOST_LINE_BYTES;
use smap_pairs::{LinePlaces, first_chunk, staying_bytes};
use std::alloc::{AllocError, Global};
use std::marker::Model;

/// Where the URL of a place stands in a text.
#[derive(Clone, Copy)]
pub struct FoundUrl {
    pub start: usize,
    pub length: usize,
    /// Where the place ends, behind its line and its column.
    pub next: usize,
    /// Whether each two backslashes of it are one, as it stands in a string.
    pub is_halved: bool,
}

/// Finds the places of texts over what looks like a URL. It keeps those of the chunk of the text in which it is, and room
/// for any, so that each byte is gone through once, and no call but the first takes memory.
#[derive(Drop)]
pub struct UrlFinder {
    // The places of a chunk, and how many of them were handed out.
    places: LinePlaces,
    given: usize,
    // Where that chunk begins.
    begin: usize,
    // Where the place ends that was handed out last, 0 where none was.
    next: usize,
    // Where the text goes on behind the chunk, and whether that is broken off.
    end: usize,
    is_broken: bool,
}

impl Model for UrlFinder {
    ghost use Rattle.std.specs.Prelude.{◌≡◌, ◌≤◌, ◌-◌, drop};
    ghost use Rattle.smap_anywhere.specs.FoundUrls.{FinderSeen};
    ghost use Rattle.smap_lines.specs.Limits.{most_line_bytes};
    ghost use Rattle.smap_pairs.specs.Spans.{AreSpansInOrder};

    ghost Value = { FinderSeen };

    ghost view = { λ finder. record {
      waiting = drop finder.given finder.places.places;
      begin = finder.begin;
      next = finder.next;
      end = finder.end;
      is_broken = finder.is_broken;
    } };

    ghost invariant = { λ finder. (finder.places.most_bytes ≡ most_line_bytes) × (finder.begin ≤ finder.end)
        × AreSpansInOrder 0 (finder.end - finder.begin) (drop finder.given finder.places.places) };
}

impl UrlFinder {
    /// One that found nothing yet.
    pub fn new(alloc: Global) -> Result<UrlFinder, AllocError>
        ensures { IfOk result (λ finder. finder ≡ nothing_read) }
    {
        Ok(UrlFinder {
            places: LinePlaces::with_room(alloc, MOST_LINE_BYTES)?,
            given: 0,
            begin: 0,
            next: 0,
            end: 0,
            is_broken: false,
        })
    }

    /// Finds the URL of the next place of a text, from a byte on: 0 or another at which a line begins, or `next` of the
    /// place that it found last, in the same text.
    pub fn find_next(&mut self, text: &[u8], from: usize) -> Option<FoundUrl>
        ensures found { MatchOption result (urls_left text.now from self.old ≡ [])
            (λ found. urls_left text.now from self.old
            ≡ url_there text.now found ∷ urls_left text.now found.next self.new) }
        ensures within { IfSome result (IsWithin (length text.now)) }
    {
        if !self.goes_on(text, from) {
            if text.len() < from {
                return None;
            }
            self.begin_at(from);
        }
        while !self.has_waiting() && self.end < text.len() {
            self.read_next(text);
        }
        self.hand_out()
    }

    // Whether it goes on behind the place that it found last, if this is its text.
    fn goes_on(&self, text: &[u8], from: usize) -> bool
        ensures { result ≡ goes_on text.now from self.now }
    {
        0 < from && from == self.next && self.end <= text.len()
    }

    // Begins a text anew, at a byte at which a line begins.
    fn begin_at(&mut self, from: usize)
        ensures { self.new ≡ record self.old {
          waiting = [];
          begin = from;
          end = from;
          is_broken = false;
        } }
    {
        self.given = self.places.places().len();
        self.begin = from;
        self.end = from;
        self.is_broken = false;
    }

    // Whether there are places that were not handed out.
    fn has_waiting(&self) -> bool
        ensures { result ≡ nat_lt 0 (length self.now.waiting) }
    {
        self.given < self.places.places().len()
    }

    // Finds the places of the next chunk of a text, where none waits, or goes past bytes that stay.
    fn read_next(&mut self, text: &[u8])
        requires none { self.old.waiting ≡ [] }
        requires more { self.old.end < length text.now }
        ensures left { urls_waiting text.now self.new ≡ urls_waiting text.now self.old }
        ensures same_next { self.new.next ≡ self.old.next }
        ensures reads { (self.old.end < self.new.end) × (self.new.end ≤ length text.now) }
    {
        let rest = &text[self.end..];
        if self.is_broken {
            let bytes = staying_bytes(rest);
            if bytes > 0 {
                self.end += bytes;
                self.is_broken = rest[bytes - 1] != b'\n';
                return;
            }
        }
        let Some(chunk) = first_chunk(rest, true) else {
            return;
        };
        find_in_chunk(&mut self.places, &SeemingUrls, &rest[..chunk.bytes]);
        self.given = 0;
        self.begin = self.end;
        self.end += chunk.bytes;
        self.is_broken = chunk.is_broken;
    }

    // The URL of the first place that waits, which does not wait any more.
    fn hand_out(&mut self) -> Option<FoundUrl>
        ensures out { MatchOption result ((self.old.waiting ≡ []) × (self.new ≡ self.old))
            (HandsOut self.old self.new) }
        ensures within { IfSome result (IsWithin self.old.end) }
    {
        let span = *self.places.places().get(self.given)?;
        self.given += 1;
        self.next = self.begin + span.end;
        Some(FoundUrl {
            start: self.begin + span.start,
            length: span.url_end - span.start,
            next: self.next,
            is_halved: span.is_halved,
        })
    }
}
