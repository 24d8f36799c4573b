//! How many places a line has, and how often the URLs of arguments stand in it.
ghost use Rattle.std.specs.Prelude.{◌≡◌, ◌≤◌, ◌+◌, IfOk, length, filter, map, option_map};
ghost use Rattle.smap_pairs.specs.Spans.{AreSpansInOrder};
ghost use Rattle.smap_anywhere.specs.Counted.{is_other, is_own, mentions_in, mentions_of, pair_of};
ghost use Rattle.smap_trace.specs.UrlNotes.{as_counted};

use crate::parts_writer::url_of;
use memchr::memmem;
use smap_lines::MOST_LINE_BYTES;
use smap_locations::is_rule;
use smap_pairs::{KnownUrls, LinePlaces, Span};
use smap_trace::PlaceCounter;
use std::alloc::{AllocError, Global};
use std::marker::Model;

/// Counts the places of lines over URLs that are known, and how often the URLs of arguments stand in them. Its room is made
/// once, for lines of at most 65,536 bytes.
#[derive(Drop)]
pub struct LineCounter<'k, K: KnownUrls> {
    known: &'k K,
    arguments: &'k [(String, String)],
    places: LinePlaces,
    room: Vec<u8>,
}

impl<'k, K: KnownUrls> Model for LineCounter<'k, K> {
    ghost use Rattle.std.specs.Prelude.{◌≡◌, length, map};
    ghost use Rattle.smap_anywhere.specs.Counted.{CountedOver, pair_of};
    ghost use Rattle.smap_lines.specs.Limits.{most_line_bytes};

    ghost Value = { CountedOver K };

    ghost view = { λ counter. record {
      known = counter.known.now;
      arguments = map pair_of counter.arguments.now;
    } };

    ghost invariant = { λ counter. (counter.places.most_bytes ≡ most_line_bytes) ×
        (length counter.room.items ≡ most_line_bytes) };
}

impl<'k, K: KnownUrls> LineCounter<'k, K> {
    /// One over these URLs, and these arguments, each a URL and a path, of which folders and patterns count nothing.
    pub fn new(
        alloc: Global,
        known: &'k K,
        arguments: &'k [(String, String)],
    ) -> Result<LineCounter<'k, K>, AllocError>
        ensures { IfOk result (λ counter. counter
            ≡ record { known = known.now; arguments = map pair_of arguments.now }) }
    {
        Ok(LineCounter {
            known,
            arguments,
            places: LinePlaces::with_room(alloc, MOST_LINE_BYTES)?,
            room: vec![in alloc; 0; MOST_LINE_BYTES]?,
        })
    }
}

impl<K: KnownUrls> PlaceCounter for LineCounter<'_, K> {
    ghost use Rattle.smap_anywhere.specs.Counted.{counted_in};

    ghost count = { λ counter. counted_in (K.known counter.known) counter.arguments };

    fn count_in(&mut self, own: Option<&[u8]>, line: &[u8]) -> u64 {
        match self.places.find(self.known, line) {
            Ok(()) => count_others(own, line, self.places.places(), &mut self.room),
            // There is room for the line.
            Err(_) => unreachable!(),
        }
    }

    fn count_mentions(&self, before: u64, line: &[u8]) -> u64 {
        mentions_of_all(self.arguments, before, line)
    }
}

// As many as before, and as many more as a line has URLs of these arguments.
fn mentions_of_all(arguments: &[(String, String)], before: u64, line: &[u8]) -> u64
    ensures { result ≡ as_counted (before + mentions_in (map pair_of arguments.now) line.now) }
{
    let mut count = before;
    for (url, path) in arguments {
        count = mentions_after(count, line, url, path);
    }
    count
}

// As many as before, and as many more as a line has URLs of an argument, which is no folder and no pattern.
fn mentions_after(before: u64, line: &[u8], url: &str, path: &str) -> u64
    ensures { result ≡ as_counted (before + mentions_of line.now (url.now, path.now)) }
{
    if is_rule(url, path) {
        return before;
    }
    let count = memmem::find_iter(line, url.as_bytes()).count();
    before.saturating_add(count as u64)
}

// How many of the places of a line have another URL.
fn count_others(own: Option<&[u8]>, text: &[u8], spans: &[Span], room: &mut [u8]) -> u64
    requires order { AreSpansInOrder 0 (length text.now) spans.now }
    requires room { length text.now ≤ length room.old }
    ensures count { result
        ≡ length (filter (is_other (option_map (λ url. url.now) own.entry) text.now) spans.now) }
    ensures room { length room.new ≡ length room.old }
{
    let mut count: u64 = 0;
    let mut rest = spans;
    while let Some((span, later)) = rest.split_first() {
        let url = url_of(text, span, room);
        count += u64::from(!is_own(own, url));
        rest = later;
    }
    count
}

// Whether a URL is this, where one is given.
fn is_own(own: Option<&[u8]>, url: &[u8]) -> bool
    ensures { result ≡ is_own (option_map (λ url. url.now) own.entry) url.now }
{
    match own {
        None => false,
        Some(own) => own == url,
    }
}
