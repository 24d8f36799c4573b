//! The places of a line.
ghost use Rattle.std.specs.Prelude.{◌≡◌, ◌≤◌, ◌<◌, IfOk, IsOk, length, vec_capacity};
ghost use Rattle.smap_pairs.specs.LinePlaces.{in_frame, places_in, span_of};
ghost use Rattle.smap_pairs.specs.Seen.{seen_of};
ghost use Rattle.smap_pairs.specs.Spans.{AreSpansInOrder, none_found};

use crate::behind::Behind;
use crate::known::KnownUrls;
use crate::line_seen::LineSeen;
use crate::marks::{Mark, marks_into};
use crate::pairs::{Pair, pairs_in_line};
use crate::seen::{SeenByte, see_into};
use crate::virtual_lines::{VirtualLine, lines_of_strings_into, virtual_lines_into};
use crate::whole_frame::whole_frame;
use std::alloc::{AllocError, Global};
use std::marker::Model;

/// A place in a line: from which byte to which it stands, where its URL ends, its line and its column, which count from 1,
/// and whether each two backslashes of its URL are one; and where the frame begins that it is the place of, or where it does
/// itself.
#[derive(Clone, Copy)]
pub struct Span {
    pub frame_start: usize,
    pub start: usize,
    pub url_end: usize,
    pub end: usize,
    pub line: u32,
    pub column: u32,
    pub is_halved: bool,
}

/// The places of a line, and room for what is seen of it, which is kept from line to line.
#[derive(Drop)]
pub struct LinePlaces {
    // How many bytes a line has at most for which there is room in all.
    most_bytes: usize,
    seen: Vec<SeenByte>,
    marks: Vec<Mark>,
    strings: Vec<VirtualLine>,
    lines: Vec<VirtualLine>,
    pairs: Vec<Pair>,
    behind: Behind,
    halves: Vec<u8>,
    places: Vec<Span>,
}

impl Model for LinePlaces {
    ghost use Rattle.std.specs.Prelude.{◌≤◌, ◌<◌, vec_capacity};
    ghost use Rattle.smap_pairs.specs.Behind.{HasRoom, most_noted};
    ghost use Rattle.smap_pairs.specs.Spans.{FoundPlaces};

    ghost Value = { FoundPlaces };

    ghost view = { λ line. record { places = line.places.items; most_bytes = line.most_bytes } };

    ghost invariant = { λ line. (line.most_bytes ≤ vec_capacity line.seen)
        × (line.most_bytes ≤ vec_capacity line.marks)
        × (line.most_bytes < vec_capacity line.strings)
        × (line.most_bytes < vec_capacity line.lines)
        × (line.most_bytes ≤ vec_capacity line.pairs)
        × HasRoom (most_noted line.most_bytes) line.behind
        × (line.most_bytes ≤ vec_capacity line.halves)
        × (line.most_bytes ≤ vec_capacity line.places) };
}

impl LinePlaces {
    /// Of no line, with room for lines of at most so many bytes.
    pub fn with_room(alloc: Global, most_bytes: usize) -> Result<LinePlaces, AllocError>
        ensures { IfOk result (λ line. line ≡ none_found most_bytes) }
    {
        let Some(most_lines) = most_bytes.checked_add(1) else {
            return Err(AllocError);
        };
        Ok(LinePlaces {
            most_bytes,
            seen: Vec::with_capacity(alloc, most_bytes)?,
            marks: Vec::with_capacity(alloc, most_bytes)?,
            strings: Vec::with_capacity(alloc, most_lines)?,
            lines: Vec::with_capacity(alloc, most_lines)?,
            pairs: Vec::with_capacity(alloc, most_bytes)?,
            behind: Behind::with_room(alloc, most_bytes)?,
            halves: Vec::with_capacity(alloc, most_bytes)?,
            places: Vec::with_capacity(alloc, most_bytes)?,
        })
    }

    /// Finds the places of a line. Where it has a pair, and is no frame whose URL is named or plain, each byte of it is gone
    /// through a few times, and those before a pair, at most 2,048 of its piece, once for it. Names are looked up at the
    /// pair and at each query before it, once for each length that they have; prefixes of folders at each byte of the whole
    /// piece behind which a URL may begin, once for each length of theirs. No memory is asked for where the line has no more
    /// bytes than there is room for.
    #[tactic(auto, using(crate::proofs::FewLaws::few))]
    pub fn find<K: KnownUrls>(&mut self, known: &K, text: &[u8]) -> Result<(), AllocError>
        ensures places { IfOk result (λ _. self.new.places
            ≡ places_in (K.known known.now) text.now (seen_of text.now)) }
        ensures order { IfOk result (λ _. AreSpansInOrder 0 (length text.now) self.new.places) }
        ensures room { length text.now ≤ self.old.most_bytes → IsOk result }
        ensures same_room { self.new.most_bytes ≡ self.old.most_bytes }
    {
        self.places.clear();
        pairs_in_line(text, &mut self.pairs)?;
        if self.pairs.is_empty() {
            return Ok(());
        }
        let url = known.frame_url(text);
        if let Some(place) = whole_frame(known, text, url, &self.pairs) {
            self.places.push(place)?;
            return Ok(());
        }
        see_into(text, &mut self.seen)?;
        marks_into(&self.seen, &mut self.marks)?;
        lines_of_strings_into(&self.seen, &self.marks, &mut self.strings)?;
        virtual_lines_into(&self.seen, &self.marks, &mut self.lines)?;
        let line = LineSeen {
            text,
            seen: &self.seen,
            strings: &self.strings,
            lines: &self.lines,
            pairs: &self.pairs,
        };
        line.find_places(
            known,
            url,
            &mut self.behind,
            &mut self.halves,
            &mut self.places,
        )
    }

    /// The places that were found, in their order.
    pub fn places(&self) -> &[Span]
        ensures { result.now ≡ self.now.places }
    {
        &self.places
    }
}

/// The place of a pair whose URL stands from a byte to another, in no frame.
pub fn span_of(pair: &Pair, start: usize, url_end: usize, is_halved: bool) -> Span
    ensures { result ≡ span_of pair.now start url_end is_halved }
{
    Span {
        frame_start: start,
        start,
        url_end,
        end: pair.end,
        line: pair.line,
        column: pair.column,
        is_halved,
    }
}

/// A place as that of the frame which begins at a byte.
pub fn in_frame(begin: usize, span: Span) -> Span
    ensures { result ≡ in_frame begin span }
{
    Span {
        frame_start: begin,
        ..span
    }
}
