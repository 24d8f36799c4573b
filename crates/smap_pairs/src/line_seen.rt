//! A line of which is seen what its bytes count as, and the places of it.
ghost use Rattle.std.specs.Prelude.{◌≡◌, ◌≤◌, ◌+◌, Some, IfOk, IfSome, IsOk, length, option_copied, vec_capacity};
ghost use Rattle.std.specs.List.{All, slice_get};
ghost use Rattle.smap_pairs.specs.Behind.{HasRoom, KeepsRoom, most_noted};
ghost use Rattle.smap_pairs.specs.LinePlaces.{IsLineSeen, IsLineWithin, frame_at, frame_in, frame_span, has_frame_url, of_pair, or_else, pair_place, places_in, start_of, whole_line};
ghost use Rattle.smap_pairs.specs.VirtualLines.{line_of_byte};

use crate::behind::Behind;
use crate::frame_url::{is_for_folder, is_for_pattern};
use crate::halved::{halve_into, has_doubled};
use crate::known::{KnownUrls, NamedBy};
use crate::line_places::{Span, in_frame, span_of};
use crate::named::Sought;
use crate::pair_at::pair_at;
use crate::pairs::Pair;
use crate::seen::SeenByte;
use crate::virtual_lines::{VirtualLine, line_of_byte};
use crate::word::begin_by_word;
use std::alloc::AllocError;

/// A line, what its bytes count as, its strings and the lines in them, and its pairs.
#[derive(Clone, Copy)]
pub struct LineSeen<'l> {
    pub text: &'l [u8],
    pub seen: &'l [SeenByte],
    pub strings: &'l [VirtualLine],
    pub lines: &'l [VirtualLine],
    pub pairs: &'l [Pair],
}

// One of several lines, and the place of the frame that it is, where its URL has a map.
#[derive(Clone, Copy)]
struct Framed {
    index: usize,
    place: Option<Span>,
}

impl LineSeen<'_> {
    /// Puts the places of the line in the place of what `places` has. Where the URL stands of the frame that the line is, if
    /// it is one, is known.
    pub fn find_places<K: KnownUrls>(
        &self,
        known: &K,
        url: Option<(usize, usize)>,
        behind: &mut Behind,
        halves: &mut Vec<u8>,
        places: &mut Vec<Span>,
    ) -> Result<(), AllocError>
        requires seen { IsLineSeen self.now }
        requires url { (K.known known.now).frame_url self.now.text.now ≡ url }
        requires within { IfSome url (λ url. (url.0 ≤ url.1) × (url.1 ≤ length self.now.text.now)) }
        ensures places { IfOk result (λ _. places.new.items
            ≡ places_in (K.known known.now) self.now.text.now self.now.seen.now) }
        ensures room { HasRoom (most_noted (length self.now.text.now)) behind.old →
            length self.now.text.now ≤ vec_capacity halves.old →
            length self.now.pairs.now ≤ vec_capacity places.old → IsOk result }
        ensures keeps_room { KeepsRoom behind.old behind.new }
        ensures halves { vec_capacity halves.old ≤ vec_capacity halves.new }
        ensures capacity { vec_capacity places.old ≤ vec_capacity places.new }
    {
        places.clear();
        let in_line = self.whole_frame(known, url, halves)?;
        let first = self.frame_in(known, self.strings.first().copied(), halves)?;
        let mut string = Framed {
            index: 0,
            place: first,
        };
        let first = self.frame_in(known, self.lines.first().copied(), halves)?;
        let mut line = Framed {
            index: 0,
            place: first,
        };
        let mut rest = self.pairs;
        while let Some((pair, later)) = rest.split_first() {
            string = self.frame_with(known, self.strings, string, pair.start, halves)?;
            line = self.frame_with(known, self.lines, line, pair.start, halves)?;
            if let Some(place) = self.place_of(known, in_line, string.place, line, pair, behind)? {
                places.push(place)?;
            }
            rest = later;
        }
        Ok(())
    }

    // The place of a pair, where the frame of the whole line is known, that of its string, and its line with that of it.
    fn place_of<K: KnownUrls>(
        &self,
        known: &K,
        in_line: Option<Span>,
        in_string: Option<Span>,
        line: Framed,
        pair: &Pair,
        behind: &mut Behind,
    ) -> Result<Option<Span>, AllocError>
        requires seen { IsLineSeen self.now }
        requires piece { pair.now.piece ≤ pair.now.start }
        requires within { pair.now.start ≤ length self.now.text.now }
        ensures place { IfOk result (λ place. place ≡ or_else in_line pair.now
            (or_else in_string pair.now (or_else line.place pair.now
            (pair_place (K.known known.now) self.now.text.now self.now.seen.now
            (start_of (slice_get self.now.lines.now line.index)) pair.now)))) }
        ensures room { HasRoom (most_noted (length self.now.text.now)) behind.old → IsOk result }
        ensures keeps_room { KeepsRoom behind.old behind.new }
    {
        match in_line.or(in_string).or(line.place) {
            Some(frame) => Ok(of_pair(frame, pair)),
            None => self.pair_place(known, start_of(self.lines.get(line.index)), pair, behind),
        }
    }

    // The line that has a byte, of several, where it is not before one of them, whose place is known.
    fn frame_with<K: KnownUrls>(
        &self,
        known: &K,
        lines: &[VirtualLine],
        before: Framed,
        byte: usize,
        halves: &mut Vec<u8>,
    ) -> Result<Framed, AllocError>
        requires seen { IsLineSeen self.now }
        requires within { All (IsLineWithin (length self.now.text.now)) lines.now }
        requires low { before.index ≤ line_of_byte lines.now byte }
        requires frame { before.place ≡ frame_in (K.known known.now) self.now.text.now
            self.now.seen.now self.now.pairs.now (slice_get lines.now before.index) }
        ensures index { IfOk result (λ framed. framed.index ≡ line_of_byte lines.now byte) }
        ensures frame { IfOk result (λ framed. framed.place ≡ frame_in (K.known known.now)
            self.now.text.now self.now.seen.now self.now.pairs.now
            (slice_get lines.now framed.index)) }
        ensures room { length self.now.text.now ≤ vec_capacity halves.old → IsOk result }
        ensures capacity { vec_capacity halves.old ≤ vec_capacity halves.new }
    {
        let index = line_of_byte(lines, before.index, byte);
        if index == before.index {
            return Ok(before);
        }
        let place = self.frame_in(known, lines.get(index).copied(), halves)?;
        Ok(Framed { index, place })
    }

    // The place of the frame that the whole line is, where its URL has a map.
    fn whole_frame<K: KnownUrls>(
        &self,
        known: &K,
        url: Option<(usize, usize)>,
        halves: &mut Vec<u8>,
    ) -> Result<Option<Span>, AllocError>
        requires seen { IsLineSeen self.now }
        requires url { (K.known known.now).frame_url self.now.text.now ≡ url }
        requires within { IfSome url (λ url. (url.0 ≤ url.1) × (url.1 ≤ length self.now.text.now)) }
        ensures place { IfOk result (λ place. place ≡ frame_in (K.known known.now) self.now.text.now
            self.now.seen.now self.now.pairs.now (Some (whole_line (length self.now.text.now)))) }
        ensures room { length self.now.text.now ≤ vec_capacity halves.old → IsOk result }
        ensures capacity { vec_capacity halves.old ≤ vec_capacity halves.new }
    {
        let line = VirtualLine {
            start: 0,
            end: self.text.len(),
            unit: 0,
        };
        self.frame_at(known, line, url, halves)
    }

    // The place of the frame that a virtual line is, where its URL has a map.
    fn frame_in<K: KnownUrls>(
        &self,
        known: &K,
        line: Option<VirtualLine>,
        halves: &mut Vec<u8>,
    ) -> Result<Option<Span>, AllocError>
        requires seen { IsLineSeen self.now }
        requires within { IfSome line (IsLineWithin (length self.now.text.now)) }
        ensures place { IfOk result (λ place. place ≡ frame_in (K.known known.now) self.now.text.now
            self.now.seen.now self.now.pairs.now line) }
        ensures room { length self.now.text.now ≤ vec_capacity halves.old → IsOk result }
        ensures capacity { vec_capacity halves.old ≤ vec_capacity halves.new }
    {
        let Some(line) = line else {
            return Ok(None);
        };
        let url = known.frame_url(&self.text[line.start..line.end]);
        self.frame_at(known, line, url, halves)
    }

    // The place of a frame whose URL stands from a byte of a virtual line to another, if it is one, where that has a map.
    fn frame_at<K: KnownUrls>(
        &self,
        known: &K,
        line: VirtualLine,
        url: Option<(usize, usize)>,
        halves: &mut Vec<u8>,
    ) -> Result<Option<Span>, AllocError>
        requires seen { IsLineSeen self.now }
        requires within { IfSome url (λ url. (url.0 ≤ url.1)
            × (line.start + url.1 ≤ length self.now.text.now)) }
        ensures place { IfOk result (λ place. place ≡ frame_at (K.known known.now) self.now.text.now
            self.now.seen.now self.now.pairs.now line url) }
        ensures room { length self.now.text.now ≤ vec_capacity halves.old → IsOk result }
        ensures capacity { vec_capacity halves.old ≤ vec_capacity halves.new }
    {
        let Some((start, end)) = url else {
            return Ok(None);
        };
        match pair_at(self.pairs, self.text.len(), line.start + end) {
            Some(pair) => self.frame_span(known, line, &pair, line.start + start, halves),
            None => Ok(None),
        }
    }

    // The place of a frame whose URL runs from a byte up to a pair, where it has a map.
    fn frame_span<K: KnownUrls>(
        &self,
        known: &K,
        line: VirtualLine,
        pair: &Pair,
        start: usize,
        halves: &mut Vec<u8>,
    ) -> Result<Option<Span>, AllocError>
        requires low { line.start ≤ start }
        requires start { start ≤ pair.now.start }
        requires end { pair.now.start ≤ length self.now.text.now }
        requires seen { pair.now.start ≤ length self.now.seen.now }
        ensures place { IfOk result (λ place. place ≡ frame_span (K.known known.now)
            self.now.text.now self.now.seen.now line pair.now start) }
        ensures room { length self.now.text.now ≤ vec_capacity halves.old → IsOk result }
        ensures capacity { vec_capacity halves.old ≤ vec_capacity halves.new }
    {
        let url = &self.text[start..pair.start];
        if 0 < line.unit && has_doubled(url) {
            halve_into(url, halves)?;
            if self.has_frame_url(known, line, pair, start, halves) {
                let place = span_of(pair, start, pair.start, true);
                return Ok(Some(in_frame(line.start, place)));
            }
        }
        if self.has_frame_url(known, line, pair, start, url) {
            let place = span_of(pair, start, pair.start, false);
            return Ok(Some(in_frame(line.start, place)));
        }
        Ok(None)
    }

    // Whether the URL of a frame has a map.
    fn has_frame_url<K: KnownUrls>(
        &self,
        known: &K,
        line: VirtualLine,
        pair: &Pair,
        start: usize,
        url: &[u8],
    ) -> bool
        requires low { line.start ≤ start }
        requires start { start ≤ pair.now.start }
        requires seen { pair.now.start ≤ length self.now.seen.now }
        ensures { result ≡ has_frame_url (K.known known.now) self.now.text.now
            self.now.seen.now line pair.now start url.now }
    {
        let is_own = known.has_own(url)
            && (known.is_name(url) || is_for_folder(self.seen, start, pair));
        is_own || (is_for_pattern(self.seen, line.start, start, pair) && known.has_pattern(url))
    }

    // The place of a pair that is in no frame, in the virtual line that begins at a byte.
    #[tactic(auto, unfolding(crate::specs::LinePlaces::pair_place))]
    fn pair_place<K: KnownUrls>(
        &self,
        known: &K,
        line_start: usize,
        pair: &Pair,
        behind: &mut Behind,
    ) -> Result<Option<Span>, AllocError>
        requires seen { IsLineSeen self.now }
        requires piece { pair.now.piece ≤ pair.now.start }
        requires within { pair.now.start ≤ length self.now.text.now }
        ensures place { IfOk result (λ place. place ≡ pair_place (K.known known.now)
            self.now.text.now self.now.seen.now line_start pair.now) }
        ensures room { HasRoom (most_noted (length self.now.text.now)) behind.old → IsOk result }
        ensures keeps_room { KeepsRoom behind.old behind.new }
    {
        behind.note(
            &self.text[..pair.start],
            &self.seen[..pair.start],
            pair.piece,
        )?;
        let sought = Sought {
            known,
            text: self.text,
            seen: self.seen,
            behind,
            piece: pair.piece,
            end: pair.start,
        };
        let own = sought.own_bytes();
        if own != 0 {
            return Ok(Some(span_of(pair, pair.start - own, pair.start, false)));
        }
        let begin = begin_by_word(self.seen, line_start, pair);
        if begin < pair.start && known.has_pattern(&self.text[begin..pair.start]) {
            return Ok(Some(span_of(pair, begin, pair.start, false)));
        }
        let cut = sought.longest_cut(NamedBy::Argument);
        if cut == 0 {
            return Ok(None);
        }
        let query = sought.query_of(NamedBy::Argument, cut);
        Ok(Some(span_of(pair, pair.start - cut, query, false)))
    }
}

// A frame has its own pair alone.
fn of_pair(frame: Span, pair: &Pair) -> Option<Span>
    ensures { result ≡ of_pair frame pair.now }
{
    if frame.url_end == pair.start {
        Some(frame)
    } else {
        None
    }
}

// Where a line begins, where there is one.
fn start_of(line: Option<&VirtualLine>) -> usize
    ensures { result ≡ start_of (option_copied line.entry) }
{
    match line {
        Some(line) => line.start,
        None => 0,
    }
}
