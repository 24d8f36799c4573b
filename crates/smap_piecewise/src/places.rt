//! The places of a text that is rewritten piece by piece.
ghost use Rattle.std.specs.Prelude.{◌≡◌, ◌<◌, ◌≤◌, ◌+◌, ◌-◌, ◌^◌, [], IfOk, MatchBool, MatchOption, drop, false, length, option_map, take, true};
ghost use Rattle.smap_anywhere.specs.NamedParts.{begin_at};
ghost use Rattle.smap_pairs.specs.Known.{UrlsKnown};
ghost use Rattle.smap_piecewise.specs.Known.{NamedKnown, with_declared};
ghost use Rattle.smap_piecewise.specs.Places.{ArePlacesDone, ArePlacesTooLong, PlacesStopAt, whole_lines_in};
ghost use Rattle.smap_piecewise.specs.Private.Places.{AreBehind, ArePlacesWithin, IsNext, IsSound, PlaceSteps, places_seen, up_to};

use crate::given::Given;
use crate::known::KnownMaps;
use crate::put_place::put_place;
use crate::stop::Stop;
use smap_anywhere::{begin_of_part, find_in_chunk};
use smap_pairs::{KnownUrls, LinePlaces, Span, first_chunk, staying_bytes};
use smap_trace::Summary;
use std::alloc::{AllocError, Global};

/// A text whose places are rewritten: the bytes that were given and are not let go of, and how many of them are the chunk
/// that is begun, 0 where none is; how many bytes and how many places of that are done, and room for one of its URLs; the
/// URL of which it is not known what map it has, where it stopped for that; whether what stands behind the chunk does so
/// behind one that is broken off; whether the bytes begin in a line that was counted, and whether the text ends with them;
/// what was written; and what was counted.
#[derive(Drop)]
pub struct Places {
    pub given: Given,
    pub chunk: usize,
    pub from: usize,
    pub spans: LinePlaces,
    pub done: usize,
    pub room: Vec<u8>,
    pub wanted: Vec<u8>,
    pub is_wanted: bool,
    pub is_broken: bool,
    pub is_open: bool,
    pub is_ended: bool,
    pub output: Vec<u8>,
    pub counts: Summary,
}

impl Places {
    /// Goes on as far as can be decided, or up to a place of whose URL it is not known what map it has, or up to what would
    /// make the output longer than `limit`.
    pub fn go_on<U: KnownUrls, K: KnownMaps>(
        &mut self,
        alloc: Global,
        urls: &U,
        maps: &mut K,
        limit: u64,
    ) -> Result<Stop, AllocError>
        requires sound { IsSound self.old }
        requires room { ArePlacesWithin (2 ^ 64 - 1) (places_seen self.old) }
        requires few { length self.old.output.items ≤ limit }
        ensures same { K.known maps.new ≡ K.known maps.old }
        ensures same_declared { K.declared maps.new ≡ K.declared maps.old }
        ensures still { K.still maps.new ≡ K.still maps.old }
        ensures goes { PlaceSteps (U.known urls.now)
            (with_declared (K.known maps.old) (K.declared maps.old)) self.old self.new }
        ensures few { length self.new.output.items ≤ limit }
        ensures stops { IfOk result (PlacesStopAt limit
            (with_declared (K.known maps.old) (K.declared maps.old)) (places_seen self.new)) }
    {
        self.is_wanted = false;
        loop {
            if !self.goes_on(urls) {
                return Ok(Stop::Done);
            }
            if let Some(stop) = self.finish(alloc, maps, limit)? {
                return Ok(stop);
            }
        }
    }

    /// The URL of which it was not known what map it has when it went on last, where it stopped for that. Where it stands in
    /// the text with two backslashes for one, it has one.
    pub fn wanted_url(&self) -> Option<&[u8]>
        ensures { option_map (λ url. url.now) result ≡ (places_seen self.now).wanted }
    {
        if self.is_wanted {
            Some(&self.wanted)
        } else {
            None
        }
    }

    /// How many whole lines were written.
    pub fn whole_lines(&self) -> u64
        ensures { result ≡ whole_lines_in (places_seen self.now) }
    {
        self.counts.lines.saturating_sub(u64::from(self.is_open))
    }

    // Whether a chunk is begun, or the next one could be.
    #[tactic(auto, using(crate::proofs::PlaceStepLaws::step_same))]
    fn goes_on<U: KnownUrls>(&mut self, urls: &U) -> bool
        requires sound { IsSound self.old }
        requires unwanted { self.old.is_wanted ≡ false }
        ensures goes { (known : NamedKnown) →
            PlaceSteps (U.known urls.now) known self.old self.new }
        ensures same_left { self.new.given ≡ self.old.given }
        ensures same_wanted { self.new.is_wanted ≡ self.old.is_wanted }
        ensures same_output { self.new.output.items ≡ self.old.output.items }
        ensures begins { MatchBool result (0 < self.new.chunk)
            (ArePlacesDone (places_seen self.new)) }
    {
        if self.chunk > 0 {
            return true;
        }
        self.begin(urls)
    }

    // Begins the next chunk, or the bytes that stay behind one that is broken off, which have no places; unless that is not
    // decided.
    fn begin<U: KnownUrls>(&mut self, urls: &U) -> bool
        requires sound { IsSound self.old }
        requires none { self.old.chunk ≡ 0 }
        requires unwanted { self.old.is_wanted ≡ false }
        ensures goes { (known : NamedKnown) →
            PlaceSteps (U.known urls.now) known self.old self.new }
        ensures same_left { self.new.given ≡ self.old.given }
        ensures same_wanted { self.new.is_wanted ≡ self.old.is_wanted }
        ensures same_output { self.new.output.items ≡ self.old.output.items }
        ensures begins { MatchBool result (0 < self.new.chunk)
            (ArePlacesDone (places_seen self.new)) }
    {
        if self.is_broken {
            let text = self.given.bytes();
            let bytes = staying_bytes(text);
            if bytes > 0 {
                self.is_broken = text[bytes - 1] != b'\n';
                self.chunk = bytes;
                return true;
            }
        }
        let text = self.given.bytes();
        let Some(chunk) = first_chunk(text, self.is_ended) else {
            return false;
        };
        find_in_chunk(&mut self.spans, urls, &text[..chunk.bytes]);
        self.done = 0;
        self.chunk = chunk.bytes;
        self.is_broken = chunk.is_broken;
        true
    }

    // Writes what is left of the chunk that is begun, and lets go of it; or says where it stops before.
    fn finish<K: KnownMaps>(
        &mut self,
        alloc: Global,
        maps: &mut K,
        limit: u64,
    ) -> Result<Option<Stop>, AllocError>
        requires sound { IsSound self.old }
        requires begun { 0 < self.old.chunk }
        requires unwanted { self.old.is_wanted ≡ false }
        requires room { ArePlacesWithin (2 ^ 64 - 1) (places_seen self.old) }
        requires few { length self.old.output.items ≤ limit }
        ensures same { K.known maps.new ≡ K.known maps.old }
        ensures same_declared { K.declared maps.new ≡ K.declared maps.old }
        ensures still { K.still maps.new ≡ K.still maps.old }
        ensures goes { (urls : UrlsKnown) → PlaceSteps urls
            (with_declared (K.known maps.old) (K.declared maps.old)) self.old self.new }
        ensures few { length self.new.output.items ≤ limit }
        ensures ends { IfOk result (λ stop. MatchOption stop
            ((self.new.chunk ≡ 0) × (self.new.is_wanted ≡ false)
            × (length self.new.given < length self.old.given))
            (PlacesStopAt limit (with_declared (K.known maps.old) (K.declared maps.old))
            (places_seen self.new))) }
    {
        while let Some(span) = self.spans.places().get(self.done) {
            let span = *span;
            let done = self.done + 1;
            let begin = self.begin_of(&span);
            if !self.put_bytes(begin, limit)? {
                return Ok(Some(Stop::Full));
            }
            if let Some(stop) = self.put_place(alloc, maps, &span, done, limit)? {
                return Ok(Some(stop));
            }
        }
        if !self.put_bytes(self.chunk, limit)? {
            return Ok(Some(Stop::Full));
        }
        self.end_chunk();
        Ok(None)
    }

    // Where the part of the next place begins.
    fn begin_of(&self, span: &Span) -> usize
        requires within { self.now.chunk ≤ length self.now.given }
        requires next { self.now.from ≤ span.now.start }
        requires before { span.now.start ≤ self.now.chunk }
        ensures begin { result
            ≡ begin_at true (take self.now.chunk self.now.given) self.now.from span.now }
        ensures again { result
            ≡ begin_at true (take self.now.chunk self.now.given) result span.now }
        ensures behind { self.now.from ≤ result }
        ensures before { result ≤ span.now.start }
    {
        begin_of_part(&self.given.bytes()[..self.chunk], self.from, span)
    }

    // Writes the bytes of the chunk that is begun up to this one, before which no part of a place begins that is not done;
    // unless they are too many.
    fn put_bytes(&mut self, end: usize, limit: u64) -> Result<bool, AllocError>
        requires sound { IsSound self.old }
        requires after { self.old.from ≤ end }
        requires within { end ≤ self.old.chunk }
        requires behind { AreBehind (take self.old.chunk self.old.given) self.old.from end
            (places_seen self.old).waiting }
        requires few { length self.old.output.items ≤ limit }
        ensures goes { (urls : UrlsKnown) (known : NamedKnown) →
            PlaceSteps urls known self.old self.new }
        ensures few { length self.new.output.items ≤ limit }
        ensures put { IfOk result (λ is_put. MatchBool is_put
            (places_seen self.new ≡ up_to (places_seen self.old) end)
            ((known : NamedKnown) → ArePlacesTooLong limit known (places_seen self.new))) }
        ensures same_done { self.new.done ≡ self.old.done }
        ensures same_wanted { self.new.is_wanted ≡ self.old.is_wanted }
    {
        let text = &self.given.bytes()[..self.chunk];
        let bytes = &text[self.from..end];
        if bytes.len() as u64 > limit - self.output.len() as u64 {
            return Ok(false);
        }
        self.output.extend_from_slice(bytes)?;
        self.from = end;
        Ok(true)
    }

    // Writes what becomes of the next place and of the function of its frame, with which so many are done, and before which
    // all is; or says where it stops before.
    fn put_place<K: KnownMaps>(
        &mut self,
        alloc: Global,
        maps: &mut K,
        span: &Span,
        done: usize,
        limit: u64,
    ) -> Result<Option<Stop>, AllocError>
        requires sound { IsSound self.old }
        requires next { IsNext span.now (places_seen self.old) }
        requires done { done ≡ self.old.done + 1 }
        requires here { self.old.from
            ≡ begin_at true (take self.old.chunk self.old.given) self.old.from span.now }
        requires after { self.old.from ≤ span.now.start }
        requires unwanted { self.old.is_wanted ≡ false }
        requires room { ArePlacesWithin (2 ^ 64 - 1) (places_seen self.old) }
        requires few { length self.old.output.items ≤ limit }
        ensures same { K.known maps.new ≡ K.known maps.old }
        ensures same_declared { K.declared maps.new ≡ K.declared maps.old }
        ensures still { K.still maps.new ≡ K.still maps.old }
        ensures goes { (urls : UrlsKnown) → PlaceSteps urls
            (with_declared (K.known maps.old) (K.declared maps.old)) self.old self.new }
        ensures same_left { self.new.given ≡ self.old.given }
        ensures same_chunk { self.new.chunk ≡ self.old.chunk }
        ensures few { length self.new.output.items ≤ limit }
        ensures ends { IfOk result (λ stop. MatchOption stop ((self.new.is_wanted ≡ false)
            × (length (places_seen self.new).waiting < length (places_seen self.old).waiting))
            (PlacesStopAt limit (with_declared (K.known maps.old) (K.declared maps.old))
            (places_seen self.new))) }
    {
        let text = &self.given.bytes()[..self.chunk];
        let written = self.output.len();
        let put = put_place(
            alloc,
            maps,
            text,
            self.from,
            span,
            &mut self.room,
            &mut self.wanted,
            &mut self.output,
        )?;
        let Some(is_mapped) = put else {
            self.is_wanted = true;
            return Ok(Some(Stop::Wanted));
        };
        if self.output.len() as u64 > limit {
            self.output.truncate(written);
            return Ok(Some(Stop::Full));
        }
        self.counts.frames += 1;
        self.counts.mapped += u64::from(is_mapped);
        self.from = span.end;
        self.done = done;
        Ok(None)
    }

    // Lets go of the chunk that is begun, of which all is done.
    fn end_chunk(&mut self)
        requires sound { IsSound self.old }
        requires begun { 0 < self.old.chunk }
        requires room { ArePlacesWithin (2 ^ 64 - 1) (places_seen self.old) }
        requires all { self.old.from ≡ self.old.chunk }
        requires none_waits { (places_seen self.old).waiting ≡ [] }
        ensures goes { (urls : UrlsKnown) (known : NamedKnown) →
            PlaceSteps urls known self.old self.new }
        ensures same_output { self.new.output.items ≡ self.old.output.items }
        ensures ended { self.new.chunk ≡ 0 }
        ensures left { self.new.given ≡ drop self.old.chunk self.old.given }
        ensures same_wanted { self.new.is_wanted ≡ self.old.is_wanted }
    {
        self.counts.lines += u64::from(!self.is_open);
        self.is_open = self.given.bytes()[self.chunk - 1] != b'\n';
        self.given.cut(self.chunk);
        self.chunk = 0;
        self.from = 0;
    }
}
