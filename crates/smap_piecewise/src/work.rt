//! What is done with a text that is rewritten piece by piece.
ghost use Rattle.std.specs.Prelude.{◌≡◌, ◌≤◌, ◌-◌, ◌^◌, [], IfOk, OnOk, length, option_map, true};
ghost use Rattle.smap_trace.specs.Rewriting.{counts_seen};
ghost use Rattle.smap_piecewise.specs.Known.{with_declared};
ghost use Rattle.smap_piecewise.specs.Work.{WorkStopsAt, counts_of, is_of_places, output_of, wanted_url, whole_lines_of, with_end, without_output};
ghost use Rattle.smap_piecewise.specs.Private.Work.{IsWorkSound, IsWorkWithin, TakesFrom, WorkSteps, work_seen};

use crate::frames::Frames;
use crate::known::KnownMaps;
use crate::places::Places;
use crate::stop::Stop;
use crate::stripping::Stripping;
use smap_pairs::KnownUrls;
use smap_trace::Summary;
use std::alloc::{AllocError, Global};

/// The frames or the places of a text.
#[derive(Drop)]
pub enum Work {
    Frames(Frames),
    Places(Places),
}

impl Work {
    pub fn is_of_places(&self) -> bool
        ensures { result ≡ is_of_places (work_seen self.now) }
    {
        match self {
            Work::Frames(_) => false,
            Work::Places(_) => true,
        }
    }

    /// Takes the bytes that can be told of those that may stand in control sequences.
    pub fn take_from(&mut self, stripping: &mut Stripping, is_ended: bool) -> Result<(), AllocError>
        ensures takes { TakesFrom is_ended stripping.old stripping.new (work_seen self.old)
            (work_seen self.new) }
        ensures sound { IsWorkSound self.old → IsWorkSound self.new }
        ensures ended { OnOk result (is_ended ≡ true → stripping.new.held ≡ []) }
    {
        match self {
            Work::Frames(frames) => stripping.pass_on(is_ended, &mut frames.given),
            Work::Places(places) => stripping.pass_on(is_ended, &mut places.given),
        }
    }

    /// Says whether the text ends with the bytes that were given.
    pub fn set_end(&mut self, is_ended: bool)
        ensures ended { work_seen self.new ≡ with_end is_ended (work_seen self.old) }
        ensures sound { IsWorkSound self.old → IsWorkSound self.new }
    {
        match self {
            Work::Frames(frames) => frames.is_ended = is_ended,
            Work::Places(places) => places.is_ended = is_ended,
        }
    }

    /// Goes on, and makes the output no longer than `limit`.
    pub fn run<U: KnownUrls, K: KnownMaps>(
        &mut self,
        alloc: Global,
        urls: &U,
        maps: &mut K,
        limit: u64,
    ) -> Result<Stop, AllocError>
        requires sound { IsWorkSound self.old }
        requires room { IsWorkWithin (2 ^ 64 - 1) (work_seen self.old) }
        requires few { length (output_of (work_seen self.old)) ≤ limit }
        ensures same { K.known maps.new ≡ K.known maps.old }
        ensures still { K.still maps.new ≡ K.still maps.old }
        ensures goes { WorkSteps (U.known urls.now)
            (with_declared (K.known maps.old) (K.declared maps.old)) self.old self.new }
        ensures few { length (output_of (work_seen self.new)) ≤ limit }
        ensures stops { IfOk result (WorkStopsAt limit
            (with_declared (K.known maps.old) (K.declared maps.old)) (work_seen self.new)) }
    {
        match self {
            Work::Frames(frames) => frames.run(alloc, maps, limit),
            Work::Places(places) => places.go_on(alloc, urls, maps, limit),
        }
    }

    /// The URL of which it is wanted what map it has, where there is one.
    pub fn wanted_url(&self) -> Option<&[u8]>
        ensures { option_map (λ url. url.now) result ≡ wanted_url (work_seen self.now) }
    {
        match self {
            Work::Frames(frames) => frames.next_url(),
            Work::Places(places) => places.wanted_url(),
        }
    }

    pub fn output(&self) -> &[u8]
        ensures { result.now ≡ output_of (work_seen self.now) }
    {
        match self {
            Work::Frames(frames) => &frames.output,
            Work::Places(places) => &places.output,
        }
    }

    pub fn clear_output(&mut self)
        ensures cleared { work_seen self.new ≡ without_output (work_seen self.old) }
        ensures sound { IsWorkSound self.old → IsWorkSound self.new }
    {
        match self {
            Work::Frames(frames) => frames.output.clear(),
            Work::Places(places) => places.output.clear(),
        }
    }

    pub fn summary(&self) -> Summary
        ensures { counts_seen result ≡ counts_of (work_seen self.now) }
    {
        match self {
            Work::Frames(frames) => frames.counts,
            Work::Places(places) => places.counts,
        }
    }

    pub fn whole_lines(&self) -> u64
        ensures { result ≡ whole_lines_of (work_seen self.now) }
    {
        match self {
            Work::Frames(frames) => frames.whole_lines(),
            Work::Places(places) => places.whole_lines(),
        }
    }
}
