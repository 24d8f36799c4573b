//! The frames of a text that is rewritten piece by piece.
ghost use Rattle.std.specs.Prelude.{◌≡◌, ◌<◌, ◌≤◌, ◌+◌, ◌-◌, ◌^◌, ◌||◌, IfOk, cond, MatchOption, false, length, option_map, true};
ghost use Rattle.smap_lines.specs.Limits.{most_line_bytes};
ghost use Rattle.smap_trace.specs.Rewriting.{counts_seen};
ghost use Rattle.smap_piecewise.specs.Frames.{StopsAt, next_url, whole_lines_of};
ghost use Rattle.smap_piecewise.specs.Known.{NamedKnown, with_declared};
ghost use Rattle.smap_piecewise.specs.Private.Frames.{IsWithin, Steps, counts_with, frames_seen};
ghost use Rattle.smap_piecewise.specs.Private.Given.{IsFirstLine, line_size};

use crate::given::{FirstLine, Given, first_line_in};
use crate::known::KnownMaps;
use crate::put_line::{LineKind, put_line};
use crate::stop::Stop;
use smap_lines::MOST_LINE_BYTES;
use smap_trace::{Hiding, Summary, frame};
use std::alloc::{AllocError, Global};

/// A text whose frames are rewritten: which are left out; the bytes that were given and are not done, whether they begin in
/// a line that is too long and was counted, and whether the text ends with them; what was written; and what was counted.
#[derive(Drop)]
pub struct Frames {
    pub ignored: bool,
    pub texts: Vec<String>,
    pub given: Given,
    pub is_passing: bool,
    pub is_ended: bool,
    pub output: Vec<u8>,
    pub counts: Summary,
}

impl Frames {
    /// Goes on as far as can be decided, or up to a frame of whose URL it is not known what map it has, or up to what would
    /// make the output longer than `limit`.
    pub fn run<K: KnownMaps>(
        &mut self,
        alloc: Global,
        maps: &mut K,
        limit: u64,
    ) -> Result<Stop, AllocError>
        requires room { IsWithin (2 ^ 64 - 1) (frames_seen self.old) }
        requires few { length self.old.output.items ≤ limit }
        ensures same { K.known maps.new ≡ K.known maps.old }
        ensures same_declared { K.declared maps.new ≡ K.declared maps.old }
        ensures still { K.still maps.new ≡ K.still maps.old }
        ensures goes { Steps (with_declared (K.known maps.old) (K.declared maps.old))
            self.old self.new }
        ensures few { length self.new.output.items ≤ limit }
        ensures stops { IfOk result (StopsAt limit
            (with_declared (K.known maps.old) (K.declared maps.old)) (frames_seen self.new)) }
    {
        loop {
            if let Some(stop) = self.step(alloc, maps, limit)? {
                return Ok(stop);
            }
        }
    }

    /// The URL of the next frame, where the next line is one.
    pub fn next_url(&self) -> Option<&[u8]>
        ensures { option_map (λ url. url.now) result ≡ next_url self.now.given }
    {
        let frame = frame(first_line_in(self.given.bytes()))?;
        Some(frame.url)
    }

    /// How many whole lines were written.
    pub fn whole_lines(&self) -> u64
        ensures { result ≡ whole_lines_of (frames_seen self.now) }
    {
        let shown = self.counts.lines.saturating_sub(self.counts.hidden);
        shown.saturating_sub(u64::from(self.is_passing))
    }

    // Does the next line, or what is there of one that is too long; and says where it stops, if there.
    fn step<K: KnownMaps>(
        &mut self,
        alloc: Global,
        maps: &mut K,
        limit: u64,
    ) -> Result<Option<Stop>, AllocError>
        requires room { IsWithin (2 ^ 64 - 1) (frames_seen self.old) }
        requires few { length self.old.output.items ≤ limit }
        ensures same { K.known maps.new ≡ K.known maps.old }
        ensures same_declared { K.declared maps.new ≡ K.declared maps.old }
        ensures still { K.still maps.new ≡ K.still maps.old }
        ensures goes { Steps (with_declared (K.known maps.old) (K.declared maps.old))
            self.old self.new }
        ensures few { length self.new.output.items ≤ limit }
        ensures stops { IfOk result (λ stop. MatchOption stop
            (length self.new.given < length self.old.given)
            (StopsAt limit (with_declared (K.known maps.old) (K.declared maps.old))
            (frames_seen self.new))) }
    {
        let line = self.given.first_line();
        if self.is_passing || line.bytes > MOST_LINE_BYTES {
            return self.pass(line, limit);
        }
        if !line.is_ended && (line.bytes == 0 || !self.is_ended) {
            return Ok(Some(Stop::Done));
        }
        self.do_line(alloc, maps, line, limit)
    }

    // Passes the first line of the bytes that are left, which is too long.
    fn pass(&mut self, line: FirstLine, limit: u64) -> Result<Option<Stop>, AllocError>
        requires line { IsFirstLine self.old.given line }
        requires long { self.old.is_passing ≡ false → most_line_bytes < line.bytes }
        requires room { IsWithin (2 ^ 64 - 1) (frames_seen self.old) }
        requires few { length self.old.output.items ≤ limit }
        ensures goes { (known : NamedKnown) → Steps known self.old self.new }
        ensures few { length self.new.output.items ≤ limit }
        ensures stops { IfOk result (λ stop. MatchOption stop
            (length self.new.given < length self.old.given)
            (λ stop. (known : NamedKnown) → StopsAt limit known (frames_seen self.new) stop)) }
    {
        let size = line.size();
        if size == 0 {
            return Ok(Some(Stop::Done));
        }
        if size as u64 > limit - self.output.len() as u64 {
            return Ok(Some(Stop::Full));
        }
        self.output.extend_from_slice(&self.given.bytes()[..size])?;
        self.counts.lines = lines_after(self.counts.lines, self.is_passing);
        self.is_passing = !line.is_ended;
        self.given.cut(size);
        Ok(None)
    }

    // Does the first line of the bytes that are left, which is not too long, and whose end is known.
    fn do_line<K: KnownMaps>(
        &mut self,
        alloc: Global,
        maps: &mut K,
        first: FirstLine,
        limit: u64,
    ) -> Result<Option<Stop>, AllocError>
        requires line { IsFirstLine self.old.given first }
        requires short { first.bytes ≤ most_line_bytes }
        requires anew { self.old.is_passing ≡ false }
        requires some { 0 < line_size first }
        requires decided { (first.is_ended || self.old.is_ended) ≡ true }
        requires room { IsWithin (2 ^ 64 - 1) (frames_seen self.old) }
        requires few { length self.old.output.items ≤ limit }
        ensures same { K.known maps.new ≡ K.known maps.old }
        ensures same_declared { K.declared maps.new ≡ K.declared maps.old }
        ensures still { K.still maps.new ≡ K.still maps.old }
        ensures goes { Steps (with_declared (K.known maps.old) (K.declared maps.old))
            self.old self.new }
        ensures few { length self.new.output.items ≤ limit }
        ensures stops { IfOk result (λ stop. MatchOption stop
            (length self.new.given < length self.old.given)
            (StopsAt limit (with_declared (K.known maps.old) (K.declared maps.old))
            (frames_seen self.new))) }
    {
        let hiding = Hiding {
            ignored: self.ignored,
            texts: &self.texts,
        };
        let line = &self.given.bytes()[..first.bytes];
        let is_ended = first.is_ended;
        let written = self.output.len();
        let put = put_line(alloc, maps, &hiding, line, is_ended, &mut self.output)?;
        let Some(kind) = put else {
            return Ok(Some(Stop::Wanted));
        };
        if self.output.len() as u64 > limit {
            self.output.truncate(written);
            return Ok(Some(Stop::Full));
        }
        self.counts = counts_with(self.counts, kind);
        self.given.cut(first.size());
        Ok(None)
    }
}

// How many lines were counted, with one of which a part passes, and others did before or not.
fn lines_after(lines: u64, was_passing: bool) -> u64
    requires { lines + 1 < 2 ^ 64 }
    ensures { result ≡ lines + cond was_passing 0 1 }
{
    if was_passing { lines } else { lines + 1 }
}

// What was counted, with a line more.
fn counts_with(counts: Summary, kind: LineKind) -> Summary
    requires lines { counts.lines + 1 < 2 ^ 64 }
    requires frames { counts.frames + 1 < 2 ^ 64 }
    requires mapped { counts.mapped + 1 < 2 ^ 64 }
    requires hidden { counts.hidden + 1 < 2 ^ 64 }
    ensures { counts_seen result ≡ counts_with (counts_seen counts) kind }
{
    Summary {
        lines: counts.lines + 1,
        frames: counts.frames + u64::from(kind.is_frame),
        mapped: counts.mapped + u64::from(kind.is_mapped),
        hidden: counts.hidden + u64::from(kind.is_hidden),
    }
}
