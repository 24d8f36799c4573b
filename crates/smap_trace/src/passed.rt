//! The places that rewriting frames passes over.
ghost use Rattle.std.specs.Prelude.{◌≡◌, ◌≤◌, ◌+◌, false, length, option_map};
ghost use Rattle.smap_lines.specs.Limits.{most_line_bytes};
ghost use Rattle.smap_lines.specs.Lines.{has_line_end};
ghost use Rattle.smap_trace.specs.Passed.{PlaceCount, passed_beside};
ghost use Rattle.smap_trace.specs.Private.Passing.{passed_after};
ghost use Rattle.smap_trace.specs.UrlNotes.{as_counted};

use crate::options::TraceOptions;

/// What counts the places of lines. What it takes to count those of one may be kept for the next.
pub trait PlaceCounter {
    // How many it has whose URL is another than one, where that is given; and how often URLs stand in it.
    ghost count: { Self → PlaceCount };

    /// How many places a line, which comes without its LF, has whose URL is another than `own`, where that is given. It has
    /// 65,536 bytes at most, so that the room for it can be made before: the call takes no memory. What is counted in
    /// whatever line stays the same.
    fn count_in(&mut self, own: Option<&[u8]>, line: &[u8]) -> u64
        requires one { has_line_end line.now ≡ false }
        requires short { length line.now ≤ most_line_bytes }
        ensures count { result
            ≡ (count self.old).others (option_map (λ url. url.now) own.entry) line.now }
        ensures same { count self.new ≡ count self.old };

    /// As many as before, and as many more as URLs stand in a line, in places or not; as far as 64 bits can count.
    fn count_mentions(&self, before: u64, line: &[u8]) -> u64
        ensures { result ≡ as_counted (before + (count self.now).mentions line.now) };
}

/// No place is looked for.
#[derive(Clone, Copy)]
pub struct NoPlaces;

impl PlaceCounter for NoPlaces {
    ghost use Rattle.smap_trace.specs.Passed.{nothing_counted};

    ghost count = { λ places. nothing_counted };

    fn count_in(&mut self, _own: Option<&[u8]>, _line: &[u8]) -> u64 {
        0
    }

    fn count_mentions(&self, before: u64, _line: &[u8]) -> u64 {
        before
    }
}

/// How many places were passed, at most so many as are asked for, after a line whose frame has this URL, where it is one;
/// and that has a map or none.
pub fn passed_after<P: PlaceCounter>(
    options: &TraceOptions<'_>,
    places: &mut P,
    passed: u64,
    own: Option<&[u8]>,
    has_map: bool,
    line: &[u8],
) -> u64
    requires one { has_line_end line.now ≡ false }
    requires short { length line.now ≤ most_line_bytes }
    ensures passed { result ≡ passed_after options.now.most_passed passed
        (passed_beside (P.count places.old) (option_map (λ url. url.now) own.entry)
        has_map line.now) }
    ensures same { P.count places.new ≡ P.count places.old }
{
    if has_map || passed >= options.most_passed {
        return passed;
    }
    let more = places.count_in(own, line);
    passed.saturating_add(more).min(options.most_passed)
}
