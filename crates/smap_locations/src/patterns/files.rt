//! The patterns of files that a URL ends with.
ghost use Rattle.std.specs.Prelude.{◌≡◌, ℕ, List, Some, None, true, false, length};
ghost use Rattle.std.specs.List.{list_any, slice_get};
ghost use Rattle.smap_locations.specs.ListLine.{is_folder};
ghost use Rattle.smap_locations.specs.Patterns.{has_ending, needs_query};
ghost use Rattle.smap_locations.specs.Private.Best.{Comes, IsFor};

use crate::patterns::Patterns;
use crate::pieces::has_ending;

impl Patterns {
    /// Whether one is for a URL, and not for what that is without its query and its fragment, which is `short`.
    pub fn needs_query(&self, url: &[u8], short: &[u8]) -> bool
        ensures { result ≡ list_any (needs_query url.now short.now) self.now }
    {
        let all = self.files.lengths();
        for length in all {
            if self.end_needs_query(*length, url, short) {
                return true;
            }
        }
        false
    }

    // The same of one whose text has so many bytes.
    fn end_needs_query(&self, bytes: usize, url: &[u8], short: &[u8]) -> bool
        ensures one { result ≡ true → list_any (needs_query url.now short.now) self.now ≡ true }
        ensures all { (place : ℕ) (pattern : List ℕ × List ℕ) →
            slice_get self.now place ≡ Some pattern → length pattern.0 ≡ bytes →
            needs_query url.now short.now pattern ≡ true → result ≡ true }
    {
        if bytes > url.len() {
            return false;
        }
        let (_, text) = url.split_at(url.len() - bytes);
        match self.files.get(text) {
            Some(place) => self.all[place].needs_query(url, short),
            None => false,
        }
    }

    // The place of the best of those of files.
    pub(super) fn best_of_files(&self, url: &[u8], short: &[u8]) -> Option<usize>
        ensures { Comes self.now url.now short.now None result
            (λ place pattern. is_folder pattern.1 ≡ false) }
    {
        let best = self.better_at_end(None, url, url, short);
        if short == url {
            best
        } else {
            self.better_at_end(best, short, url, short)
        }
    }

    // The better one of the best so far and of those of files with which a text ends.
    fn better_at_end(
        &self,
        best: Option<usize>,
        text: &[u8],
        url: &[u8],
        short: &[u8],
    ) -> Option<usize>
        requires { IsFor self.now url.now short.now best }
        ensures { Comes self.now url.now short.now best result (λ place pattern.
            (is_folder pattern.1 ≡ false) × (has_ending pattern.0 text.now ≡ true)) }
    {
        let mut best = best;
        let all = self.files.lengths();
        for length in all {
            best = self.better_end(best, *length, text, url, short);
        }
        best
    }

    // The same of the one whose text has so many bytes.
    fn better_end(
        &self,
        best: Option<usize>,
        bytes: usize,
        text: &[u8],
        url: &[u8],
        short: &[u8],
    ) -> Option<usize>
        requires { IsFor self.now url.now short.now best }
        ensures { Comes self.now url.now short.now best result (λ place pattern.
            (is_folder pattern.1 ≡ false) × (has_ending pattern.0 text.now ≡ true) ×
            (length pattern.0 ≡ bytes)) }
    {
        if bytes > text.len() {
            return best;
        }
        let (_, end) = text.split_at(text.len() - bytes);
        if !has_ending(end, text) {
            return best;
        }
        let place = self.files.get(end);
        self.better(best, place, url, short)
    }
}
