//! The patterns of folders that stand where a piece of a URL begins.
ghost use Rattle.std.specs.Prelude.{◌≡◌, true, is_some, length, take};
ghost use Rattle.std.specs.Str.{bytes_eq};
ghost use Rattle.smap_locations.specs.ListLine.{is_folder};
ghost use Rattle.smap_locations.specs.Patterns.{rest_here};
ghost use Rattle.smap_locations.specs.Private.Best.{Comes, IsFor};

use crate::patterns::Patterns;
use crate::pieces::{begins_with_separator, ends_in_separator, is_separator};

impl Patterns {
    // The better one of the best so far and of those of folders.
    pub(super) fn better_of_folders(
        &self,
        best: Option<usize>,
        url: &[u8],
        short: &[u8],
    ) -> Option<usize>
        requires { IsFor self.now url.now short.now best }
        ensures { Comes self.now url.now short.now best result
            (λ place pattern. is_folder pattern.1 ≡ true) }
    {
        let mut best = best;
        let mut begins = true;
        let mut left = short;
        while let Some((byte, behind)) = left.split_first() {
            best = self.better_here(best, begins, left, url, short);
            begins = is_separator(*byte);
            left = behind;
        }
        best
    }

    // The same of those with which a rest of the URL begins; `begins` says whether a piece begins there.
    fn better_here(
        &self,
        best: Option<usize>,
        begins: bool,
        left: &[u8],
        url: &[u8],
        short: &[u8],
    ) -> Option<usize>
        requires { IsFor self.now url.now short.now best }
        ensures { Comes self.now url.now short.now best result (λ place pattern.
            (is_folder pattern.1 ≡ true) × (is_some (rest_here pattern.0 begins left.now) ≡ true)) }
    {
        if begins || begins_with_separator(left) {
            self.better_at_front(best, left, url, short)
        } else {
            best
        }
    }

    // The better one of the best so far and of those of folders with which a text begins.
    fn better_at_front(
        &self,
        best: Option<usize>,
        text: &[u8],
        url: &[u8],
        short: &[u8],
    ) -> Option<usize>
        requires { IsFor self.now url.now short.now best }
        ensures { Comes self.now url.now short.now best result (λ place pattern.
            (is_folder pattern.1 ≡ true) ×
            (bytes_eq (take (length pattern.0) text.now) pattern.0 ≡ true)) }
    {
        let mut best = best;
        let all = self.folders.lengths();
        for length in all {
            best = self.better_front(best, *length, text, url, short);
        }
        best
    }

    // The same of the one whose text has so many bytes.
    fn better_front(
        &self,
        best: Option<usize>,
        bytes: usize,
        text: &[u8],
        url: &[u8],
        short: &[u8],
    ) -> Option<usize>
        requires { IsFor self.now url.now short.now best }
        ensures { Comes self.now url.now short.now best result (λ place pattern.
            (is_folder pattern.1 ≡ true) ×
            (bytes_eq (take (length pattern.0) text.now) pattern.0 ≡ true) ×
            (length pattern.0 ≡ bytes)) }
    {
        let folders = &self.folders;
        if bytes > text.len() {
            return best;
        }
        let (front, _) = text.split_at(bytes);
        // Then none can have this text.
        if !ends_in_separator(front) {
            return best;
        }
        let place = folders.get(front);
        self.better(best, place, url, short)
    }
}
