//! Which URLs are known, for whoever seeks places in a text.
ghost use Rattle.memchr.specs.Find.{FindsNeedle};
ghost use Rattle.std.specs.Prelude.{◌≡◌, ◌≤◌, IfSome, MatchOption, Some, ℕ, List, length, true};
ghost use Rattle.smap_pairs.specs.Known.{IsFrameUrlWithin, IsFrontKnown, UrlsKnown, is_among};
ghost use Rattle.smap_pairs.specs.declared.known.NamedBy.{NamedBy};

/// By what a file is named for a URL.
#[derive(Clone, Copy)]
pub enum NamedBy {
    /// By an argument or a list.
    Any,
    /// By an argument.
    Argument,
    /// By a list, which has the URL with any query and fragment, too.
    List,
}

/// Knows URLs: those that an argument or a list names, those of folders and those of patterns.
pub trait KnownUrls {
    ghost known: { Self → UrlsKnown };

    /// Where the URL stands of the frame that a line is.
    fn frame_url(&self, line: &[u8]) -> Option<(usize, usize)>
        ensures url { result ≡ (known self.now).frame_url line.now }
        ensures within { IfSome result (λ url. (url.0 ≤ url.1) × (url.1 ≤ length line.now)) };

    /// Whether a URL has a file by an argument, a list or a folder.
    fn has_own(&self, url: &[u8]) -> bool
        ensures { result ≡ (known self.now).has_own url.now };

    /// Whether an argument or a list names a file for it.
    fn is_name(&self, url: &[u8]) -> bool
        ensures { result ≡ (known self.now).is_name url.now };

    /// The same of URLs without a quotation mark, as they may stand in a string.
    fn is_named(&self, by: NamedBy, url: &[u8]) -> bool
        ensures { result ≡ (known self.now).is_named by url.now };

    /// Whether a folder has the files of the URLs that begin with a text.
    fn is_prefix(&self, text: &[u8]) -> bool
        ensures { result ≡ (known self.now).is_prefix text.now };

    /// Whether a pattern has a file for a URL.
    fn has_pattern(&self, url: &[u8]) -> bool
        ensures { result ≡ (known self.now).has_pattern url.now };

    /// How many bytes the URLs have for which files are named, each number once.
    fn name_lengths(&self) -> &[usize]
        ensures { (by : NamedBy) → (url : List ℕ) → (known self.now).is_named by url ≡ true →
            is_among result.now (length url) ≡ true };

    /// How many bytes the prefixes of folders have, each number once.
    fn prefix_lengths(&self) -> &[usize]
        ensures { (text : List ℕ) → (known self.now).is_prefix text ≡ true →
            is_among result.now (length text) ≡ true };

    /// Where what all URLs begin with stands first in a text: a line without it has no place. At its beginning, where they
    /// have nothing in common.
    fn find_front(&self, text: &[u8]) -> Option<usize>
        ensures { MatchOption (known self.now).front (result ≡ Some 0)
            (λ front. FindsNeedle text.now front 0 result) };

    // The URL of a frame stands within its line.
    ghost within: { (urls : Self) (line : List ℕ) → IsFrameUrlWithin (known urls) line };

    // They do begin with it.
    ghost fronts: { (urls : Self) → IsFrontKnown (known urls) };
}
