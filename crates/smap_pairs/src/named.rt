//! The URL before a pair that is named.
ghost use Rattle.std.specs.Prelude.{◌≡◌, ◌==◌, ◌≤◌, ◌<◌, ◌-◌, ◌+◌, ◌||◌, ◌&&◌, ℕ, false, length, max, take, true};
ghost use Rattle.std.specs.List.{slice_get, slice_range};
ghost use Rattle.smap_pairs.specs.Behind.{IsBehind, is_in_folder, is_query_at};
ghost use Rattle.smap_pairs.specs.Greatest.{greatest};
ghost use Rattle.smap_pairs.specs.Named.{begins_in_folder, cut_bytes, is_in_folder as is_in_folder_before, longest_cut, may_begin_name, named_bytes, is_named_before, own_bytes, prefix_bytes, query_of};

use crate::behind::Behind;
use crate::known::{KnownUrls, NamedBy};
use crate::seen::SeenByte;

/// A pair for which a URL is sought: its line, as it is and as it counts, what stands behind a name before it, and where its
/// piece begins and it begins itself.
#[derive(Clone, Copy)]
pub struct Sought<'a, K: KnownUrls> {
    pub known: &'a K,
    pub text: &'a [u8],
    pub seen: &'a [SeenByte],
    pub behind: &'a Behind,
    pub piece: usize,
    pub end: usize,
}

impl<K: KnownUrls> Sought<'_, K> {
    /// How many bytes the longest URL has that ends at the pair and has its map by a name, a list or a folder, 0 where there
    /// is none.
    #[tactic(auto, unfolding(crate::specs::Named::own_bytes))]
    pub fn own_bytes(&self) -> usize
        requires piece { self.now.piece ≤ self.now.end }
        requires end { self.now.end ≤ length self.now.text.now }
        requires seen { self.now.end ≤ length self.now.seen.now }
        requires behind { IsBehind (take self.now.end self.now.seen.now) self.now.piece
            self.now.behind.now }
        ensures own { result ≡ own_bytes (K.known self.now.known.now) self.now.text.now
            self.now.seen.now self.now.piece (is_query_at (take
            self.now.end self.now.seen.now) self.now.piece)
            (is_in_folder (take self.now.end self.now.seen.now) self.now.piece) self.now.end }
        ensures within { result ≤ self.now.end - self.now.piece }
    {
        let whole = self.named_bytes(NamedBy::Any, self.end);
        let named = greater(whole, self.longest_cut(NamedBy::List));
        self.or_in_folder(named)
    }

    // How many bytes the longest URL of a folder has, or `named`, if it has no more than so many.
    fn or_in_folder(&self, named: usize) -> usize
        requires piece { self.now.piece ≤ self.now.end }
        requires end { self.now.end ≤ length self.now.text.now }
        requires seen { self.now.end ≤ length self.now.seen.now }
        requires behind { IsBehind (take self.now.end self.now.seen.now) self.now.piece
            self.now.behind.now }
        ensures longest { result ≡ max named (greatest
            (is_in_folder_before (K.known self.now.known.now)
            self.now.text.now self.now.seen.now (is_in_folder (take
            self.now.end self.now.seen.now) self.now.piece) self.now.end)
            (self.now.end - self.now.piece)) }
        ensures within { named ≤ self.now.end - self.now.piece →
            result ≤ self.now.end - self.now.piece }
    {
        for at in self.first_in_folder()..self.end.saturating_sub(named) {
            if self.begins_in_folder(at) {
                return self.end - at;
            }
        }
        named
    }

    // Before which byte of the piece no URL of a folder begins.
    fn first_in_folder(&self) -> usize
        requires piece { self.now.piece ≤ self.now.end }
        ensures low { self.now.piece ≤ result }
        ensures none { (at : ℕ) → at < result → self.now.piece ≤ at →
            begins_in_folder (K.known self.now.known.now) self.now.text.now
            self.now.seen.now (is_in_folder (take
            self.now.end self.now.seen.now) self.now.piece) self.now.end at ≡ false }
    {
        self.piece
    }

    // Whether a URL of a folder begins at a byte.
    fn begins_in_folder(&self, at: usize) -> bool
        requires at { at ≤ self.now.end }
        requires end { self.now.end ≤ length self.now.text.now }
        requires seen { self.now.end ≤ length self.now.seen.now }
        requires behind { IsBehind (take self.now.end self.now.seen.now) self.now.piece
            self.now.behind.now }
        ensures { result ≡ begins_in_folder (K.known self.now.known.now) self.now.text.now
            self.now.seen.now (is_in_folder (take
            self.now.end self.now.seen.now) self.now.piece) self.now.end at }
    {
        if !may_begin_name(self.seen, at) {
            return false;
        }
        let bytes = self.prefix_bytes(at);
        bytes != 0 && self.behind.is_in_folder(at + bytes)
    }

    // How many bytes the longest URL has that is named and ends at a byte, 0 where there is none.
    fn named_bytes(&self, by: NamedBy, end: usize) -> usize
        requires piece { self.now.piece ≤ end }
        requires end { end ≤ length self.now.text.now }
        ensures named { result ≡ named_bytes (K.known self.now.known.now) self.now.text.now
            self.now.seen.now self.now.piece by end }
        ensures within { result ≤ end - self.now.piece }
    {
        let most = end - self.piece;
        let mut best = 0;
        for bytes in self.known.name_lengths() {
            if *bytes > best && *bytes <= most && self.is_named(by, end - *bytes, end) {
                best = *bytes;
            }
        }
        best
    }

    // Whether what stands from a byte up to another is named, and a URL may begin there.
    fn is_named(&self, by: NamedBy, at: usize, end: usize) -> bool
        requires at { at ≤ end }
        requires end { end ≤ length self.now.text.now }
        ensures { result ≡ (may_begin_name self.now.seen.now at
            && (K.known self.now.known.now).is_named by (slice_range self.now.text.now at end)) }
    {
        may_begin_name(self.seen, at) && self.known.is_named(by, &self.text[at..end])
    }

    // How many bytes the longest URL has that is named up to a query or a fragment that runs to the pair, with that, 0 where
    // there is none.
    pub fn longest_cut(&self, by: NamedBy) -> usize
        requires end { self.now.end ≤ length self.now.text.now }
        requires seen { self.now.end ≤ length self.now.seen.now }
        requires behind { IsBehind (take self.now.end self.now.seen.now) self.now.piece
            self.now.behind.now }
        ensures longest { result ≡ longest_cut (K.known self.now.known.now) self.now.text.now
            self.now.seen.now self.now.piece (is_query_at (take
            self.now.end self.now.seen.now) self.now.piece) self.now.end by }
        ensures within { result ≤ self.now.end - self.now.piece }
    {
        let mut best = 0;
        for query in self.behind.queries() {
            best = greater(best, self.cut_bytes(by, *query));
        }
        best
    }

    // Where the query begins of the URL that has so many bytes with it, the last of several.
    pub fn query_of(&self, by: NamedBy, bytes: usize) -> usize
        requires some { 0 < bytes }
        requires end { self.now.end ≤ length self.now.text.now }
        requires seen { self.now.end ≤ length self.now.seen.now }
        requires behind { IsBehind (take self.now.end self.now.seen.now) self.now.piece
            self.now.behind.now }
        ensures query { result ≡ query_of (K.known self.now.known.now) self.now.text.now
            self.now.seen.now self.now.piece (is_query_at (take
            self.now.end self.now.seen.now) self.now.piece) self.now.end by bytes }
        ensures within { result ≤ self.now.end }
    {
        let mut last = 0;
        for query in self.behind.queries() {
            if *query > last && *query <= self.end && self.is_cut(by, *query, bytes) {
                last = *query;
            }
        }
        last
    }

    // Whether the longest URL that is named up to a query has so many bytes with it.
    fn is_cut(&self, by: NamedBy, query: usize, bytes: usize) -> bool
        requires query { query < self.now.end }
        requires end { self.now.end ≤ length self.now.text.now }
        requires is_one { is_query_at (take self.now.end self.now.seen.now) self.now.piece query
            ≡ true }
        ensures { result ≡ (cut_bytes (K.known self.now.known.now) self.now.text.now
            self.now.seen.now self.now.piece
            (is_query_at (take self.now.end self.now.seen.now) self.now.piece)
            self.now.end by query == bytes) }
    {
        self.cut_bytes(by, query) == bytes
    }

    // How many bytes the longest URL has that is named up to a query that begins at a byte, with the query, 0 where there is
    // none.
    fn cut_bytes(&self, by: NamedBy, query: usize) -> usize
        requires query { query < self.now.end }
        requires end { self.now.end ≤ length self.now.text.now }
        requires is_one { is_query_at (take self.now.end self.now.seen.now) self.now.piece query
            ≡ true }
        ensures cut { result ≡ cut_bytes (K.known self.now.known.now) self.now.text.now
            self.now.seen.now self.now.piece (is_query_at (take
            self.now.end self.now.seen.now) self.now.piece) self.now.end by query }
        ensures within { result ≤ self.now.end - self.now.piece }
    {
        if query < self.piece {
            return 0;
        }
        let bytes = self.named_bytes(by, query);
        if bytes == 0 {
            return 0;
        }
        bytes + (self.end - query)
    }

    // How many bytes the longest prefix has that begins at a byte, 0 where there is none.
    fn prefix_bytes(&self, at: usize) -> usize
        requires at { at ≤ self.now.end }
        requires end { self.now.end ≤ length self.now.text.now }
        ensures prefix { result ≡ prefix_bytes (K.known self.now.known.now) self.now.text.now
            self.now.end at }
        ensures within { at + result ≤ self.now.end }
    {
        let mut best = 0;
        for bytes in self.known.prefix_lengths() {
            if *bytes > best
                && *bytes <= self.end - at
                && self.known.is_prefix(&self.text[at..at + *bytes])
            {
                best = *bytes;
            }
        }
        best
    }
}

// Whether a URL that is named may begin at a byte.
fn may_begin_name(seen: &[SeenByte], at: usize) -> bool
    ensures { result ≡ may_begin_name seen.now at }
{
    if at == 0 {
        return true;
    }
    match seen.get(at - 1) {
        Some(seen) => seen.is_edge || seen.byte == b'\'',
        None => false,
    }
}

// The greater of two numbers.
fn greater(one: usize, other: usize) -> usize
    ensures { result ≡ max one other }
{
    if one < other { other } else { one }
}
