//! The place of the frame that a line is as a whole, where it is told before the line is looked at closely.
ghost use Rattle.std.specs.Prelude.{◌≡◌, ◌≤◌, ◌∷◌, ◌||◌, [], IfSome, length, true};
ghost use Rattle.std.specs.List.{slice_range};
ghost use Rattle.smap_pairs.specs.LinePlaces.{has_frame_url, places_in, whole_line};
ghost use Rattle.smap_pairs.specs.Pairs.{AreInOrder, pairs_of};
ghost use Rattle.smap_pairs.specs.Seen.{seen_of};

use crate::bare::is_bare_before;
use crate::known::KnownUrls;
use crate::line_places::{Span, in_frame, span_of};
use crate::pair_at::pair_at;
use crate::pairs::Pair;

/// The place of the frame that a line is, if its URL, which stands from a byte to another, is named, or is bare and has a
/// map: there is no other then.
pub fn whole_frame<K: KnownUrls>(
    known: &K,
    text: &[u8],
    url: Option<(usize, usize)>,
    pairs: &[Pair],
) -> Option<Span>
    requires url { (K.known known.now).frame_url text.now ≡ url }
    requires within { IfSome url (λ url. (url.0 ≤ url.1) × (url.1 ≤ length text.now)) }
    requires pairs { pairs.now ≡ pairs_of text.now }
    requires order { AreInOrder 0 (length text.now) pairs.now }
    ensures { IfSome result (λ place.
        places_in (K.known known.now) text.now (seen_of text.now) ≡ place ∷ []) }
{
    let Some((start, end)) = url else {
        return None;
    };
    let Some(pair) = pair_at(pairs, text.len(), end) else {
        return None;
    };
    if has_map(known, text, start, &pair) {
        Some(in_frame(0, span_of(&pair, start, end, false)))
    } else {
        None
    }
}

// Whether the URL of the frame that a line is, which runs from a byte up to a pair, is named and has a map by that, or is
// bare and has one.
fn has_map<K: KnownUrls>(known: &K, text: &[u8], start: usize, pair: &Pair) -> bool
    requires start { start ≤ pair.now.start }
    requires end { pair.now.start ≤ length text.now }
    ensures { result ≡ true → has_frame_url (K.known known.now) text.now (seen_of text.now)
        (whole_line (length text.now)) pair.now start
        (slice_range text.now start pair.now.start) ≡ true }
{
    let url = &text[start..pair.start];
    if known.is_name(url) {
        known.has_own(url)
    } else {
        is_bare_before(text, start, pair) && has_any(known, url)
    }
}

// Whether a URL has a file.
fn has_any<K: KnownUrls>(known: &K, url: &[u8]) -> bool
    ensures { result ≡ ((K.known known.now).has_own url.now
        || (K.known known.now).has_pattern url.now) }
{
    known.has_own(url) || known.has_pattern(url)
}
