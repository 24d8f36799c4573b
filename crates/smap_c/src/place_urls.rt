//! What looks like a URL at the places of a text.
ghost use Rattle.std.specs.Prelude.{◌≡◌, ◌≢◌, ◌⊎◌, ◌∷◌, [], None, Some, IfSome, IsSome, length};
ghost use Rattle.smap_anywhere.specs.FoundUrls.{nothing_read, urls_left};
ghost use Rattle.smap_c.specs.PlaceUrls.{IsPlaceWithin, place_there};

use crate::handles::{Holder, UrlFinderHandle};
use crate::status::{DONE, NO_MEMORY, REFUSED};
use smap_anywhere::UrlFinder;
use std::alloc::Global;

/// Where the URL of a place stands in a text, in bytes from 0.
#[repr(C)]
#[derive(Clone, Copy)]
pub struct PlaceUrl {
    pub start: usize,
    pub length: usize,
    /// Where the place ends, behind its line and its column.
    pub next: usize,
    /// 1 where each two backslashes of it are one, as it stands in a string, and else 0.
    pub halved: u32,
}

/// Makes a finder of URLs, with room for the places of any text.
#[unsafe(no_mangle)]
pub extern "C" fn smap_url_finder_new(alloc: Global, finder: &mut UrlFinderHandle) -> u32
    ensures made { result ≡ 0 → finder.new.held ≡ Some nothing_read }
    ensures stays { result ≢ 0 → finder.new.held ≡ finder.old.held }
    ensures status { (result ≡ 0) ⊎ (result ≡ 3) }
{
    let Ok(made) = UrlFinder::new(alloc) else {
        return NO_MEMORY;
    };
    match UrlFinderHandle::new(alloc, made) {
        Ok(handle) => {
            *finder = handle;
            DONE
        }
        Err(_failed) => NO_MEMORY,
    }
}

/// Finds the URL of the next place of a text, wherever it stands, from a byte on: 0 or another at which a line begins, or
/// `next` of the place before, where the finder found that in the same text. A place is found that a rewriting anywhere
/// finds over URLs of which none is known, for what looks like one. `found` is written where there is one. The call takes
/// no memory.
#[unsafe(no_mangle)]
pub extern "C" fn smap_next_place_url(
    finder: &mut UrlFinderHandle,
    text: &[u8],
    from: usize,
    found: &mut PlaceUrl,
) -> u32
    requires { IsSome finder.old.held }
    ensures found { IfSome finder.old.held (λ old. result ≡ 0 → IfSome finder.new.held (λ new.
        urls_left text.now from old
        ≡ place_there text.now found.new ∷ urls_left text.now found.new.next new)) }
    ensures none { IfSome finder.old.held (λ old. result ≡ 1 → urls_left text.now from old ≡ []) }
    ensures within { result ≡ 0 → IsPlaceWithin (length text.now) found.new }
    ensures held { IsSome finder.new.held }
    ensures stays { result ≢ 0 → found.new ≡ found.old }
    ensures status { (result ≡ 0) ⊎ (result ≡ 1) }
{
    match finder.lend().find_next(text, from) {
        Some(url) => {
            *found = PlaceUrl {
                start: url.start,
                length: url.length,
                next: url.next,
                halved: u32::from(url.is_halved),
            };
            DONE
        }
        None => REFUSED,
    }
}

/// Frees a finder, and leaves its handle empty.
#[unsafe(no_mangle)]
pub extern "C" fn smap_url_finder_free(alloc: Global, finder: &mut UrlFinderHandle)
    requires { IsSome finder.old.held }
    ensures { finder.new.held ≡ None }
{
    finder.empty(alloc);
}
