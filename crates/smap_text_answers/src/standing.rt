//! Where the maps of URLs stand.
ghost use Rattle.std.specs.Prelude.{◌≡◌, option_copied};
ghost use Rattle.smap_replies.specs.Standing.{standing_seen};
ghost use Rattle.smap_text_answers.specs.Standing.{goes_by_path, standing_at, standing_loaded, standing_named, standing_of_text};

use smap_locations::without_query;
use smap_record::Url;
use smap_replies::Standing;
use smap_resolve::is_path;

/// Where the map stands of the file that an argument names for a URL.
pub fn standing_named<'a>(base: Option<&'a Url>, paths: bool, url: &'a str) -> Standing<'a>
    ensures { standing_seen result ≡ standing_named paths (option_copied base.entry) url.now }
{
    if goes_by_path(base, paths, url.as_bytes()) {
        Standing::ByPath(url.as_bytes())
    } else {
        standing_at(base, url)
    }
}

/// Where the map stands of the file of a URL that a text names: without a base, at that without its query and its fragment.
pub fn standing_loaded<'a>(base: Option<&'a Url>, paths: bool, url: &'a [u8]) -> Standing<'a>
    ensures { standing_seen result ≡ standing_loaded paths (option_copied base.entry) url.now }
{
    if goes_by_path(base, paths, url) {
        Standing::ByPath(url)
    } else {
        standing_of_text(base, without_query(url))
    }
}

// Whether the sources of the map of a URL are named by that: it is asked for, there is no base, and the URL is a path from a
// root.
fn goes_by_path(base: Option<&Url>, paths: bool, url: &[u8]) -> bool
    ensures { result ≡ goes_by_path paths (option_copied base.entry) url.now }
{
    paths && base.is_none() && is_path(url)
}

// At the base, where there is one; else at a URL, where that is UTF-8.
fn standing_of_text<'a>(base: Option<&'a Url>, url: &'a [u8]) -> Standing<'a>
    ensures { standing_seen result ≡ standing_of_text (option_copied base.entry) url.now }
{
    match str::from_utf8(url) {
        Ok(url) => standing_at(base, url),
        Err(_) => Standing::At(base),
    }
}

// At the base, where there is one; else at this URL.
fn standing_at<'a>(base: Option<&'a Url>, url: &'a str) -> Standing<'a>
    ensures { standing_seen result ≡ standing_at (option_copied base.entry) url.now }
{
    match base {
        Some(base) => Standing::At(Some(base)),
        None => Standing::AtUrl(url),
    }
}
