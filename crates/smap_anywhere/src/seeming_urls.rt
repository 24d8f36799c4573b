//! What looks like a URL.
ghost use Rattle.std.specs.Prelude.{◌≡◌};
ghost use Rattle.smap_anywhere.specs.SeemingUrls.{begins_as_path, ends_as_script, holds_scheme, is_behind_drive, looks_like_url};

use crate::frame_url::frame_url;
use smap_locations::is_separator;
use smap_pairs::{KnownUrls, NamedBy};

/// Knows no maps: what looks like a URL is known as that of a pattern is.
#[derive(Clone, Copy)]
pub struct SeemingUrls;

impl KnownUrls for SeemingUrls {
    ghost use Rattle.smap_anywhere.specs.Laws.FrameUrl.{frame_url_within};
    ghost use Rattle.smap_anywhere.specs.SeemingUrls.{urls_seeming};

    ghost known = { λ urls. urls_seeming };

    fn frame_url(&self, line: &[u8]) -> Option<(usize, usize)> {
        frame_url(line)
    }

    fn has_own(&self, _url: &[u8]) -> bool {
        false
    }

    fn is_name(&self, _url: &[u8]) -> bool {
        false
    }

    fn is_named(&self, _by: NamedBy, _url: &[u8]) -> bool {
        false
    }

    fn is_prefix(&self, _text: &[u8]) -> bool {
        false
    }

    fn has_pattern(&self, url: &[u8]) -> bool {
        looks_like_url(url)
    }

    fn name_lengths(&self) -> &[usize] {
        &[]
    }

    fn prefix_lengths(&self) -> &[usize] {
        &[]
    }

    fn find_front(&self, _text: &[u8]) -> Option<usize> {
        Some(0)
    }

    ghost within = { λ urls. frame_url_within };

    ghost fronts = { λ urls. tt };
}

// Whether it looks like a URL: it holds `://`, or ends as paths of generated programs do, or begins as a whole path does.
fn looks_like_url(url: &[u8]) -> bool
    ensures { result ≡ looks_like_url url.now }
{
    holds_scheme(url) || ends_as_script(url) || begins_as_path(url)
}

// Whether a URL holds `://`.
#[tactic(auto, unfolding(crate::specs::SeemingUrls::holds_scheme))]
fn holds_scheme(url: &[u8]) -> bool
    ensures { result ≡ holds_scheme url.now }
{
    let mut rest = url;
    while let Some((_, behind)) = rest.split_first() {
        if rest.starts_with(b"://") {
            return true;
        }
        rest = behind;
    }
    false
}

// Whether a URL ends as the path of a generated program.
fn ends_as_script(url: &[u8]) -> bool
    ensures { result ≡ ends_as_script url.now }
{
    url.ends_with(b".js")
        || url.ends_with(b".mjs")
        || url.ends_with(b".cjs")
        || url.ends_with(b".bundle")
}

// Whether a URL begins with a `/`, a `\` or a drive.
fn begins_as_path(url: &[u8]) -> bool
    ensures { result ≡ begins_as_path url.now }
{
    match url.split_first() {
        Some((byte, behind)) => {
            is_separator(*byte) || byte.is_ascii_alphabetic() && is_behind_drive(behind)
        }
        None => false,
    }
}

// Whether what stands behind a letter makes it a drive.
fn is_behind_drive(url: &[u8]) -> bool
    ensures { result ≡ is_behind_drive url.now }
{
    match url.split_first() {
        Some((byte, behind)) => {
            *byte == b':' && (behind.starts_with(b"/") || behind.starts_with(b"\\"))
        }
        None => false,
    }
}
