//! The URLs that stand for themselves.
ghost use Rattle.std.specs.Prelude.{◌≡◌, [], false, true, IfOk, OnErr, OnOk};
ghost use Rattle.smap_kept.specs.Bounded.{bytes_of, is_within};
ghost use Rattle.smap_kept.specs.OwnUrls.{added_by, has_query, is_own, key_of, own_before, own_with};

use crate::bounded::Bounded;
use smap_locations::without_query;
use std::alloc::{AllocError, Global};
use std::marker::Model;

/// The URLs with a query or a fragment under which something was put, within a bound of bytes. Where there is no room for
/// one more, they are all from then on, so that none is forgotten.
#[derive(Drop)]
pub(crate) struct OwnUrls {
    urls: Bounded<()>,
    are_all: bool,
}

impl Model for OwnUrls {
    ghost use Rattle.smap_kept.specs.OwnUrls.{OwnSeen, own_seen};

    ghost Value = { OwnSeen };

    ghost view = { own_seen };
}

/// What a URL that is added changes.
#[derive(Clone, Copy)]
pub(crate) enum Added {
    /// Nothing: it was among them, or has neither a query nor a fragment.
    Before,
    /// It is one more.
    Here,
    /// There is no room for it: all are among them.
    All,
}

impl OwnUrls {
    /// No URL, and a bound in bytes.
    pub(crate) fn new(alloc: Global, most: u64) -> Result<OwnUrls, AllocError>
        ensures { IfOk result (λ own. own
            ≡ record { urls = []; most = most; are_all = false }) }
    {
        let urls = Bounded::new(alloc, most)?;
        Ok(OwnUrls {
            urls,
            are_all: false,
        })
    }

    /// For how many bytes they count.
    pub(crate) fn bytes(&self) -> u64
        ensures sum { result ≡ bytes_of self.now.urls }
        ensures within { is_within self.now.most self.now.urls ≡ true }
    {
        self.urls.bytes()
    }

    /// The URL under which is what is known of a URL: itself, where it is among them, or else it without its query and its
    /// fragment.
    pub(crate) fn key_for<'u>(&self, url: &'u [u8]) -> &'u [u8]
        ensures { result.now ≡ key_of self.now url.now }
    {
        let short = without_query(url);
        if short.len() < url.len() && self.has(url) {
            url
        } else {
            short
        }
    }

    /// Adds a URL. Where memory runs out, nothing is changed.
    pub(crate) fn add(&mut self, alloc: Global, url: &[u8]) -> Result<Added, AllocError>
        ensures put { OnOk result (self.new ≡ own_with url.now self.old) }
        ensures added { IfOk result (λ added. added ≡ added_by self.old url.now) }
        ensures kept { OnErr result (self.new ≡ self.old) }
    {
        if !has_query(url) || self.has(url) {
            return Ok(Added::Before);
        }
        if !self.urls.has_room_beside(url, 0) {
            self.are_all = true;
            return Ok(Added::All);
        }
        match self.urls.put(alloc, url, (), 0) {
            Ok(_) => Ok(Added::Here),
            Err(_) => Err(AllocError),
        }
    }

    /// Takes back what adding a URL changed.
    pub(crate) fn take_back(&mut self, url: &[u8], added: Added)
        ensures { self.new ≡ own_before added url.now self.old }
    {
        match added {
            Added::Before => {}
            Added::Here => self.urls.remove(url),
            Added::All => self.are_all = false,
        }
    }

    // Whether a URL with a query or a fragment is among them.
    fn has(&self, url: &[u8]) -> bool
        ensures { result ≡ is_own self.now url.now }
    {
        self.are_all || self.urls.get(url).is_some()
    }
}

// Whether a URL has a query or a fragment.
fn has_query(url: &[u8]) -> bool
    ensures { result ≡ has_query url.now }
{
    without_query(url).len() < url.len()
}
