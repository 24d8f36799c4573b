//! The URLs of maps.
ghost use Rattle.std.specs.List.{prefix_len};
ghost use Rattle.std.specs.Prelude.{◌≡◌, ◌≤◌, ◌==◌, ℕ, IfOk, List, false, length, not, option_map, true};
ghost use Rattle.smap_anywhere.specs.MapUrls.{before_backslash, common_begin, common_join, front, front_of};
ghost use Rattle.smap_anywhere.specs.MapUrls.{has_folder, is_argument, is_name, is_name_by, is_without_query, urls_known};
ghost use Rattle.smap_pairs.specs.Json.{has_quotation_mark};

use crate::frame_url::frame_url;
use crate::lengths::each_length;
use memchr::memmem::Finder;
use smap_locations::{Locations, common_front, without_query};
use smap_pairs::{KnownUrls, NamedBy};
use smap_trace::Table;
use std::alloc::{AllocError, Global};
use std::marker::Model;

/// The URLs of a table, which arguments name, and of files, folders and patterns. No call but `new` takes memory.
#[derive(Drop)]
pub struct MapUrls<'t> {
    table: &'t Table,
    locations: &'t Locations,
    // How many bytes the URLs have that are named, and the prefixes of folders, each number once.
    names: Vec<usize>,
    prefixes: Vec<usize>,
    // What all URLs begin with, where they have it in common.
    front: Option<Finder<'t>>,
}

impl<'t> Model for MapUrls<'t> {
    ghost use Rattle.smap_anywhere.specs.MapsSeen.{MapsSeen};
    ghost use Rattle.smap_anywhere.specs.Private.MapUrls.{AreKept};

    ghost Value = { MapsSeen };

    ghost view = { λ urls. record { table = urls.table.now; locations = urls.locations.now } };

    ghost invariant = { λ urls. AreKept
        (record { table = urls.table.now; locations = urls.locations.now })
        urls.names.items urls.prefixes.items urls.front };
}

impl<'t> MapUrls<'t> {
    /// Those of a table and of locations, which are looked through here and at no line.
    pub fn new(
        alloc: Global,
        table: &'t Table,
        locations: &'t Locations,
    ) -> Result<MapUrls<'t>, AllocError>
        ensures { IfOk result (λ urls.
            urls ≡ record { table = table.now; locations = locations.now }) }
    {
        let mut all = table.url_lengths(alloc)?;
        let files = locations.url_lengths(alloc)?;
        all.extend_from_slice(&files)?;
        let names = each_length(alloc, &all)?;
        let folders = locations.prefix_lengths(alloc)?;
        let prefixes = each_length(alloc, &folders)?;
        Ok(MapUrls {
            table,
            locations,
            names,
            prefixes,
            front: front_of_urls(table, locations),
        })
    }

    // Whether an argument names a file for a URL.
    fn is_argument(&self, url: &[u8]) -> bool
        ensures { result ≡ is_argument self.now url.now }
    {
        self.table.map_for(url).is_some()
    }

    // Whether nothing is named: no URL has a file then but by a pattern.
    fn has_patterns_alone(&self) -> bool
        ensures { result ≡ true → (url : List ℕ) → (urls_known self.now).has_own url ≡ false }
    {
        self.names.is_empty() && self.prefixes.is_empty()
    }

    // Whether an argument or a list names a file for a URL, by what is asked for.
    fn is_name_by(&self, by: NamedBy, url: &[u8]) -> bool
        ensures { result ≡ is_name_by self.now by url.now }
    {
        match by {
            NamedBy::Any => self.is_name(url),
            NamedBy::Argument => self.is_argument(url),
            NamedBy::List => self.locations.has_file(url) && is_without_query(url),
        }
    }
}

impl KnownUrls for MapUrls<'_> {
    ghost use Rattle.smap_anywhere.specs.Laws.FrameUrl.{frame_url_within};
    ghost use Rattle.smap_anywhere.specs.Laws.MapFront.{front_known};
    ghost use Rattle.smap_anywhere.specs.MapUrls.{urls_known};

    ghost known = { urls_known };

    fn frame_url(&self, line: &[u8]) -> Option<(usize, usize)> {
        frame_url(line)
    }

    fn has_own(&self, url: &[u8]) -> bool {
        !self.has_patterns_alone()
            && (self.is_argument(url) || self.locations.has_path_as_named(url))
    }

    fn is_name(&self, url: &[u8]) -> bool {
        self.is_argument(url) || self.locations.has_file(url)
    }

    fn is_named(&self, by: NamedBy, url: &[u8]) -> bool {
        self.is_name_by(by, url) && !has_quotation_mark(url)
    }

    fn is_prefix(&self, text: &[u8]) -> bool {
        self.locations.has_folder(text) && is_without_query(text) && !has_quotation_mark(text)
    }

    fn has_pattern(&self, url: &[u8]) -> bool {
        self.locations.has_pattern_path_in_text(url)
    }

    fn name_lengths(&self) -> &[usize] {
        &self.names
    }

    fn prefix_lengths(&self) -> &[usize] {
        &self.prefixes
    }

    fn find_front(&self, text: &[u8]) -> Option<usize> {
        match &self.front {
            Some(front) => front.find(text),
            None => Some(0),
        }
    }

    ghost within = { λ urls. frame_url_within };

    ghost fronts = { front_known };
}

/// Whether a text has a quotation mark.
pub fn has_quotation_mark(text: &[u8]) -> bool
    ensures { result ≡ has_quotation_mark text.now }
{
    text.contains(&b'"')
}

// Whether a text has neither a query nor a fragment.
fn is_without_query(text: &[u8]) -> bool
    ensures { result ≡ is_without_query text.now }
{
    without_query(text) == text
}

// What all URLs begin with, where there are no patterns, up to a backslash.
fn front_of_urls<'t>(table: &'t Table, locations: &'t Locations) -> Option<Finder<'t>>
    ensures { result ≡ front (record { table = table.now; locations = locations.now }) }
{
    if locations.has_patterns() {
        None
    } else {
        front_of(common_begin(table, locations))
    }
}

// What stands in a text before its first backslash, where there is one and it has two bytes at least.
fn front_of<'t>(text: Option<&'t [u8]>) -> Option<Finder<'t>>
    ensures { result ≡ front_of (option_map (λ text. text.now) text.entry) }
{
    let front = before_backslash(text?);
    if 2 <= front.len() {
        Some(Finder::new(front))
    } else {
        None
    }
}

// What all URLs that are named and all prefixes begin with, where there are any.
fn common_begin<'t>(table: &'t Table, locations: &'t Locations) -> Option<&'t [u8]>
    ensures { option_map (λ text. text.now) result
        ≡ common_begin (record { table = table.now; locations = locations.now }) }
{
    let urls = joined(table.common_url(), locations.common_url());
    joined(urls, locations.common_prefix())
}

// What texts all begin with of which some begin with one and the others with another, where there are any.
fn joined<'t>(one: Option<&'t [u8]>, other: Option<&'t [u8]>) -> Option<&'t [u8]>
    ensures { option_map (λ text. text.now) result
        ≡ common_join (option_map (λ text. text.now) one.entry)
        (option_map (λ text. text.now) other.entry) }
{
    let Some(one) = one else {
        return other;
    };
    match other {
        Some(other) => Some(common_front(one, other)),
        None => Some(one),
    }
}

// What stands in a text before its first backslash.
fn before_backslash(text: &[u8]) -> &[u8]
    ensures { result.now ≡ before_backslash text.now }
{
    &text[..bytes_before_backslash(text)]
}

// How many bytes that is.
fn bytes_before_backslash(text: &[u8]) -> usize
    ensures count { result ≡ prefix_len (λ byte. not (byte == 92)) text.now }
    ensures within { result ≤ length text.now }
{
    text.iter().take_while(|byte| **byte != b'\\').count()
}
