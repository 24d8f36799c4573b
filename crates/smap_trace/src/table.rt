//! The maps of a trace.
ghost use Rattle.std.specs.Prelude.{◌≡◌, [], string_bytes, option_map, MatchOption, OnOk, OnErr, IfErr, IfOk, IsErrAnd, None, length, map};
ghost use Rattle.std.specs.Str.{IsUtf8};
ghost use Rattle.smap_locations.specs.ByText.{IsWith, value_under};
ghost use Rattle.smap_locations.specs.Common.{common_of};
ghost use Rattle.smap_trace.specs.Table.{is_bad_url, url_refusal};
ghost use Rattle.smap_trace.specs.declared.refusal.TableRefusal.TheVariants.{Memory};

use crate::entry::Entry;
use crate::refusal::TableRefusal;
use smap_locations::ByText;
use smap_record::{MapFile, ReadyMap, SharedMap};
use std::alloc::{AllocError, AllocFailed, Global};
use std::marker::Model;

/// The maps of a trace, each under the URL that its frames name.
#[derive(Drop)]
pub struct Table {
    maps: ByText<Entry>,
}

impl Model for Table {
    ghost use Rattle.std.specs.Prelude.{ℕ, List};
    ghost use Rattle.smap_locations.specs.ByText.{all_seen};
    ghost use Rattle.smap_record.specs.Record.{MapRecord};
    ghost use Rattle.smap_trace.specs.Private.EntrySeen.{entry_seen};

    ghost Value = { List (List ℕ × MapRecord) };

    ghost view = { λ table. all_seen entry_seen table.maps };
}

impl Table {
    /// A table without maps. The call takes no memory.
    pub fn new(alloc: Global) -> Table
        ensures { result ≡ [] }
    {
        Table {
            maps: ByText::new(alloc),
        }
    }

    /// Puts a map into the table, under its URL. Frames name the URL as it stands there. After a refusal, which comes in
    /// the order of `TableRefusal`, both values come back.
    pub fn add(&mut self, url: String, map: MapFile) -> Result<(), (TableRefusal, String, MapFile)>
        ensures added { OnOk result (IsWith self.old (string_bytes url) map.stated self.new) }
        ensures kept { OnErr result (self.new ≡ self.old) }
        ensures back { IfErr result (λ e. (string_bytes e.1 ≡ string_bytes url) × (e.2 ≡ map)) }
        ensures refused { MatchOption (url_refusal self.old (string_bytes url))
            (IfErr result (λ e. e.0 ≡ Memory)) (λ refusal. IsErrAnd result (λ e. e.0 ≡ refusal)) }
    {
        if is_bad_url(url.as_bytes()) {
            return Err((TableRefusal::BadUrl, url, map));
        }
        if self.map_for(url.as_str().as_bytes()).is_some() {
            return Err((TableRefusal::Twice, url, map));
        }
        let own = Entry::Own(ReadyMap::new(*url.allocator(), map));
        match self.maps.add(url.into_bytes(), own) {
            Ok(()) => Ok(()),
            Err(
                AllocFailed {
                    value: (url, entry),
                },
            ) => match entry {
                Entry::Own(map) => Err((TableRefusal::Memory, text(url), map.into_map())),
                Entry::Shared(_) => unreachable!("the map is the table's own"),
            },
        }
    }

    /// Puts a map that others may hold, too, into the table, under a URL that it takes. Where memory runs out, nothing is
    /// changed.
    pub fn add_shared(&mut self, url: Vec<u8>, map: SharedMap) -> Result<(), AllocError>
        requires { url_refusal self.old url.items ≡ None }
        ensures added { OnOk result (IsWith self.old url.items map.stated self.new) }
        ensures kept { OnErr result (self.new ≡ self.old) }
    {
        match self.maps.add(url, Entry::Shared(map)) {
            Ok(()) => Ok(()),
            Err(_) => Err(AllocError),
        }
    }

    /// How many maps there are.
    pub fn count(&self) -> usize
        ensures { result ≡ length self.now }
    {
        self.maps.count()
    }

    /// How many bytes the URLs have, one after another in the table's order.
    pub fn url_lengths(&self, alloc: Global) -> Result<Vec<usize>, AllocError>
        ensures { IfOk result (λ lengths. lengths.items ≡ map (λ pair. length pair.0) self.now) }
    {
        self.maps.lengths(alloc)
    }

    /// What the URLs all begin with, where there is one at least. The call takes no memory.
    pub fn common_url(&self) -> Option<&[u8]>
        ensures { option_map (λ text. text.now) result ≡ common_of (map (λ pair. pair.0) self.now) }
    {
        self.maps.common()
    }

    /// The map under a URL, where there is one.
    pub fn map_for(&self, url: &[u8]) -> Option<&ReadyMap>
        ensures { option_map (λ map. map.now.stated) result ≡ value_under url.now self.now }
    {
        match self.maps.get(url) {
            Some(entry) => Some(entry.map()),
            None => None,
        }
    }
}

// The text that these bytes are.
fn text(bytes: Vec<u8>) -> String
    requires { IsUtf8 bytes.items }
    ensures { string_bytes result ≡ bytes.items }
{
    match String::from_utf8(bytes) {
        Ok(text) => text,
        Err(_) => unreachable!("the bytes are those of a text"),
    }
}

/// Whether no table takes such a URL: it is empty, holds a CR or an LF, or begins with `async ` or `eval at `.
#[tactic(auto, unfolding(crate::specs::Table::is_bad_url))]
pub fn is_bad_url(url: &[u8]) -> bool
    ensures { result ≡ is_bad_url url.now }
{
    url.is_empty()
        || url.contains(&b'\n')
        || url.contains(&b'\r')
        || url.starts_with(b"async ")
        || url.starts_with(b"eval at ")
}
