//! Maps under URLs, and under patterns of URLs, with the declarations of their programs.
ghost use Rattle.std.specs.Prelude.{◌≡◌, [], None, is_some, option_map, true, OnErr, OnOk};
ghost use Rattle.smap_locations.specs.ByText.{value_under};
ghost use Rattle.smap_locations.specs.ListLine.{pattern_text};
ghost use Rattle.smap_trace.specs.Table.{url_refusal as word_refusal};
ghost use Rattle.smap_store.specs.UrlTable.{IsAdded, IsNamed, IsWithNames, IsWithPattern, IsWithPatternNames, IsWithWord};
ghost use Rattle.smap_store.specs.UrlTable.{deciding_text, declared_by_pattern, declared_under, empty_table, entry_map, locations_of, map_by_pattern, map_under, names_of_entry, takes_names, url_refusal};

use crate::fileless::asks_no_file;
use crate::pattern_map::PatternMap;
use crate::shared_declarations::SharedDeclarations;
use smap_declarations::Declarations;
use smap_locations::{ByText, Locations, pattern_text, without_query};
use smap_record::{ReadyMap, SharedMap};
use smap_trace::{Table, TableRefusal, is_bad_url};
use std::alloc::{AllocError, Global};
use std::marker::Model;

/// Maps, each under a URL, or under `*` and the text of a pattern, which is that of a file; and beside each the
/// declarations of its program, or none.
#[derive(Drop)]
pub struct UrlTable {
    exact: Table,
    // The patterns, each with a path that nobody asks for.
    locations: Locations,
    // Their maps, in the same order.
    patterns: Vec<PatternMap>,
    // The declarations beside the maps of URLs, and beside those of patterns.
    names: ByText<SharedDeclarations>,
    pattern_names: ByText<SharedDeclarations>,
}

impl Model for UrlTable {
    ghost use Rattle.std.specs.Prelude.{◌≡◌, map};
    ghost use Rattle.smap_store.specs.PatternSeen.{pattern_seen};
    ghost use Rattle.smap_store.specs.UrlTable.{UrlTableSeen, locations_of};

    ghost Value = { UrlTableSeen };

    ghost view = { λ table. record {
      exact = table.exact;
      patterns = map pattern_seen table.patterns.items;
      names = table.names;
      pattern_names = table.pattern_names;
    } };

    ghost invariant = { λ table. table.locations ≡ locations_of (map pattern_seen table.patterns.items) };
}

impl UrlTable {
    /// A table without maps. The call takes no memory.
    pub fn new(alloc: Global) -> UrlTable
        ensures { result ≡ empty_table }
    {
        UrlTable {
            exact: Table::new(alloc),
            locations: Locations::new(alloc),
            patterns: Vec::new(alloc),
            names: ByText::new(alloc),
            pattern_names: ByText::new(alloc),
        }
    }

    /// Why the table takes no map under a URL or a pattern: no frame can name it, or it has a map there.
    pub fn refusal_of(&self, url: &[u8]) -> Option<TableRefusal>
        ensures { result ≡ url_refusal self.now url.now }
    {
        if is_bad_url(url) {
            Some(TableRefusal::BadUrl)
        } else if self.has_entry(url) {
            Some(TableRefusal::Twice)
        } else {
            None
        }
    }

    // Whether it has a map under this very URL or pattern.
    fn has_entry(&self, url: &[u8]) -> bool
        ensures { result ≡ is_some (entry_map self.now url.now) }
    {
        match pattern_text(url) {
            Some(text) => self.has_pattern(text),
            None => self.exact.map_for(url).is_some(),
        }
    }

    // Whether it has a pattern of this text.
    fn has_pattern(&self, text: &[u8]) -> bool
        ensures { result ≡ is_some (value_under text.now self.now.patterns) }
    {
        self.locations.has_pattern(text)
    }

    /// Whether it has a map for each URL: one under `*` alone.
    pub fn has_map_of_all(&self) -> bool
        ensures { result ≡ is_some (value_under [] self.now.patterns) }
    {
        self.has_pattern(b"")
    }

    /// Puts a map, which others may hold, too, into the table, under its URL or under `*` and the text of its pattern. Where
    /// memory runs out, nothing is changed.
    pub fn add(&mut self, alloc: Global, url: &str, map: SharedMap) -> Result<(), AllocError>
        requires { url_refusal self.old url.now ≡ None }
        ensures added { OnOk result (IsAdded self.old url.now map.stated self.new) }
        ensures kept { OnErr result (self.new ≡ self.old) }
    {
        match pattern_text(url.as_bytes()) {
            Some(text) => self.add_pattern(alloc, text, map),
            None => self.add_word(alloc, url, map),
        }
    }

    // Puts a map under a URL. Where that can't be, nothing is changed.
    fn add_word(&mut self, alloc: Global, url: &str, map: SharedMap) -> Result<(), AllocError>
        requires { word_refusal self.old.exact url.now ≡ None }
        ensures added { OnOk result (IsWithWord self.old url.now map.stated self.new) }
        ensures kept { OnErr result (self.new ≡ self.old) }
    {
        let owned = Vec::from_slice(alloc, url.as_bytes())?;
        self.exact.add_shared(owned, map)
    }

    // Puts a map under the text of a pattern. Where that can't be, nothing is changed.
    fn add_pattern(&mut self, alloc: Global, text: &[u8], map: SharedMap) -> Result<(), AllocError>
        ensures added { OnOk result (IsWithPattern self.old text.now map.stated self.new) }
        ensures kept { OnErr result (self.new ≡ self.old) }
    {
        let named = Vec::from_slice(alloc, text)?;
        let text = Vec::from_slice(alloc, text)?;
        // Then the last step does not fail.
        self.patterns.reserve(1)?;
        match self.locations.add_pattern(named, String::new(alloc)) {
            Ok(()) => {}
            Err(_) => return Err(AllocError),
        }
        match self.patterns.push(PatternMap { text, map }) {
            Ok(()) => Ok(()),
            Err(_) => unreachable!("there is room for one more"),
        }
    }

    /// The map of a URL: that under it; with `cut`, else that under it without its query and its fragment; else that of the
    /// pattern that decides for it. The call takes no memory.
    pub fn map_under(&self, url: &[u8], cut: bool) -> Option<&ReadyMap>
        ensures { option_map (λ map. map.now.stated) result ≡ map_under cut self.now url.now }
    {
        if let Some(map) = self.exact.map_for(url) {
            return Some(map);
        }
        if cut {
            if let Some(map) = self.exact.map_for(without_query(url)) {
                return Some(map);
            }
        }
        self.map_by_pattern(url)
    }

    // The map of the pattern that decides for a URL.
    fn map_by_pattern(&self, url: &[u8]) -> Option<&ReadyMap>
        ensures { option_map (λ map. map.now.stated) result ≡ map_by_pattern self.now url.now }
    {
        let pattern = self.deciding_pattern(url)?;
        Some(pattern.map.ready())
    }

    // The pattern that decides for a URL.
    fn deciding_pattern(&self, url: &[u8]) -> Option<&PatternMap>
        ensures map { option_map (λ pattern. pattern.now.map.stated) result
            ≡ map_by_pattern self.now url.now }
        ensures text { option_map (λ pattern. pattern.now.text.items) result
            ≡ deciding_text self.now url.now }
    {
        if asks_no_file(&self.locations, url) {
            return None;
        }
        let place = self.locations.pattern_place(url)?;
        Some(&self.patterns[place])
    }

    /// Whether declarations can be put beside the map under this very URL or pattern: it has one there, and none beside it.
    pub fn takes_names(&self, url: &[u8]) -> bool
        ensures { result ≡ takes_names self.now url.now }
    {
        self.has_entry(url) && !self.has_names(url)
    }

    // Whether declarations stand beside the map under this very URL or pattern.
    fn has_names(&self, url: &[u8]) -> bool
        ensures { result ≡ is_some (names_of_entry self.now (pattern_text url.now) url.now) }
    {
        match pattern_text(url) {
            Some(text) => self.pattern_names.get(text).is_some(),
            None => self.names.get(url).is_some(),
        }
    }

    /// Puts declarations, which others may hold, too, beside the map under a URL or under `*` and the text of its pattern:
    /// those of its program. Where memory runs out, nothing is changed.
    pub fn add_names(
        &mut self,
        alloc: Global,
        url: &[u8],
        names: SharedDeclarations,
    ) -> Result<(), AllocError>
        requires { takes_names self.old url.now ≡ true }
        ensures added { OnOk result (IsNamed self.old url.now names self.new) }
        ensures kept { OnErr result (self.new ≡ self.old) }
    {
        match pattern_text(url) {
            Some(text) => self.add_pattern_names(alloc, text, names),
            None => self.add_word_names(alloc, url, names),
        }
    }

    // Puts declarations beside the map under a URL. Where that can't be, nothing is changed.
    fn add_word_names(
        &mut self,
        alloc: Global,
        url: &[u8],
        names: SharedDeclarations,
    ) -> Result<(), AllocError>
        requires { value_under url.now self.old.names ≡ None }
        ensures added { OnOk result (IsWithNames self.old url.now names self.new) }
        ensures kept { OnErr result (self.new ≡ self.old) }
    {
        let owned = Vec::from_slice(alloc, url)?;
        match self.names.add(owned, names) {
            Ok(()) => Ok(()),
            Err(_) => Err(AllocError),
        }
    }

    // Puts declarations beside the map of a pattern of this text. Where that can't be, nothing is changed.
    fn add_pattern_names(
        &mut self,
        alloc: Global,
        text: &[u8],
        names: SharedDeclarations,
    ) -> Result<(), AllocError>
        requires { value_under text.now self.old.pattern_names ≡ None }
        ensures added { OnOk result (IsWithPatternNames self.old text.now names self.new) }
        ensures kept { OnErr result (self.new ≡ self.old) }
    {
        let owned = Vec::from_slice(alloc, text)?;
        match self.pattern_names.add(owned, names) {
            Ok(()) => Ok(()),
            Err(_) => Err(AllocError),
        }
    }

    /// The declarations beside the map of a URL, where there are some: beside the one that `map_under` gives. The call
    /// takes no memory.
    pub fn names_under(&self, url: &[u8], cut: bool) -> Option<&Declarations>
        ensures { option_map (λ names. names.now) result ≡ declared_under cut self.now url.now }
    {
        if self.has_no_names() {
            return None;
        }
        if self.exact.map_for(url).is_some() {
            return names_in(&self.names, url);
        }
        let short = without_query(url);
        if cut && self.exact.map_for(short).is_some() {
            return names_in(&self.names, short);
        }
        self.names_by_pattern(url)
    }

    // Whether no declarations stand beside any map.
    fn has_no_names(&self) -> bool
        ensures { result ≡ true → (self.now.names ≡ []) × (self.now.pattern_names ≡ []) }
    {
        self.names.count() == 0 && self.pattern_names.count() == 0
    }

    // The declarations beside the map of the pattern that decides for a URL.
    fn names_by_pattern(&self, url: &[u8]) -> Option<&Declarations>
        ensures { option_map (λ names. names.now) result ≡ declared_by_pattern self.now url.now }
    {
        let pattern = self.deciding_pattern(url)?;
        names_in(&self.pattern_names, &pattern.text)
    }

    /// The maps under URLs.
    pub fn exact(&self) -> &Table
        ensures { result.now ≡ self.now.exact }
    {
        &self.exact
    }

    /// The patterns, as those of files whose paths nobody asks for.
    pub fn locations(&self) -> &Locations
        ensures { result.now ≡ locations_of self.now.patterns }
    {
        &self.locations
    }
}

// The declarations under a text, where there are some.
fn names_in<'n>(names: &'n ByText<SharedDeclarations>, text: &[u8]) -> Option<&'n Declarations>
    ensures { option_map (λ names. names.now) result ≡ value_under text.now names.now }
{
    match names.get(text) {
        Some(names) => Some(names.get()),
        None => None,
    }
}
