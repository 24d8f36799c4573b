//! The files and the folders that maps are in.
ghost use Rattle.std.specs.Prelude.{◌≡◌, ◌<◌, ◌≤◌, ◌==◌, ◌++◌, ◌∷◌, [], is_some, not, string_bytes, option_map, MatchOption};
ghost use Rattle.std.specs.Prelude.{OnErr, OnOk, IfErr, IfOk, IsErrAnd, length, map};
ghost use Rattle.smap_locations.specs.Deciding.{decided_by, longest_prefix};
ghost use Rattle.smap_locations.specs.Locations.{has_path_as_named, has_pattern_path_in_text, key_for, path_for, path_in_folders, pattern_for, prefix_refusal};
ghost use Rattle.smap_locations.specs.Patterns.{has_text, pattern_refusal};
ghost use Rattle.std.specs.List.{list_any, position_or_len};
ghost use Rattle.std.specs.Option.{ForSome};
ghost use Rattle.smap_locations.specs.ByText.{IsWith, value_under};
ghost use Rattle.smap_locations.specs.Common.{common_of};
ghost use Rattle.smap_locations.specs.Named.{twice};
ghost use Rattle.smap_locations.specs.declared.refusal.LocationRefusal.TheVariants.{Memory};

use crate::list_line::is_folder;
use crate::named::NamedPaths;
use crate::paths::{has_map_path, map_path, without_query};
use crate::patterns::Patterns;
use crate::refusal::LocationRefusal;
use std::alloc::{AllocError, Global};
use std::marker::Model;

/// The files that are named for URLs, the folders under prefixes of URLs, which end in `/`, and the files and folders of
/// patterns.
#[derive(Drop)]
pub struct Locations {
    files: NamedPaths,
    folders: NamedPaths,
    patterns: Patterns,
}

impl Model for Locations {
    ghost use Rattle.std.specs.Prelude.{◌≡◌, true};
    ghost use Rattle.std.specs.List.{list_all};
    ghost use Rattle.smap_locations.specs.ListLine.{is_folder};
    ghost use Rattle.smap_locations.specs.Locations.{LocationsSeen};

    ghost Value = { LocationsSeen };

    ghost view = { λ locations. record {
      files = locations.files;
      folders = locations.folders;
      patterns = locations.patterns;
    } };

    ghost invariant = { λ locations. list_all (λ e. is_folder e.0) locations.folders ≡ true };
}

impl Locations {
    /// No location. The call takes no memory.
    pub fn new(alloc: Global) -> Locations
        ensures { result ≡ record { files = []; folders = []; patterns = [] } }
    {
        Locations {
            files: NamedPaths::new(alloc),
            folders: NamedPaths::new(alloc),
            patterns: Patterns::new(alloc),
        }
    }

    /// Names a file for a URL. After a refusal nothing is changed.
    pub fn add_file(&mut self, url: String, path: String) -> Result<(), LocationRefusal>
        ensures added { OnOk result
            (IsWith self.old.files (string_bytes url) (string_bytes path) self.new.files) }
        ensures others { (self.new.folders ≡ self.old.folders) ×
            (self.new.patterns ≡ self.old.patterns) }
        ensures kept { OnErr result (self.new ≡ self.old) }
        ensures refused { MatchOption (twice self.old.files (string_bytes url))
            (IfErr result (λ refusal. refusal ≡ Memory))
            (λ refusal. IsErrAnd result (λ e. e ≡ refusal)) }
    {
        self.files.add(url, path)
    }

    /// Whether a file is named for a URL.
    pub fn has_file(&self, url: &[u8]) -> bool
        ensures { result ≡ is_some (value_under url.now self.now.files) }
    {
        self.files.path_under(url).is_some()
    }

    /// Whether a folder is named for a prefix.
    pub fn has_folder(&self, prefix: &[u8]) -> bool
        ensures { result ≡ is_some (value_under prefix.now self.now.folders) }
    {
        is_folder(prefix) && self.folders.path_under(prefix).is_some()
    }

    /// How many bytes the URLs have for which files are named, one after another in the order of the URLs.
    pub fn url_lengths(&self, alloc: Global) -> Result<Vec<usize>, AllocError>
        ensures { IfOk result (λ lengths. lengths.items
            ≡ map (λ pair. length pair.0) self.now.files) }
    {
        self.files.lengths(alloc)
    }

    /// How many bytes the prefixes have for which folders are named, one after another in the order of the prefixes.
    pub fn prefix_lengths(&self, alloc: Global) -> Result<Vec<usize>, AllocError>
        ensures { IfOk result (λ lengths.
            lengths.items ≡ map (λ pair. length pair.0) self.now.folders) }
    {
        self.folders.lengths(alloc)
    }

    /// What the URLs for which files are named all begin with, where there is one at least. The call takes no memory.
    pub fn common_url(&self) -> Option<&[u8]>
        ensures { option_map (λ text. text.now) result
            ≡ common_of (map (λ pair. pair.0) self.now.files) }
    {
        self.files.common()
    }

    /// What the prefixes for which folders are named all begin with, where there is one at least. The call takes no memory.
    pub fn common_prefix(&self) -> Option<&[u8]>
        ensures { option_map (λ text. text.now) result
            ≡ common_of (map (λ pair. pair.0) self.now.folders) }
    {
        self.folders.common()
    }

    /// Names a folder for a prefix. The path stands before the names of its files as it is. After a refusal, which comes
    /// in the order of `LocationRefusal`, nothing is changed.
    pub fn add_folder(&mut self, prefix: String, folder: String) -> Result<(), LocationRefusal>
        ensures added { OnOk result
            (IsWith self.old.folders (string_bytes prefix) (string_bytes folder) self.new.folders) }
        ensures others { (self.new.files ≡ self.old.files) ×
            (self.new.patterns ≡ self.old.patterns) }
        ensures kept { OnErr result (self.new ≡ self.old) }
        ensures refused { MatchOption (prefix_refusal self.old.folders (string_bytes prefix))
            (IfErr result (λ refusal. refusal ≡ Memory))
            (λ refusal. IsErrAnd result (λ e. e ≡ refusal)) }
    {
        if !is_folder(prefix.as_bytes()) {
            return Err(LocationRefusal::NoFolder);
        }
        self.folders.add(prefix, folder)
    }

    /// Adds a pattern: a text that stands behind `*`, and the path of a file or, where it ends in `/`, of a folder; then the
    /// text ends in `/` or `\`. After a refusal, which comes in the order of `LocationRefusal`, nothing is changed.
    pub fn add_pattern(&mut self, text: Vec<u8>, path: String) -> Result<(), LocationRefusal>
        ensures added { OnOk result
            (self.new.patterns ≡ self.old.patterns ++ (text.items, string_bytes path) ∷ []) }
        ensures others { (self.new.files ≡ self.old.files) × (self.new.folders ≡ self.old.folders) }
        ensures kept { OnErr result (self.new ≡ self.old) }
        ensures refused { MatchOption (pattern_refusal self.old.patterns text.items
            (string_bytes path))
            (IfErr result (λ refusal. refusal ≡ Memory))
            (λ refusal. IsErrAnd result (λ e. e ≡ refusal)) }
    {
        self.patterns.add(text, path)
    }

    /// Whether a pattern has this text.
    pub fn has_pattern(&self, text: &[u8]) -> bool
        ensures { result ≡ list_any (has_text text.now) self.now.patterns }
    {
        self.patterns.has_text(text)
    }

    /// Whether there is a pattern.
    pub fn has_patterns(&self) -> bool
        ensures { result ≡ not (length self.now.patterns == 0) }
    {
        !self.patterns.is_empty()
    }

    /// Whether what is named for a URL, but for patterns, has a path: a file that is named for the URL, or for it without
    /// its query and its fragment; or the folder of the longest prefix. The call takes no memory.
    pub fn has_path_as_named(&self, url: &[u8]) -> bool
        ensures { result ≡ has_path_as_named self.now url.now }
    {
        let short = without_query(url);
        self.has_file(url) || self.has_file(short) || self.has_path_in_folders(short)
    }

    /// Whether the pattern that decides for a URL that stands in a text gives a path, where those with an empty text decide
    /// for none. The call takes no memory.
    pub fn has_pattern_path_in_text(&self, url: &[u8]) -> bool
        ensures { result ≡ has_pattern_path_in_text self.now url.now }
    {
        self.patterns.has_path_in_text(url, without_query(url))
    }

    /// The place of the pattern that decides for a URL, from 0 in the order in which they were added, where one does. The
    /// call takes no memory.
    pub fn pattern_place(&self, url: &[u8]) -> Option<usize>
        ensures place { result ≡ option_map (λ text.
            position_or_len (has_text text) self.now.patterns) (pattern_for self.now url.now) }
        ensures within { ForSome result (λ place. place < length self.now.patterns) }
    {
        self.patterns.place_for(url, without_query(url))
    }

    /// The path of the file that has a URL's map, where there is one: what is named for the URL, or for it without its query
    /// and its fragment; or the file in the folder of the longest prefix, if what stands behind that is a plain path; or
    /// what the pattern gives that has the longest text.
    pub fn path_for(&self, alloc: Global, url: &[u8]) -> Result<Option<String>, AllocError>
        ensures { IfOk result (λ path. option_map string_bytes path ≡ path_for self.now url.now) }
    {
        if let Some(path) = self.files.path_under(url) {
            return Ok(Some(String::from_str(alloc, path)?));
        }
        let short = without_query(url);
        if let Some(path) = self.files.path_under(short) {
            return Ok(Some(String::from_str(alloc, path)?));
        }
        if let Some(path) = self.path_in_folders(alloc, short)? {
            return Ok(Some(path));
        }
        self.patterns.path_for(alloc, url, short)
    }

    /// The text that stands for a URL where maps are remembered: the URL itself where a file is named for it, or a pattern
    /// needs its query or its fragment, else the URL without these. So URLs of one text have one path.
    pub fn key_for<'u>(&self, url: &'u [u8]) -> &'u [u8]
        ensures key { result.now ≡ key_for self.now url.now }
        ensures path { path_for self.now result.now ≡ path_for self.now url.now }
    {
        if self.has_file(url) {
            return url;
        }
        let short = without_query(url);
        if short.len() < url.len() && self.patterns.needs_query(url, short) {
            url
        } else {
            short
        }
    }

    /// What decides where the map of a URL is, where it has one, as it was named: the URL, with or without its query and its
    /// fragment, the prefix of a folder, or a pattern behind its `*`.
    pub fn decided_by(&self, alloc: Global, url: &[u8]) -> Result<Option<Vec<u8>>, AllocError>
        ensures { IfOk result (λ name. option_map (λ text. text.items) name
            ≡ decided_by self.now url.now) }
    {
        if self.has_file(url) {
            return Ok(Some(Vec::from_slice(alloc, url)?));
        }
        let short = without_query(url);
        if self.has_file(short) {
            return Ok(Some(Vec::from_slice(alloc, short)?));
        }
        if self.path_in_folders(alloc, short)?.is_some() {
            let prefix = &short[..self.longest_prefix(short)];
            return Ok(Some(Vec::from_slice(alloc, prefix)?));
        }
        self.patterns.decided_by(alloc, url, short)
    }

    // The path of the file in the folder of the longest prefix of a URL.
    fn path_in_folders(&self, alloc: Global, url: &[u8]) -> Result<Option<String>, AllocError>
        ensures { IfOk result (λ path.
            option_map string_bytes path ≡ path_in_folders self.now.folders url.now) }
    {
        let (prefix, rest) = url.split_at(self.longest_prefix(url));
        match self.folders.path_under(prefix) {
            Some(folder) => map_path(alloc, folder, rest),
            None => Ok(None),
        }
    }

    // Whether the folder of the longest prefix of a URL has a file for it.
    fn has_path_in_folders(&self, url: &[u8]) -> bool
        ensures { result ≡ is_some (path_in_folders self.now.folders url.now) }
    {
        let (prefix, rest) = url.split_at(self.longest_prefix(url));
        self.folders.path_under(prefix).is_some() && has_map_path(rest, false)
    }

    // How many bytes the longest prefix of a URL has that has a folder, 0 where none has one.
    fn longest_prefix(&self, url: &[u8]) -> usize
        ensures prefix { result ≡ longest_prefix self.now.folders url.now }
        ensures within { result ≤ length url.now }
    {
        let mut end = url.len();
        while end > 0 {
            let (prefix, _) = url.split_at(end);
            if self.has_folder(prefix) {
                return end;
            }
            end -= 1;
        }
        0
    }
}
