//! The patterns of URLs.
ghost use Rattle.std.specs.Prelude.{◌≡◌, ◌==◌, ◌<◌, ◌++◌, ◌∷◌, [], None, Some, true, false, is_some, length, option_map, string_bytes, MatchBool, MatchOption};
ghost use Rattle.std.specs.Prelude.{OnErr, OnOk, IfErr, IfOk, IsErrAnd};
ghost use Rattle.std.specs.List.{list_any, position_or_len};
ghost use Rattle.std.specs.Option.{ForSome};
ghost use Rattle.smap_locations.specs.ByText.{IsWith, value_under};
ghost use Rattle.smap_locations.specs.Deciding.{pattern_name};
ghost use Rattle.smap_locations.specs.ListLine.{is_folder};
ghost use Rattle.smap_locations.specs.PatternSeen.{pattern_seen};
ghost use Rattle.smap_locations.specs.Patterns.{deciding, has_path_in_text, has_text, path_by_patterns, pattern_refusal, text_by_patterns};
ghost use Rattle.smap_locations.specs.Private.Best.{Comes, IsCovered, IsFor, at_place};
ghost use Rattle.smap_locations.specs.declared.refusal.LocationRefusal.TheVariants.{Memory};

mod files;
mod folders;

use crate::list_line::is_folder;
use crate::pattern::Pattern;
use crate::pieces::ends_in_separator;
use crate::refusal::LocationRefusal;
use crate::text_places::TextPlaces;
use std::alloc::{AllocError, Global};
use std::marker::Model;

/// Patterns, in the order in which they were added. A URL's are found by their texts: in the time of a look-up for each
/// length that they have, and, of those of folders, for each piece of the URL.
#[derive(Drop)]
pub struct Patterns {
    all: Vec<Pattern>,
    // Where those of files stand among all, and those of folders.
    files: TextPlaces,
    folders: TextPlaces,
}

impl Model for Patterns {
    ghost use Rattle.std.specs.Prelude.{map};
    ghost use Rattle.smap_locations.specs.Named.{Named};
    ghost use Rattle.smap_locations.specs.PatternSeen.{pattern_seen};
    ghost use Rattle.smap_locations.specs.Private.Places.{ArePlaced};

    ghost Value = { Named };

    ghost view = { λ patterns. map pattern_seen patterns.all.items };

    ghost invariant = { λ patterns. ArePlaced (map pattern_seen patterns.all.items) patterns.files patterns.folders };
}

impl Patterns {
    /// No pattern. The call takes no memory.
    pub fn new(alloc: Global) -> Patterns
        ensures { result ≡ [] }
    {
        Patterns {
            all: Vec::new(alloc),
            files: TextPlaces::new(alloc),
            folders: TextPlaces::new(alloc),
        }
    }

    /// Adds a pattern. After a refusal nothing is changed.
    pub fn add(&mut self, text: Vec<u8>, path: String) -> Result<(), LocationRefusal>
        ensures added { OnOk result
            (self.new ≡ self.old ++ (text.items, string_bytes path) ∷ []) }
        ensures kept { OnErr result (self.new ≡ self.old) }
        ensures refused { MatchOption (pattern_refusal self.old text.items (string_bytes path))
            (IfErr result (λ refusal. refusal ≡ Memory))
            (λ refusal. IsErrAnd result (λ e. e ≡ refusal)) }
    {
        if is_folder(path.as_bytes()) && !ends_in_separator(&text) {
            return Err(LocationRefusal::NoFolder);
        }
        if self.has_text(&text) {
            return Err(LocationRefusal::Twice);
        }
        match self.put(text, path) {
            Ok(()) => Ok(()),
            Err(_) => Err(LocationRefusal::Memory),
        }
    }

    // Adds a pattern that is not refused. Where memory runs out, nothing is changed.
    fn put(&mut self, text: Vec<u8>, path: String) -> Result<(), AllocError>
        requires { pattern_refusal self.old text.items (string_bytes path) ≡ None }
        ensures added { OnOk result
            (self.new ≡ self.old ++ (text.items, string_bytes path) ∷ []) }
        ensures kept { OnErr result (self.new ≡ self.old) }
    {
        let named = copy_of(&text)?;
        // Then the last step does not fail.
        self.all.reserve(1)?;
        let place = self.all.len();
        let for_folder = is_folder(path.as_bytes());
        add_place(&mut self.files, &mut self.folders, for_folder, named, place)?;
        match self.all.push(Pattern { text, path }) {
            Ok(()) => Ok(()),
            Err(_) => unreachable!("there is room for one more"),
        }
    }

    /// Whether one has this text.
    pub fn has_text(&self, text: &[u8]) -> bool
        ensures { result ≡ list_any (has_text text.now) self.now }
    {
        self.files.get(text).is_some() || self.folders.get(text).is_some()
    }

    /// Whether there is none.
    pub fn is_empty(&self) -> bool
        ensures { result ≡ length self.now == 0 }
    {
        self.all.is_empty()
    }

    /// Whether the one that decides for a URL gives a path, where those with an empty text decide for none. The URL is
    /// `short` without its query and its fragment.
    pub fn has_path_in_text(&self, url: &[u8], short: &[u8]) -> bool
        ensures { result ≡ has_path_in_text self.now url.now short.now }
    {
        match self.deciding(url, short) {
            Some(pattern) => pattern.is_for_texts() && pattern.has_path(short),
            None => false,
        }
    }

    /// The place of the pattern that decides for a URL, from 0, where one does. The URL is `short` without its query and its
    /// fragment.
    pub fn place_for(&self, url: &[u8], short: &[u8]) -> Option<usize>
        ensures place { result ≡ option_map (λ text. position_or_len (has_text text) self.now)
            (text_by_patterns self.now url.now short.now) }
        ensures decides { at_place self.now result ≡ deciding url.now short.now None self.now }
        ensures within { ForSome result (λ place. place < length self.now) }
    {
        if self.all.is_empty() {
            return None;
        }
        let best = self.best_of_files(url, short);
        self.better_of_folders(best, url, short)
    }

    /// The path that the pattern gives which decides for a URL, where one does. The URL is `short` without its query and
    /// its fragment.
    pub fn path_for(
        &self,
        alloc: Global,
        url: &[u8],
        short: &[u8],
    ) -> Result<Option<String>, AllocError>
        ensures { IfOk result (λ path.
            option_map string_bytes path ≡ path_by_patterns self.now url.now short.now) }
    {
        match self.deciding(url, short) {
            Some(pattern) => pattern.path_by(alloc, short),
            None => Ok(None),
        }
    }

    /// The pattern that decides for a URL, behind its `*`, where one does and gives a path. The URL is `short` without its
    /// query and its fragment.
    pub fn decided_by(
        &self,
        alloc: Global,
        url: &[u8],
        short: &[u8],
    ) -> Result<Option<Vec<u8>>, AllocError>
        ensures { IfOk result (λ name. option_map (λ text. text.items) name
            ≡ pattern_name short.now (deciding url.now short.now None self.now)) }
    {
        match self.deciding(url, short) {
            Some(pattern) => pattern.name_for(alloc, short),
            None => Ok(None),
        }
    }

    // The pattern that decides for a URL.
    fn deciding(&self, url: &[u8], short: &[u8]) -> Option<&Pattern>
        ensures { option_map (λ pattern. pattern_seen pattern.now) result
            ≡ deciding url.now short.now None self.now }
    {
        match self.place_for(url, short) {
            Some(place) => Some(&self.all[place]),
            None => None,
        }
    }

    // The better one of the best so far and of one that was found, if that has the URL.
    fn better(
        &self,
        best: Option<usize>,
        found: Option<usize>,
        url: &[u8],
        short: &[u8],
    ) -> Option<usize>
        requires best { IsFor self.now url.now short.now best }
        requires found { ForSome found (λ place. place < length self.now) }
        ensures { Comes self.now url.now short.now best result
            (λ place pattern. found ≡ Some place) }
    {
        let Some(place) = found else {
            return best;
        };
        if self.is_better(best, place) && self.all[place].has_url(url, short) {
            Some(place)
        } else {
            best
        }
    }

    // Whether one decides before the best so far.
    fn is_better(&self, best: Option<usize>, place: usize) -> bool
        requires best { ForSome best (λ other. other < length self.now) }
        requires place { place < length self.now }
        ensures yes { result ≡ true →
            ForSome best (λ other. IsCovered self.now (Some place) other) }
        ensures no { result ≡ false → IsCovered self.now best place }
    {
        match best {
            Some(other) => self.precedes(place, other),
            None => true,
        }
    }

    // Whether one decides before another: of two of which neither comes before the other the first.
    fn precedes(&self, place: usize, other: usize) -> bool
        requires place { place < length self.now }
        requires other { other < length self.now }
        ensures yes { result ≡ true → IsCovered self.now (Some place) other }
        ensures no { result ≡ false → IsCovered self.now (Some other) place }
    {
        let (one, two) = (&self.all[place], &self.all[other]);
        one.comes_before(two) || place < other && !two.comes_before(one)
    }
}

// Puts the place of a pattern among those of its kind. Where memory runs out, nothing is changed.
fn add_place(
    files: &mut TextPlaces,
    folders: &mut TextPlaces,
    for_folder: bool,
    text: Vec<u8>,
    place: usize,
) -> Result<(), AllocError>
    requires file { value_under text.items files.old ≡ None }
    requires folder { value_under text.items folders.old ≡ None }
    ensures added { OnOk result (MatchBool for_folder
        (IsWith folders.old text.items place folders.new × (files.new ≡ files.old))
        (IsWith files.old text.items place files.new × (folders.new ≡ folders.old))) }
    ensures kept { OnErr result ((files.new ≡ files.old) × (folders.new ≡ folders.old)) }
{
    if for_folder {
        folders.add(text, place)
    } else {
        files.add(text, place)
    }
}

// A copy of a text.
fn copy_of(text: &Vec<u8>) -> Result<Vec<u8>, AllocError>
    ensures { IfOk result (λ copy. copy.items ≡ text.now.items) }
{
    text.clone()
}
