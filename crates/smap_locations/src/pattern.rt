//! One pattern of URLs.
ghost use Rattle.std.specs.Prelude.{◌≡◌, Some, is_some, option_map, string_bytes, IfOk};
ghost use Rattle.smap_locations.specs.Deciding.{pattern_name};
ghost use Rattle.smap_locations.specs.ListLine.{is_folder};
ghost use Rattle.smap_locations.specs.PatternSeen.{pattern_seen};
ghost use Rattle.smap_locations.specs.Patterns.{comes_before, has_url, is_for_texts, needs_query, path_by, with_slashes};

use crate::list_line::is_folder;
use crate::paths::{has_map_path, map_path};
use crate::pieces::{has_ending, rest_behind, slash_for};
use std::alloc::{AllocError, Global};

/// A text that stands behind `*`, and the path of a file or, where it ends in `/`, of a folder.
#[derive(Drop)]
pub struct Pattern {
    pub text: Vec<u8>,
    pub path: String,
}

impl Pattern {
    /// Whether it is for a URL, which is `short` without its query and its fragment.
    pub fn has_url(&self, url: &[u8], short: &[u8]) -> bool
        ensures { result ≡ has_url (pattern_seen self.now) url.now short.now }
    {
        if self.is_folder() {
            rest_behind(&self.text, short).is_some()
        } else {
            has_ending(&self.text, url) || has_ending(&self.text, short)
        }
    }

    /// Whether its text is not empty.
    pub fn is_for_texts(&self) -> bool
        ensures { result ≡ is_for_texts (pattern_seen self.now) }
    {
        !self.text.is_empty()
    }

    /// Whether it is for a URL, and not for what that is without its query and its fragment.
    pub fn needs_query(&self, url: &[u8], short: &[u8]) -> bool
        ensures { result ≡ needs_query url.now short.now (pattern_seen self.now) }
    {
        !self.is_folder() && has_ending(&self.text, url) && !has_ending(&self.text, short)
    }

    /// The path that it gives for a URL without its query and its fragment.
    pub fn path_by(&self, alloc: Global, short: &[u8]) -> Result<Option<String>, AllocError>
        ensures { IfOk result (λ path. option_map string_bytes path
            ≡ path_by (pattern_seen self.now) short.now) }
    {
        if !self.is_folder() {
            return Ok(Some(String::from_str(alloc, &self.path)?));
        }
        match rest_behind(&self.text, short) {
            Some(rest) => {
                let rest = with_slashes(alloc, &self.text, rest)?;
                map_path(alloc, &self.path, &rest)
            }
            None => Ok(None),
        }
    }

    /// Whether it gives a path for a URL without its query and its fragment.
    pub fn has_path(&self, short: &[u8]) -> bool
        ensures { result ≡ is_some (path_by (pattern_seen self.now) short.now) }
    {
        if !self.is_folder() {
            return true;
        }
        match rest_behind(&self.text, short) {
            Some(rest) => has_map_path(rest, self.text.ends_with(b"\\")),
            None => false,
        }
    }

    /// It behind its `*`, where it gives a path for a URL without its query and its fragment.
    pub fn name_for(&self, alloc: Global, short: &[u8]) -> Result<Option<Vec<u8>>, AllocError>
        ensures { IfOk result (λ name. option_map (λ text. text.items) name
            ≡ pattern_name short.now (Some (pattern_seen self.now))) }
    {
        if self.path_by(alloc, short)?.is_none() {
            return Ok(None);
        }
        let mut name = Vec::from_slice(alloc, b"*")?;
        name.extend_from_slice(&self.text)?;
        Ok(Some(name))
    }

    /// Whether it decides before another.
    pub fn comes_before(&self, other: &Pattern) -> bool
        ensures { result ≡ comes_before (pattern_seen self.now) (pattern_seen other.now) }
    {
        let (text, other_text) = (self.text.len(), other.text.len());
        other_text < text || text == other_text && other.is_folder() && !self.is_folder()
    }

    // Whether it is for a folder.
    fn is_folder(&self) -> bool
        ensures { result ≡ is_folder (string_bytes self.now.path) }
    {
        is_folder(self.path.as_bytes())
    }
}

// What stands in a URL behind a text as a path.
fn with_slashes(alloc: Global, text: &[u8], rest: &[u8]) -> Result<Vec<u8>, AllocError>
    ensures { IfOk result (λ path. path.items ≡ with_slashes text.now rest.now) }
{
    if text.ends_with(b"\\") {
        rest.iter().map(|byte| slash_for(*byte)).collect(alloc)
    } else {
        Vec::from_slice(alloc, rest)
    }
}
