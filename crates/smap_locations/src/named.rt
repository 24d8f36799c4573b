//! Paths that are named for texts.
ghost use Rattle.std.specs.Prelude.{◌≡◌, [], string_bytes, option_map, MatchOption};
ghost use Rattle.std.specs.Prelude.{OnErr, OnOk, IfErr, IfOk, IsErrAnd, Some, length, map};
ghost use Rattle.smap_locations.specs.ByText.{IsWith, value_under};
ghost use Rattle.smap_locations.specs.Common.{common_of};
ghost use Rattle.smap_locations.specs.Named.{twice};
ghost use Rattle.smap_locations.specs.declared.refusal.LocationRefusal.TheVariants.{Memory};

use crate::by_text::ByText;
use crate::refusal::LocationRefusal;
use std::alloc::{AllocError, Global};
use std::marker::Model;

/// Paths, each under a text: a URL, a prefix of URLs, or another name. No two have the same.
#[derive(Drop)]
pub struct NamedPaths {
    paths: ByText<String>,
}

impl Model for NamedPaths {
    ghost use Rattle.std.specs.Prelude.{string_bytes};
    ghost use Rattle.smap_locations.specs.ByText.{all_seen};
    ghost use Rattle.smap_locations.specs.Named.{Named};

    ghost Value = { Named };

    ghost view = { λ named. all_seen string_bytes named.paths };
}

impl NamedPaths {
    /// No path. The call takes no memory.
    pub fn new(alloc: Global) -> NamedPaths
        ensures { result ≡ [] }
    {
        NamedPaths {
            paths: ByText::new(alloc),
        }
    }

    /// Puts a path under a name that has none yet. After a refusal nothing is changed.
    pub fn add(&mut self, url: String, path: String) -> Result<(), LocationRefusal>
        ensures added { OnOk result
            (IsWith self.old (string_bytes url) (string_bytes path) self.new) }
        ensures kept { OnErr result (self.new ≡ self.old) }
        ensures refused { MatchOption (twice self.old (string_bytes url))
            (IfErr result (λ refusal. refusal ≡ Memory))
            (λ refusal. IsErrAnd result (λ e. e ≡ refusal)) }
    {
        if self.path_under(url.as_bytes()).is_some() {
            return Err(LocationRefusal::Twice);
        }
        match self.paths.add(url.into_bytes(), path) {
            Ok(()) => Ok(()),
            Err(_) => Err(LocationRefusal::Memory),
        }
    }

    /// The path under a name, where there is one. The call takes no memory.
    pub fn path_under(&self, url: &[u8]) -> Option<&String>
        ensures { option_map (λ path. string_bytes path.now) result ≡ value_under url.now self.now }
    {
        self.paths.get(url)
    }

    /// How many bytes the names have, one after another in their order.
    pub fn lengths(&self, alloc: Global) -> Result<Vec<usize>, AllocError>
        ensures { IfOk result (λ lengths. lengths.items ≡ map (λ pair. length pair.0) self.now) }
    {
        self.paths.lengths(alloc)
    }

    /// What the names all begin with, where there is one at least. The call takes no memory.
    pub fn common(&self) -> Option<&[u8]>
        ensures { option_map (λ text. text.now) result ≡ common_of (map (λ pair. pair.0) self.now) }
    {
        self.paths.common()
    }
}
