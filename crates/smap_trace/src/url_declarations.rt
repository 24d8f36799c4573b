//! The declarations of generated programs, each under the URL of its map.
ghost use Rattle.std.specs.Prelude.{◌≡◌, None, OnErr, OnOk, [], option_map};
ghost use Rattle.smap_locations.specs.ByText.{IsWith, value_under};

use smap_declarations::Declarations;
use smap_locations::ByText;
use std::alloc::{AllocError, Global};
use std::marker::Model;

/// The declarations of generated programs, each under the URL of its map.
#[derive(Drop)]
pub struct UrlDeclarations {
    declared: ByText<Declarations>,
}

impl Model for UrlDeclarations {
    ghost use Rattle.std.specs.Prelude.{ℕ, List};
    ghost use Rattle.smap_declarations.specs.Declarations.{Named};

    ghost Value = { List (List ℕ × List Named) };

    ghost view = { λ all. all.declared };
}

impl UrlDeclarations {
    /// None of any program. The call takes no memory.
    pub fn new(alloc: Global) -> UrlDeclarations
        ensures { result ≡ [] }
    {
        UrlDeclarations {
            declared: ByText::new(alloc),
        }
    }

    /// Puts those of a program under the URL of its map, which has none. Where memory runs out, nothing is changed.
    pub fn add(&mut self, url: Vec<u8>, declarations: Declarations) -> Result<(), AllocError>
        requires { value_under url.items self.old ≡ None }
        ensures added { OnOk result (IsWith self.old url.items declarations self.new) }
        ensures kept { OnErr result (self.new ≡ self.old) }
    {
        match self.declared.add(url, declarations) {
            Ok(()) => Ok(()),
            Err(_) => Err(AllocError),
        }
    }

    /// Those of the program whose map is under a URL, where there are some. The call takes no memory.
    pub fn get(&self, url: &[u8]) -> Option<&Declarations>
        ensures { option_map (λ declared. declared.now) result ≡ value_under url.now self.now }
    {
        self.declared.get(url)
    }
}
