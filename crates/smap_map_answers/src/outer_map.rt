//! A map that is composed with those of its sources, which are found by their names.
ghost use Rattle.std.specs.Prelude.{◌≡◌, ◌||◌, ℕ, List, false, length, option_copied, IfErr, IfOk, OnOk};
ghost use Rattle.std.specs.List.{list_any};
ghost use Rattle.std.specs.Option.{option_map_or};
ghost use Rattle.std.specs.Str.{bytes_eq};
ghost use Rattle.smap_map_answers.specs.ComposeAll.{is_called};
ghost use Rattle.smap_map_answers.specs.Private.OuterMap.{AreNamesOf, IsOuter, is_among};
ghost use Rattle.smap_replies.specs.declared.outcome.Failure.TheVariants.{Memory};

use smap_record::{MapFile, source_name};
use smap_replies::Failure;
use std::alloc::{AllocError, Global};
use std::collections::BTreeMap;

/// The outer map, how many sources it has, and their names.
#[derive(Drop)]
pub struct OuterMap<'a> {
    pub map: &'a MapFile,
    pub count: u32,
    names: BTreeMap<&'a str, ()>,
}

impl<'a> OuterMap<'a> {
    /// Each source is gone over once, for its name.
    pub fn new(alloc: Global, map: &'a MapFile) -> Result<OuterMap<'a>, Failure>
        ensures made { IfOk result (λ outer. (outer.map.now ≡ map.now) × IsOuter outer) }
        ensures refused { IfErr result (λ failure. failure ≡ Memory) }
    {
        let Ok(count) = u32::try_from(map.sources()) else {
            return Err(Failure::Memory);
        };
        let names = names_of(alloc, map, count)?;
        Ok(OuterMap { map, count, names })
    }

    /// Whether a source has this name. The call takes no memory.
    pub fn has_source_called(&self, name: &str) -> bool
        requires { IsOuter self.now }
        ensures { result ≡ list_any (is_called name.now) self.now.map.now.stated.sources }
    {
        self.names.contains_key(name)
    }
}

// The names of the sources of a map, which has so many.
fn names_of<'a>(
    alloc: Global,
    map: &'a MapFile,
    count: u32,
) -> Result<BTreeMap<&'a str, ()>, AllocError>
    requires { count ≡ length map.now.stated.sources }
    ensures { IfOk result (AreNamesOf map.now.stated.sources) }
{
    let mut names = BTreeMap::new(alloc);
    for i in 0..count {
        add_name(&mut names, source_name(map.source(i)))?;
    }
    Ok(names)
}

// Adds a name, where there is one, to those before it.
fn add_name<'a>(names: &mut BTreeMap<&'a str, ()>, name: Option<&'a str>) -> Result<(), AllocError>
    ensures { OnOk result ((text : List ℕ) → is_among names.new text
        ≡ (is_among names.old text
        || option_map_or (bytes_eq text) (option_copied name.entry) false)) }
{
    match name {
        Some(name) => {
            names.insert(name, ())?;
            Ok(())
        }
        None => Ok(()),
    }
}
