//! Names, with what is told of them, whose bytes stand in one buffer.
ghost use Rattle.std.specs.Prelude.{◌≡◌, ◌∷◌, ◌++◌, ◌+◌, ◌<◌, ◌≤◌, [], Some, length, slice_get, IfOk, OnOk};
ghost use Rattle.std.specs.Option.{ForSome};
ghost use Rattle.smap_declarations.specs.Private.Entries.{Grows, IsWithin, StandsAt, name_at};
ghost use Rattle.smap_declarations.specs.Private.Found.{named};
ghost use Rattle.smap_declarations.specs.Private.Keys.{IsKey};

use crate::given::Given;
use crate::key::key_of;
use crate::naming::Found;
use crate::walk::DeclarationPlace;
use std::alloc::{AllocError, Global};
use std::marker::Model;

// What is told of a name: its key, where its bytes stand in the buffer, its place in the text, where its body ends, and what
// the map gives it.
#[derive(Clone, Copy)]
pub struct Entry {
    pub key: u64,
    pub start: u32,
    pub length: u32,
    pub place: DeclarationPlace,
    pub until: DeclarationPlace,
    pub given: Given,
}

// There may be one for each four bytes of a text, so their size decides what a list takes.
const _: () = prove!(size_of::<Entry>() == 40);

// A name that stands several times in a row has its bytes once.
#[derive(Drop)]
pub struct NameList {
    names: Vec<u8>,
    entries: Vec<Entry>,
}

impl Model for NameList {
    ghost use Rattle.std.specs.Prelude.{List};
    ghost use Rattle.smap_declarations.specs.Declarations.{Named};
    ghost use Rattle.smap_declarations.specs.Private.Entries.{AreEntries, entries_named};

    ghost Value = { List Named };

    ghost view = { λ list. entries_named list.names.items list.entries.items };

    ghost invariant = { λ list. AreEntries list.names.items list.entries.items };
}

impl NameList {
    // No name.
    pub fn new(alloc: Global) -> Self
        ensures { result ≡ [] }
    {
        NameList {
            names: Vec::new(alloc),
            entries: Vec::new(alloc),
        }
    }

    // How many names there are.
    #[inline(always)]
    pub fn len(&self) -> usize
        ensures { result ≡ length self.now }
    {
        self.entries.len()
    }

    // What is told of name `i`, from 0.
    #[inline(always)]
    pub fn at(&self, i: usize) -> Found<'_>
        requires { i < length self.now }
        ensures { slice_get self.now i ≡ Some (named result) }
    {
        self.keyed_at(i).0
    }

    // The same, and the name's key.
    #[inline(always)]
    pub fn keyed_at(&self, i: usize) -> (Found<'_>, u64)
        requires { i < length self.now }
        ensures found { slice_get self.now i ≡ Some (named result.0) }
        ensures key { IsKey result.0.name.now result.1 }
    {
        let entry = &self.entries[i];
        let found = Found {
            name: name_at(&self.names, entry.start, entry.length),
            place: entry.place,
            until: entry.until,
            given: entry.given,
        };
        (found, entry.key)
    }

    // Adds a name at the end. A text has far fewer bytes than a number of 32 bits counts, so that only want of memory is
    // ever in the way.
    pub fn push(&mut self, found: &Found<'_>) -> Result<(), AllocError>
        ensures { OnOk result (self.new ≡ self.old ++ named found.now ∷ []) }
    {
        let last = self.entries.last().copied();
        let (start, length) = stand(&mut self.names, last, found.name)?;
        self.entries.push(Entry {
            key: key_of(found.name),
            start,
            length,
            place: found.place,
            until: found.until,
            given: found.given,
        })?;
        Ok(())
    }
}

// So many bytes from a place on.
#[inline(always)]
fn name_at(names: &[u8], start: u32, count: u32) -> &[u8]
    requires { start + count ≤ length names.now }
    ensures { result.now ≡ name_at names.now start count }
{
    let from = names.split_at(start as usize).1;
    from.split_at(count as usize).0
}

// Where the bytes of a name stand, and how many they are. They are put at the end where they are not those of the last.
fn stand(names: &mut Vec<u8>, last: Option<Entry>, name: &[u8]) -> Result<(u32, u32), AllocError>
    requires { ForSome last (IsWithin names.old.items) }
    ensures stands { IfOk result (StandsAt names.new.items name.now) }
    ensures grows { Grows names.old.items names.new.items }
{
    if let Some(last) = last {
        if name_at(names, last.start, last.length) == name {
            return Ok((last.start, last.length));
        }
    }
    let Ok(start) = u32::try_from(names.len()) else {
        return Err(AllocError);
    };
    let Ok(count) = u32::try_from(name.len()) else {
        return Err(AllocError);
    };
    names.extend_from_slice(name)?;
    Ok((start, count))
}
