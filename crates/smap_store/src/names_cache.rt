//! What is kept of the declarations of generated programs.
ghost use Rattle.std.specs.Prelude.{◌≡◌, None, option_map, IfOk};
ghost use Rattle.smap_store.specs.Names.{RemembersNames, bytes_in, declared_in, has_names, kept_names, known_names, names_at_first, names_came, names_used, names_without};
ghost use Rattle.smap_store.specs.Program.{program_seen};

use crate::names_loader::LoadedNames;
use crate::program::{MapKind, Program};
use smap_declarations::Declarations;
use smap_kept::Bounded;
use std::alloc::{AllocError, Global};

/// The declarations that are remembered of generated programs, or that one has none, each beside its map: those of the maps
/// of a table under their URLs, and those of the maps of files under the texts under which these are kept. They count for
/// the bytes of their generated file and of that text, and 128 more; each sum is within half of a bound, or one stands
/// alone. Where there is no room for one more, what was longest not asked for is dropped.
#[derive(Drop)]
pub struct NamesCache {
    pub of_table: Bounded<Option<Declarations>>,
    pub of_files: Bounded<Option<Declarations>>,
    /// How often there was not enough memory to remember what came, up to 18,446,744,073,709,551,615.
    pub shortages: u64,
}

impl NamesCache {
    /// What remembers nothing, with a bound in bytes.
    pub fn new(alloc: Global, most: u64) -> Result<NamesCache, AllocError>
        ensures { IfOk result (λ names. names ≡ names_at_first most) }
    {
        let of_table = Bounded::new(alloc, most / 2)?;
        let of_files = Bounded::new(alloc, most / 2)?;
        Ok(NamesCache {
            of_table,
            of_files,
            shortages: 0,
        })
    }

    // The declarations that are remembered of a program. The call takes no memory.
    pub(crate) fn get(&self, program: Program<'_>) -> Option<&Declarations>
        ensures { option_map (λ declared. declared.now) result
            ≡ kept_names (program_seen program.entry) self.now }
    {
        let kept = match program.kind {
            MapKind::Table => self.of_table.get(program.key),
            MapKind::File => self.of_files.get(program.key),
        };
        match kept {
            Some(kept) => kept.as_ref(),
            None => None,
        }
    }

    // Uses what is remembered of a program, and says whether something is.
    pub(crate) fn touch(&mut self, program: Program<'_>) -> bool
        ensures found { result ≡ has_names (program_seen program.entry) self.old }
        ensures used { self.new ≡ names_used (program_seen program.entry) self.old }
    {
        match program.kind {
            MapKind::Table => self.of_table.touch(program.key),
            MapKind::File => self.of_files.touch(program.key),
        }
    }

    // Remembers what came for a program. Where there is not enough memory, that is counted, and nothing is remembered of it:
    // what was may be of an older map.
    pub(crate) fn remember(
        &mut self,
        alloc: Global,
        program: Program<'_>,
        came: Option<LoadedNames>,
    )
        ensures { RemembersNames self.old (program_seen program.entry) (names_came came) self.new }
    {
        let bytes = bytes_in(&came);
        let declared = declared_in(came);
        let put = match program.kind {
            MapKind::Table => self.of_table.put(alloc, program.key, declared, bytes),
            MapKind::File => self.of_files.put(alloc, program.key, declared, bytes),
        };
        if put.is_err() {
            self.forget(program);
            self.shortages = self.shortages.saturating_add(1);
        }
    }

    // Takes out what is remembered of a program.
    fn forget(&mut self, program: Program<'_>)
        ensures rest { self.new ≡ names_without (program_seen program.entry) self.old }
        ensures gone { known_names (program_seen program.entry) self.new ≡ None }
    {
        match program.kind {
            MapKind::Table => self.of_table.remove(program.key),
            MapKind::File => self.of_files.remove(program.key),
        }
    }
}

// How many bytes the file has of what came.
fn bytes_in(came: &Option<LoadedNames>) -> u64
    ensures { result ≡ bytes_in (names_came came.now) }
{
    match came {
        Some(loaded) => loaded.file_bytes,
        None => 0,
    }
}

// The declarations that came.
fn declared_in(came: Option<LoadedNames>) -> Option<Declarations>
    ensures { result ≡ declared_in (names_came came) }
{
    match came {
        Some(loaded) => Some(loaded.declarations),
        None => None,
    }
}
