//! What lists the declarations of generated programs.
ghost use Rattle.std.specs.Prelude.{List, Option};
ghost use Rattle.smap_declarations.specs.Declarations.{Named};
ghost use Rattle.smap_record.specs.Record.{MapRecord};
ghost use Rattle.smap_store.specs.Names.{NamesCame, declared_in, names_came};
ghost use Rattle.smap_store.specs.Program.{ProgramSeen, program_seen};

use crate::program::Program;
use smap_declarations::Declarations;
use smap_record::ReadyMap;
use std::alloc::Global;

/// The declarations of a generated program, and how many bytes its file has.
#[derive(Drop)]
pub struct LoadedNames {
    pub declarations: Declarations,
    pub file_bytes: u64,
}

/// What lists the declarations of a program from its generated file.
pub trait NamesLoader {
    // What it may give for a program whose map states this, from now on: declarations, or none.
    ghost MayName: { Self → ProgramSeen → MapRecord → Option (List Named) → Type 0 };

    // What it gave, with the number of the file's bytes, or that it gave none, and how it stands after that.
    ghost Names: { Self → ProgramSeen → MapRecord → NamesCame → Self → Type 0 };

    /// The declarations of the program that has this map, where they can be had.
    fn load_names(
        &mut self,
        alloc: Global,
        program: Program<'_>,
        map: &ReadyMap,
    ) -> Option<LoadedNames>
        ensures { Names self.old (program_seen program.entry) map.now.stated (names_came result)
            self.new };

    // What it gave is what it may give.
    ghost given_names: { (namer after : Self) (program : ProgramSeen) (stated : MapRecord)
        (came : NamesCame) → Names namer program stated came after →
        MayName namer program stated (declared_in came) };

    // What it may give after it was asked, it may give before.
    ghost same_names: { (namer after : Self) (program other : ProgramSeen)
        (stated other_stated : MapRecord) (came : NamesCame) (more : Option (List Named)) →
        Names namer program stated came after → MayName after other other_stated more →
        MayName namer other other_stated more };
}
