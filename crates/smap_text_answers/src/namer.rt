//! The declarations of programs, which are listed from the generated files beside their maps.
ghost use Rattle.std.specs.Prelude.{◌≡◌, ◌&&◌, ◌++◌, codes, not, option_copied, option_map, map, string_bytes, IfOk};
ghost use Rattle.std.specs.Str.{bytes_eq};
ghost use Rattle.smap_locations.specs.ListLine.{is_rule};
ghost use Rattle.smap_store.specs.Program.{program_seen};
ghost use Rattle.smap_text.specs.Shown.{shown};
ghost use Rattle.smap_text_answers.specs.Names.{ListsAt, ListsBeside, ListsFile, argument_path, misfit_text, no_file_beside_text, no_file_text, path_named, programs_seen};
ghost use Rattle.smap_text_answers.specs.Told.{nothing_told, told_seen};
ghost use Rattle.smap_text_answers.specs.Private.Listing.{IsListed, came_of, said_of};
ghost use Rattle.smap_replies.specs.Arguments.{argument_of};

use crate::generated::{generated_path, read_generated};
use crate::told::ToldLines;
use smap_declarations::Declarations;
use smap_io::ReadFailure;
use smap_locations::{Locations, is_rule};
use smap_record::{MapFile, ReadyMap};
use smap_replies::FileReader;
use smap_store::{LoadedNames, MapKind, NamesLoader, Program};
use smap_text::shown;
use std::alloc::{AllocError, Global};

/// Lists declarations from the generated file beside the map of each program, and keeps a line for each that has none.
#[derive(Drop)]
pub struct FileNamer<'s, 'a, F: FileReader> {
    pub files: &'s F,
    /// The number under which generated files are read.
    pub number: usize,
    /// Pairs of a URL and the path of its map.
    pub arguments: &'a [(String, String)],
    /// The paths of the maps of other URLs.
    pub locations: &'s Locations,
    pub told: ToldLines,
}

/// What comes of the generated file of a program.
#[derive(Drop)]
pub enum Listing {
    Listed(LoadedNames),
    /// There is none, and this is told, without its LF.
    Unlisted(Option<String>),
}

impl<'s, 'a, F: FileReader> FileNamer<'s, 'a, F> {
    /// What has listed nothing yet.
    pub fn new(
        alloc: Global,
        files: &'s F,
        number: usize,
        arguments: &'a [(String, String)],
        locations: &'s Locations,
    ) -> FileNamer<'s, 'a, F>
        ensures files { result.files ≡ files.entry }
        ensures number { result.number ≡ number }
        ensures arguments { result.arguments ≡ arguments.entry }
        ensures locations { result.locations ≡ locations.entry }
        ensures told { told_seen result.told ≡ nothing_told }
    {
        FileNamer {
            files,
            number,
            arguments,
            locations,
            told: ToldLines::new(alloc),
        }
    }

    // What comes of the generated file of a program that has this map, where memory is enough.
    fn list(
        &self,
        alloc: Global,
        program: Program<'_>,
        map: &MapFile,
    ) -> Result<Listing, AllocError>
        ensures { IfOk result (λ listing. ListsAt (F.gives self.now.files.now) self.now.number
            (path_named (programs_seen self.now) (program_seen program.entry)) map.now.stated
            (came_of listing) (said_of listing)) }
    {
        match self.path_named(alloc, program)? {
            Some(path) => list_beside(alloc, self.files, self.number, &path, map),
            None => Ok(Listing::Unlisted(None)),
        }
    }

    // The path of the map of a program.
    fn path_named(&self, alloc: Global, program: Program<'_>) -> Result<Option<String>, AllocError>
        ensures { IfOk result (λ path. option_map string_bytes path
            ≡ path_named (programs_seen self.now) (program_seen program.entry)) }
    {
        match program.kind {
            MapKind::Table => match argument_path(self.arguments, program.key) {
                Some(path) => Ok(Some(String::from_str(alloc, path)?)),
                None => Ok(None),
            },
            MapKind::File => self.locations.path_for(alloc, program.key),
        }
    }
}

impl<F: FileReader> NamesLoader for FileNamer<'_, '_, F> {
    ghost use Rattle.smap_text_answers.specs.Names.{IsSameNamer, MayNameBy, NamesBy, programs_seen};
    ghost use Rattle.smap_text_answers.specs.Told.{told_seen};
    ghost use Rattle.smap_text_answers.specs.Laws.Namer.{given_name, same_name};

    ghost MayName = { λ namer. MayNameBy (F.gives namer.files.now) (programs_seen namer) (told_seen namer.told) };

    ghost Names = { λ namer program stated came after.
        NamesBy (F.gives namer.files.now) (programs_seen namer) (told_seen namer.told) program stated came (told_seen after.told)
        × IsSameNamer namer after };

    fn load_names(
        &mut self,
        alloc: Global,
        program: Program<'_>,
        map: &ReadyMap,
    ) -> Option<LoadedNames> {
        match self.list(alloc, program, map.map()) {
            Ok(Listing::Listed(loaded)) => Some(loaded),
            Ok(Listing::Unlisted(Some(text))) => {
                self.told.tell(text);
                None
            }
            Ok(Listing::Unlisted(None)) => None,
            Err(_) => {
                self.told.tell_shortage();
                None
            }
        }
    }

    ghost given_names = { λ namer after program stated came names.
        given_name (F.gives namer.files.now) (programs_seen namer) _ _ program stated came names.0 };

    ghost same_names = { λ namer after program other stated other_stated came more names may.
        same_name F.gives namer after names.1 other other_stated more may };
}

// The path of the file that the arguments name for a URL.
fn argument_path<'a>(arguments: &'a [(String, String)], url: &[u8]) -> Option<&'a str>
    ensures { option_copied result ≡ argument_path (map argument_of arguments.now) url.now }
{
    for (named, path) in arguments {
        if is_file_of(named, path, url) {
            return Some(path);
        }
    }
    None
}

// Whether an argument names a file for a URL.
fn is_file_of(named: &str, path: &str, url: &[u8]) -> bool
    ensures { result ≡ (bytes_eq named.now url.now && not (is_rule named.now path.now)) }
{
    named.as_bytes() == url && !is_rule(named, path)
}

// What comes of the file beside the map at a path.
fn list_beside<F: FileReader>(
    alloc: Global,
    files: &F,
    number: usize,
    path: &str,
    map: &MapFile,
) -> Result<Listing, AllocError>
    ensures { IfOk result (λ listing. ListsBeside (F.gives files.now) number path.now
        map.now.stated (came_of listing) (said_of listing)) }
{
    match generated_path(path) {
        Some(file) => list_file(alloc, files, number, path, file, map),
        None => Ok(Listing::Unlisted(Some(no_file_beside_text(alloc, path)?))),
    }
}

// What comes of the file of this path, beside the map at another.
fn list_file<F: FileReader>(
    alloc: Global,
    files: &F,
    number: usize,
    path: &str,
    file: &str,
    map: &MapFile,
) -> Result<Listing, AllocError>
    ensures { IfOk result (λ listing. ListsFile (F.gives files.now) number path.now file.now
        map.now.stated (came_of listing) (said_of listing)) }
{
    match read_generated(alloc, files, number, file, map) {
        Ok(Some(text)) => list_text(alloc, &text, map),
        Ok(None) => Ok(Listing::Unlisted(Some(misfit_text(alloc, path, file)?))),
        Err(ReadFailure::Device) => Ok(Listing::Unlisted(Some(no_file_text(alloc, file)?))),
        Err(ReadFailure::Memory) => Err(AllocError),
    }
}

// The declarations of a text, which has at most as many bytes as may be.
fn list_text(alloc: Global, text: &str, map: &MapFile) -> Result<Listing, AllocError>
    ensures { IfOk result (IsListed map.now.stated text.now) }
{
    match Declarations::of_text(alloc, text, map) {
        Ok(declarations) => Ok(Listing::Listed(LoadedNames {
            declarations,
            file_bytes: text.len() as u64,
        })),
        Err(_) => Err(AllocError),
    }
}

// That the path of a map has no other beside it.
fn no_file_beside_text(alloc: Global, path: &str) -> Result<String, AllocError>
    ensures { IfOk result (λ text. string_bytes text ≡ no_file_beside_text path.now) }
{
    let path = shown(alloc, path)?;
    format!(in alloc; "names: no file beside {path}")
}

// That there is no file at a path, or none that can be read.
fn no_file_text(alloc: Global, file: &str) -> Result<String, AllocError>
    ensures { IfOk result (λ text. string_bytes text ≡ no_file_text file.now) }
{
    let file = shown(alloc, file)?;
    format!(in alloc; "names: no {file}")
}

// That the map at a path is not that of a file.
fn misfit_text(alloc: Global, path: &str, file: &str) -> Result<String, AllocError>
    ensures { IfOk result (λ text. string_bytes text ≡ misfit_text path.now file.now) }
{
    let mut text = path_text(alloc, path)?;
    let file = shown(alloc, file)?;
    text.push_str(" does not fit ")?;
    text.push_str(&file)?;
    Ok(text)
}

// What a line begins with that is about the file at a path.
fn path_text(alloc: Global, path: &str) -> Result<String, AllocError>
    ensures { IfOk result (λ text. string_bytes text ≡ codes "names: " ++ shown path.now) }
{
    let path = shown(alloc, path)?;
    format!(in alloc; "names: {path}")
}
