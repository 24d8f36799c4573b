//! What is told of the files of a command behind what it came to: on a terminal, and where `--explain` asks for it.
ghost use Rattle.std.specs.Prelude.{◌≡◌, ◌++◌, ◌∷◌, [], IfOk, map, option_copied, string_bytes};
ghost use Rattle.smap_answers.specs.Telling.{Tells, TellsBehind, are_told, argument_files, composed_files, files_of, inner_files, list_files, located_files, map_at, map_beside, pair_files, sources_files, text_at};
ghost use Rattle.smap_replies.specs.Arguments.{argument_of};
ghost use Rattle.smap_replies.specs.Telling.{file_seen};

use smap_command::Command;
use smap_io::ByteSink;
use smap_locations::is_rule;
use smap_replies::{
    FAILED, FileReader, NO_MEMORY, NamedFile, REFUSED, print_error, tell_cause, tell_no_map,
};
use std::alloc::{AllocError, Global};

/// Tells, behind what a command came to with this status, why the first of its files for which a cause is known that it
/// can't be read can't be, or why the first that is no map is none, where its lines do not say so already; or that memory
/// ran out.
pub fn tell<F: FileReader, E: ByteSink>(
    alloc: Global,
    reader: &F,
    command: &Command,
    hint: bool,
    status: u8,
    errors: &mut E,
)
    ensures { Tells (F.gives reader.now) (F.causes reader.now) hint command.now status
        (E.seen errors.old) (E.seen errors.new) }
{
    if are_told(command, hint) {
        tell_behind(alloc, reader, command, status, errors);
    }
}

// Tells why one can't be read, behind a failure, or is no map, behind a refusal.
fn tell_behind<F: FileReader, E: ByteSink>(
    alloc: Global,
    reader: &F,
    command: &Command,
    status: u8,
    errors: &mut E,
)
    ensures { TellsBehind (F.gives reader.now) (F.causes reader.now) (files_of command.now) status
        (E.seen errors.old) (E.seen errors.new) }
{
    if status != FAILED && status != REFUSED {
        return;
    }
    match files_of(alloc, command) {
        Ok(files) if status == FAILED => tell_cause(reader, &files, errors),
        Ok(files) => tell_no_map(alloc, reader, &files, errors),
        Err(_) => print_error(errors, NO_MEMORY.as_bytes()),
    }
}

// Whether files are told of: on a terminal, and where it is asked; but not where the lines of a command say so already.
fn are_told(command: &Command, hint: bool) -> bool
    ensures { result ≡ are_told hint command.now }
{
    match command {
        Command::Check { options, .. } => hint && !options.explain,
        Command::Lookup { options, .. } => hint && !options.explain,
        Command::Generated(asked) => hint && !asked.options.explain,
        Command::Rewrite { options, .. } => hint || options.explain,
        Command::Fit(asked) => hint || asked.options.explain,
        _ => hint,
    }
}

// The files that a command names, in the order in which they are read; of `check` of several none, since each is reported by
// itself.
fn files_of(alloc: Global, command: &Command) -> Result<Vec<NamedFile<'_>>, AllocError>
    ensures { IfOk result (λ files. map file_seen files.items ≡ files_of command.now) }
{
    match command {
        Command::Check { path, options, .. } if options.others.is_empty() => one(alloc, path),
        Command::Show { path, .. } | Command::Lookup { path, .. } => one(alloc, path),
        Command::Generated(asked) => one(alloc, &asked.map.path),
        Command::Positions(asked) => one(alloc, &asked.map.path),
        Command::Mappings(asked) => one(alloc, &asked.map.path),
        Command::Sources(asked) => beside_text(alloc, &asked.map.path, asked.generated.as_deref()),
        Command::SourceContent(asked) => one(alloc, &asked.path),
        Command::Rewrite { maps, options, .. } => located(alloc, maps, options.list.as_deref()),
        Command::Locate(asked) => located(alloc, &asked.maps, asked.list.as_deref()),
        Command::Compose { outer, inner, .. } => both(alloc, outer, inner),
        Command::ComposeAll(asked) => {
            composed(alloc, &asked.outer, asked.list.as_deref(), &asked.inners)
        }
        Command::Fit(asked) => pairs(alloc, &asked.paths),
        Command::Check { .. } | Command::Raw { .. } | Command::Explain(_) => Ok(Vec::new(alloc)),
    }
}

// A map alone.
fn map_at(number: usize, path: &str) -> NamedFile<'_>
    ensures { file_seen result ≡ map_at number path.now }
{
    NamedFile {
        number,
        path,
        is_map: true,
        beside: None,
    }
}

// What is no map.
fn text_at(number: usize, path: &str) -> NamedFile<'_>
    ensures { file_seen result ≡ text_at number path.now }
{
    NamedFile {
        number,
        path,
        is_map: false,
        beside: None,
    }
}

// A map, and what it may have been swapped with.
fn map_beside<'a>(number: usize, path: &'a str, beside: (usize, &'a str)) -> NamedFile<'a>
    ensures { file_seen result ≡ map_beside number path.now (beside.entry.0, beside.entry.1.now) }
{
    NamedFile {
        number,
        path,
        is_map: true,
        beside: Some(beside),
    }
}

fn one<'a>(alloc: Global, path: &'a str) -> Result<Vec<NamedFile<'a>>, AllocError>
    ensures { IfOk result (λ files. map file_seen files.items ≡ map_at 0 path.now ∷ []) }
{
    let mut files = Vec::new(alloc);
    files.push(map_at(0, path))?;
    Ok(files)
}

fn both<'a>(alloc: Global, outer: &'a str, inner: &'a str) -> Result<Vec<NamedFile<'a>>, AllocError>
    ensures { IfOk result (λ files. map file_seen files.items
        ≡ map_at 0 outer.now ∷ map_at 1 inner.now ∷ []) }
{
    let mut files = one(alloc, outer)?;
    files.push(map_at(1, inner))?;
    Ok(files)
}

// A map, and its generated file.
fn beside_text<'a>(
    alloc: Global,
    path: &'a str,
    generated: Option<&'a str>,
) -> Result<Vec<NamedFile<'a>>, AllocError>
    ensures { IfOk result (λ files. map file_seen files.items
        ≡ sources_files path.now (option_copied generated.entry)) }
{
    let Some(generated) = generated else {
        return one(alloc, path);
    };
    let mut files = Vec::new(alloc);
    files.push(map_beside(0, path, (1, generated)))?;
    files.push(text_at(1, generated))?;
    Ok(files)
}

// Adds a list, where there is one.
fn push_list<'a>(
    files: &mut Vec<NamedFile<'a>>,
    number: usize,
    list: Option<&'a str>,
) -> Result<(), AllocError>
    ensures { IfOk result (λ _. map file_seen files.new.items
        ≡ map file_seen files.old.items ++ list_files number (option_copied list.entry)) }
{
    if let Some(list) = list {
        files.push(text_at(number, list))?;
    }
    Ok(())
}

// The maps of arguments that are no rules, and a list.
fn located<'a>(
    alloc: Global,
    maps: &'a [(String, String)],
    list: Option<&'a str>,
) -> Result<Vec<NamedFile<'a>>, AllocError>
    ensures { IfOk result (λ files. map file_seen files.items
        ≡ located_files (map argument_of maps.now) (option_copied list.entry)) }
{
    let mut files = arguments(alloc, maps)?;
    push_list(&mut files, maps.len(), list)?;
    Ok(files)
}

// The maps of arguments that are no rules, each of which may have been swapped with its URL.
fn arguments<'a>(
    alloc: Global,
    maps: &'a [(String, String)],
) -> Result<Vec<NamedFile<'a>>, AllocError>
    ensures { IfOk result (λ files. map file_seen files.items
        ≡ argument_files 0 (map argument_of maps.now)) }
{
    let mut files = Vec::new(alloc);
    for (number, (url, path)) in maps.iter().enumerate() {
        if is_rule(url, path) {
            continue;
        }
        files.push(map_beside(number, path, (number, url)))?;
    }
    Ok(files)
}

// The outer map, a list, and the maps of sources.
fn composed<'a>(
    alloc: Global,
    outer: &'a str,
    list: Option<&'a str>,
    inners: &'a [(String, String)],
) -> Result<Vec<NamedFile<'a>>, AllocError>
    ensures { IfOk result (λ files. map file_seen files.items
        ≡ composed_files outer.now (option_copied list.entry) (map argument_of inners.now)) }
{
    let mut files = one(alloc, outer)?;
    push_list(&mut files, 1, list)?;
    push_inners(&mut files, inners)?;
    Ok(files)
}

// Adds the maps of sources.
fn push_inners<'a>(
    files: &mut Vec<NamedFile<'a>>,
    inners: &'a [(String, String)],
) -> Result<(), AllocError>
    ensures { IfOk result (λ _. map file_seen files.new.items
        ≡ map file_seen files.old.items ++ inner_files (map argument_of inners.now)) }
{
    for (_, path) in inners {
        files.push(map_at(2, path))?;
    }
    Ok(())
}

// The maps of pairs, and their generated files.
fn pairs<'a>(alloc: Global, paths: &'a [String]) -> Result<Vec<NamedFile<'a>>, AllocError>
    ensures { IfOk result (λ files. map file_seen files.items
        ≡ pair_files 0 (map string_bytes paths.now)) }
{
    let mut files = Vec::new(alloc);
    for number in 0..paths.len() / 2 {
        let (at, behind) = (2 * number, 2 * number + 1);
        let (map, generated) = (&paths[at], &paths[behind]);
        files.push(map_beside(at, map, (behind, generated)))?;
        files.push(text_at(behind, generated))?;
    }
    Ok(files)
}
