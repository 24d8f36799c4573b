//! Whether maps fit the generated files beside them.
ghost use Rattle.std.specs.Prelude.{◌≡◌, map, string_bytes, IfErr, IfOk, OnOk};
ghost use Rattle.smap_locations.specs.ByText.{value_under};
ghost use Rattle.smap_replies.specs.Arguments.{argument_of};
ghost use Rattle.smap_replies.specs.Outcome.{OrMemory, failure_report};
ghost use Rattle.smap_text_answers.specs.Fitting.{Compares, ComparesWords, FitsWord, IsMisfitWord, misfit_report, no_file_beside_text, no_file_text};
ghost use Rattle.smap_text_answers.specs.Private.Fitting.{IsFitting, IsFittingFile, compared};
ghost use Rattle.smap_text_answers.specs.Told.{nothing_told, told_seen};

use crate::generated::{generated_path, read_generated};
use crate::lines;
use crate::told::ToldLines;
use smap_codes::Code;
use smap_io::ReadFailure;
use smap_locations::is_rule;
use smap_record::MapFile;
use smap_replies::{Failure, FileReader};
use smap_text::shown;
use smap_trace::Table;
use std::alloc::{AllocError, Global};

/// What comes of comparing a map with the generated file beside it.
#[derive(Drop)]
pub enum Fitting {
    /// It may be used. Where there is no such file, this is told, without its LF.
    Usable(Option<String>),
    /// It does not fit it.
    Misfit,
}

/// Compares a map, which is that of the file at a path, with the generated file beside it, which is read under a number.
pub fn fitting_of<F: FileReader>(
    alloc: Global,
    files: &F,
    number: usize,
    path: &str,
    map: &MapFile,
) -> Result<Fitting, AllocError>
    ensures { IfOk result (IsFitting (F.gives files.now) number path.now map.now.stated) }
{
    match generated_path(path) {
        Some(file) => fitting_with(alloc, files, number, file, map),
        None => Ok(Fitting::Usable(Some(no_file_beside_text(alloc, path)?))),
    }
}

// The same with the generated file of a path.
fn fitting_with<F: FileReader>(
    alloc: Global,
    files: &F,
    number: usize,
    file: &str,
    map: &MapFile,
) -> Result<Fitting, AllocError>
    ensures { IfOk result (IsFittingFile (F.gives files.now) number file.now map.now.stated) }
{
    match read_generated(alloc, files, number, file, map) {
        Ok(Some(_)) => Ok(Fitting::Usable(None)),
        Ok(None) => Ok(Fitting::Misfit),
        Err(ReadFailure::Device) => Ok(Fitting::Usable(Some(no_file_text(alloc, file)?))),
        Err(ReadFailure::Memory) => Err(AllocError),
    }
}

// That the path of a map has no other beside it.
fn no_file_beside_text(alloc: Global, path: &str) -> Result<String, AllocError>
    ensures { IfOk result (λ text. string_bytes text ≡ no_file_beside_text path.now) }
{
    let path = shown(alloc, path)?;
    format!(in alloc; "fit: no file beside {path}")
}

// That there is no file at a path, or none that can be read.
fn no_file_text(alloc: Global, file: &str) -> Result<String, AllocError>
    ensures { IfOk result (λ text. string_bytes text ≡ no_file_text file.now) }
{
    let file = shown(alloc, file)?;
    format!(in alloc; "fit: no {file}")
}

/// That the map of the file at a path does not fit.
pub fn refused_misfit(alloc: Global, path: &str) -> Result<Failure, AllocError>
    ensures { IfOk result (λ failure. failure_report failure ≡ misfit_report path.now) }
{
    let line = lines::misfit_line(alloc, path)?;
    Ok(Failure::refusal(Code::A4, line))
}

/// Compares the maps of the arguments that are no rules, each a URL and a path, where there is a number for generated files;
/// the first that does not fit is refused. What is told of the others is put into the lines.
pub fn compare_words<F: FileReader>(
    alloc: Global,
    files: &F,
    fit: Option<usize>,
    exact: &Table,
    arguments: &[(String, String)],
) -> Result<ToldLines, Failure>
    ensures { Compares (F.gives files.now) fit exact.now (map argument_of arguments.now)
        (compared result) }
{
    match fit {
        Some(number) => compare_each(alloc, files, number, exact, arguments),
        None => Ok(ToldLines::new(alloc)),
    }
}

// The same with generated files of this number.
fn compare_each<F: FileReader>(
    alloc: Global,
    files: &F,
    number: usize,
    exact: &Table,
    arguments: &[(String, String)],
) -> Result<ToldLines, Failure>
    ensures { ComparesWords (F.gives files.now) number exact.now (map argument_of arguments.now)
        nothing_told (compared result) }
{
    let mut told = ToldLines::new(alloc);
    for (url, path) in arguments {
        if is_rule(url, path) {
            continue;
        }
        compare_word(alloc, files, number, exact, url, path, &mut told)?;
    }
    Ok(told)
}

// Compares the map of an argument.
fn compare_word<F: FileReader>(
    alloc: Global,
    files: &F,
    number: usize,
    exact: &Table,
    url: &str,
    path: &str,
    told: &mut ToldLines,
) -> Result<(), Failure>
    ensures usable { OnOk result (FitsWord (F.gives files.now) number path.now
        (value_under url.now exact.now) (told_seen told.old) (told_seen told.new)) }
    ensures refused { IfErr result (λ failure. OrMemory (IsMisfitWord (F.gives files.now) number
        path.now (value_under url.now exact.now)) (failure_report failure)) }
{
    let Some(map) = exact.map_for(url.as_bytes()) else {
        return Ok(());
    };
    match fitting_of(alloc, files, number, path, map.map())? {
        Fitting::Usable(text) => {
            told.tell_any(text);
            Ok(())
        }
        Fitting::Misfit => Err(refused_misfit(alloc, path)?),
    }
}
