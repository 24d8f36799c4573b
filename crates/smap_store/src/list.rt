//! A list of the maps of URLs.
ghost use Rattle.std.specs.Prelude.{◌≡◌, string_bytes, IfErr, IfOk, IsErrAnd, MatchOption, OnErr, OnOk};
ghost use Rattle.std.specs.List.{list_any};
ghost use Rattle.std.specs.Str.Lines.{lines};
ghost use Rattle.smap_store.specs.MapList.{IsRefused, IsTaken, PutsFile, PutsFolder, PutsPattern, PutsRule, TakesList};
ghost use Rattle.smap_store.specs.MapList.{file_fault, folder_fault, is_line_byte, pattern_fault, rule_fault};
ghost use Rattle.smap_locations.specs.declared.refusal.ListFault.TheVariants.{Memory};

use smap_locations::{
    ListFault, ListRefusal, Locations, ends_in_separator, entry_of_line, is_folder, is_rule,
    pattern_text,
};
use smap_trace::{Table, is_bad_url};
use std::alloc::Global;

/// Adds the files, folders and patterns of a list: lines of a URL and a path, of a prefix of URLs and a folder's path, which
/// ends in `/`, or of `*` and the text of a pattern and a path of either kind, with a TAB between them. Lines end in LF or
/// CR LF; empty ones and those that begin with `#` are passed over.
/// The first line that is refused ends it, and those before it stay added. A URL that the table has is refused, too.
pub fn add_list(
    alloc: Global,
    locations: &mut Locations,
    exact: &Table,
    text: &str,
) -> Result<(), ListRefusal>
    ensures { TakesList exact.now (lines text.now) locations.old result locations.new }
{
    let mut number = 0;
    for line in text.lines() {
        number += 1;
        if let Err(fault) = add_line(alloc, locations, exact, line) {
            return Err(ListRefusal {
                line: number,
                fault,
            });
        }
    }
    Ok(())
}

// Adds what a line names. After a refusal nothing is changed.
fn add_line(
    alloc: Global,
    locations: &mut Locations,
    exact: &Table,
    line: &str,
) -> Result<(), ListFault>
    ensures taken { OnOk result (IsTaken exact.now locations.old line.now locations.new) }
    ensures kept { OnErr result (locations.new ≡ locations.old) }
    ensures refused { IfErr result (IsRefused exact.now locations.old line.now) }
{
    match entry_of_line(line) {
        Ok(Some((url, path))) if is_rule(url, path) => add_rule(alloc, locations, url, path),
        Ok(Some((url, path))) => add_file(alloc, locations, exact, url, path),
        Ok(None) => Ok(()),
        Err(fault) => Err(fault),
    }
}

// Adds a file for a URL. After a refusal nothing is changed.
fn add_file(
    alloc: Global,
    locations: &mut Locations,
    exact: &Table,
    url: &str,
    path: &str,
) -> Result<(), ListFault>
    ensures added { OnOk result (PutsFile locations.old url.now path.now locations.new) }
    ensures kept { OnErr result (locations.new ≡ locations.old) }
    ensures refused { MatchOption (file_fault exact.now locations.old url.now)
        (IfErr result (λ fault. fault ≡ Memory)) (λ fault. IsErrAnd result (λ e. e ≡ fault)) }
{
    if is_bad_url(url.as_bytes()) {
        return Err(ListFault::BadUrl);
    }
    if exact.map_for(url.as_bytes()).is_some() || locations.has_file(url.as_bytes()) {
        return Err(ListFault::Twice);
    }
    let (url, path) = texts(alloc, url, path)?;
    match locations.add_file(url, path) {
        Ok(()) => Ok(()),
        Err(_) => Err(ListFault::Memory),
    }
}

/// Adds the pattern or the folder of a rule, as a line of a list does. After a refusal nothing is changed.
pub fn add_rule(
    alloc: Global,
    locations: &mut Locations,
    url: &str,
    path: &str,
) -> Result<(), ListFault>
    ensures added { OnOk result (PutsRule locations.old url.now path.now locations.new) }
    ensures kept { OnErr result (locations.new ≡ locations.old) }
    ensures refused { MatchOption (rule_fault locations.old url.now path.now)
        (IfErr result (λ fault. fault ≡ Memory)) (λ fault. IsErrAnd result (λ e. e ≡ fault)) }
{
    match pattern_text(url.as_bytes()) {
        Some(text) => add_pattern(alloc, locations, text, path),
        None => add_folder(alloc, locations, url, path),
    }
}

// Adds a pattern with its file or its folder. After a refusal nothing is changed.
fn add_pattern(
    alloc: Global,
    locations: &mut Locations,
    text: &[u8],
    path: &str,
) -> Result<(), ListFault>
    ensures added { OnOk result (PutsPattern locations.old text.now path.now locations.new) }
    ensures kept { OnErr result (locations.new ≡ locations.old) }
    ensures refused { MatchOption (pattern_fault locations.old text.now path.now)
        (IfErr result (λ fault. fault ≡ Memory)) (λ fault. IsErrAnd result (λ e. e ≡ fault)) }
{
    if let Some(fault) = pattern_fault(locations, text, path) {
        return Err(fault);
    }
    let (Ok(text), Ok(path)) = (Vec::from_slice(alloc, text), String::from_str(alloc, path)) else {
        return Err(ListFault::Memory);
    };
    match locations.add_pattern(text, path) {
        Ok(()) => Ok(()),
        Err(_) => Err(ListFault::Memory),
    }
}

// Why a pattern is refused, where it is.
fn pattern_fault(locations: &Locations, text: &[u8], path: &str) -> Option<ListFault>
    ensures { result ≡ pattern_fault locations.now text.now path.now }
{
    if is_folder(path.as_bytes()) && !ends_in_separator(text) {
        Some(ListFault::NoFolder)
    } else if has_line_byte(text) {
        Some(ListFault::BadUrl)
    } else if locations.has_pattern(text) {
        Some(ListFault::Twice)
    } else {
        None
    }
}

// Whether a line ends in a text.
fn has_line_byte(text: &[u8]) -> bool
    ensures { result ≡ list_any is_line_byte text.now }
{
    text.iter().any(|byte| is_line_byte(*byte))
}

// Whether a line ends at a byte.
fn is_line_byte(byte: u8) -> bool
    ensures { result ≡ is_line_byte byte }
{
    byte == b'\n' || byte == b'\r'
}

// Adds a folder for a prefix. After a refusal nothing is changed.
fn add_folder(
    alloc: Global,
    locations: &mut Locations,
    prefix: &str,
    folder: &str,
) -> Result<(), ListFault>
    ensures added { OnOk result (PutsFolder locations.old prefix.now folder.now locations.new) }
    ensures kept { OnErr result (locations.new ≡ locations.old) }
    ensures refused { MatchOption (folder_fault locations.old prefix.now)
        (IfErr result (λ fault. fault ≡ Memory)) (λ fault. IsErrAnd result (λ e. e ≡ fault)) }
{
    if !is_folder(prefix.as_bytes()) {
        return Err(ListFault::NoFolder);
    }
    if is_bad_url(prefix.as_bytes()) {
        return Err(ListFault::BadUrl);
    }
    if locations.has_folder(prefix.as_bytes()) {
        return Err(ListFault::Twice);
    }
    let (prefix, folder) = texts(alloc, prefix, folder)?;
    match locations.add_folder(prefix, folder) {
        Ok(()) => Ok(()),
        Err(_) => Err(ListFault::Memory),
    }
}

// Two texts of one's own.
fn texts(alloc: Global, first: &str, second: &str) -> Result<(String, String), ListFault>
    ensures texts { IfOk result
        (λ texts. (string_bytes texts.0 ≡ first.now) × (string_bytes texts.1 ≡ second.now)) }
    ensures memory { IfErr result (λ fault. fault ≡ Memory) }
{
    match String::from_str(alloc, first) {
        Ok(first) => match String::from_str(alloc, second) {
            Ok(second) => Ok((first, second)),
            Err(_) => Err(ListFault::Memory),
        },
        Err(_) => Err(ListFault::Memory),
    }
}
