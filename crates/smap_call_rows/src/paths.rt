//! Where the map of a URL is.
use crate::answer::Answer;
use crate::fault::RowFault;
use crate::lists::push_word;
use crate::row::Row;
use crate::traces::table_of;
use smap_locations::{
    ListRefusal, LocationRefusal, Locations, entry_of_line, is_folder, pattern_text,
};
use smap_store::add_list;
use std::alloc::{AllocError, Global};

/// A list of files, folders and patterns, and a URL: `added`, or why one is refused; the path for the URL, or `none`; the
/// text under which its map is remembered; `folder` or `pattern` where the URL is the prefix or the text of one, or `-`; and
/// how many bytes the URLs and the prefixes of the list have.
pub(crate) fn answer(row: &Row<'_>, answer: &mut Answer) -> Result<(), RowFault> {
    let mut locations = Locations::new(row.alloc());
    put_added(row, answer, &mut locations)?;
    put_found(row, answer, &locations)?;
    put_lengths(row, answer, &locations)
}

fn put_added(
    row: &Row<'_>,
    answer: &mut Answer,
    locations: &mut Locations,
) -> Result<(), RowFault> {
    let list = row.text(1)?;
    answer.put_text(added(row.alloc(), locations, &list)?)
}

fn put_found(row: &Row<'_>, answer: &mut Answer, locations: &Locations) -> Result<(), RowFault> {
    let url = row.bytes(2)?;
    match locations.path_for(row.alloc(), &url)? {
        Some(path) => answer.put_text(&path)?,
        None => answer.put_text("none")?,
    }
    answer.put(locations.key_for(&url))?;
    answer.put_text(kind_of(locations, &url))
}

/// A list of maps, and the URLs and maps of a table: `taken`, or the first line that is refused, and why.
pub(crate) fn list(row: &Row<'_>, answer: &mut Answer) -> Result<(), RowFault> {
    match taken(row)? {
        Ok(()) => answer.put_text("taken"),
        Err(refusal) => {
            answer.put_number(refusal.line)?;
            answer.put_debug(&refusal.fault)
        }
    }
}

fn taken(row: &Row<'_>) -> Result<Result<(), ListRefusal>, RowFault> {
    let exact = table_of(row, 2, 64)?;
    let list = row.text(1)?;
    let mut locations = Locations::new(row.alloc());
    Ok(add_list(row.alloc(), &mut locations, &exact, &list))
}

// Adds what the lines of a list name, up to the first that is refused.
fn added(alloc: Global, locations: &mut Locations, list: &str) -> Result<&'static str, RowFault> {
    for line in list.lines() {
        let Ok(Some((name, path))) = entry_of_line(line) else {
            return Err(RowFault::MissingField);
        };
        match add(alloc, locations, name, String::from_str(alloc, path)?)? {
            Ok(()) => {}
            Err(LocationRefusal::NoFolder) => return Ok("NoFolder"),
            Err(LocationRefusal::Twice) => return Ok("Twice"),
            Err(LocationRefusal::Memory) => return Err(RowFault::Memory),
        }
    }
    Ok("added")
}

fn add(
    alloc: Global,
    locations: &mut Locations,
    name: &str,
    path: String,
) -> Result<Result<(), LocationRefusal>, AllocError> {
    if let Some(text) = pattern_text(name.as_bytes()) {
        return Ok(locations.add_pattern(Vec::from_slice(alloc, text)?, path));
    }
    let name = String::from_str(alloc, name)?;
    if is_folder(path.as_bytes()) {
        Ok(locations.add_folder(name, path))
    } else {
        Ok(locations.add_file(name, path))
    }
}

fn kind_of(locations: &Locations, url: &[u8]) -> &'static str {
    if locations.has_folder(url) {
        "folder"
    } else if locations.has_pattern(url) {
        "pattern"
    } else {
        "-"
    }
}

fn put_lengths(row: &Row<'_>, answer: &mut Answer, locations: &Locations) -> Result<(), RowFault> {
    put_numbers(row, answer, &locations.url_lengths(row.alloc())?)?;
    put_numbers(row, answer, &locations.prefix_lengths(row.alloc())?)
}

// Adds a field of the numbers, with a blank between two, or `-`.
fn put_numbers(row: &Row<'_>, answer: &mut Answer, numbers: &[usize]) -> Result<(), RowFault> {
    let text = numbers_text(row.alloc(), numbers)?;
    answer.put_text(if text.is_empty() { "-" } else { &text })
}

fn numbers_text(alloc: Global, numbers: &[usize]) -> Result<String, AllocError> {
    let mut text = String::new(alloc);
    for number in numbers {
        push_word(&mut text, &format!(in alloc; "{number}")?)?;
    }
    Ok(text)
}
