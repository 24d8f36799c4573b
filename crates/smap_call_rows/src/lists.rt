//! Lists of mappings, and answers of look-ups, as texts: the numbers of a mapping from 0, as far as it has them, with a
//! comma between two, and a blank between two mappings.
use crate::fault::RowFault;
use crate::row::number_in;
use smap_index::Answer;
use smap_mappings::{Mapping, Origin};
use std::alloc::{AllocError, Global};

// The source, the original line and column and the name, as far as they are there, each after a comma.
fn origin_text(alloc: Global, origin: Option<Origin>) -> Result<String, AllocError> {
    let Some(origin) = origin else {
        return Ok(String::new(alloc));
    };
    let (source, line, column) = (origin.source, origin.line, origin.column);
    match origin.name {
        Some(name) => format!(in alloc; ",{source},{line},{column},{name}"),
        None => format!(in alloc; ",{source},{line},{column}"),
    }
}

/// The mappings.
pub(crate) fn list_text(alloc: Global, list: &[Mapping]) -> Result<String, AllocError> {
    let mut text = String::new(alloc);
    for mapping in list {
        push_word(&mut text, &mapping_text(alloc, mapping)?)?;
    }
    Ok(text)
}

fn mapping_text(alloc: Global, mapping: &Mapping) -> Result<String, AllocError> {
    let (line, column) = (mapping.line, mapping.column);
    let origin = origin_text(alloc, mapping.origin)?;
    format!(in alloc; "{line},{column}{origin}")
}

/// Puts a word behind others, with a blank between two.
pub(crate) fn push_word(text: &mut String, word: &str) -> Result<(), AllocError> {
    if !text.is_empty() {
        text.push(' ')?;
    }
    text.push_str(word)
}

/// The column of the mapping that answers, and its origin; or `none`.
pub(crate) fn answer_text(alloc: Global, answer: &Answer) -> Result<String, AllocError> {
    match answer {
        Answer::Nothing => String::from_str(alloc, "none"),
        Answer::Unmapped { column } => format!(in alloc; "{column}"),
        Answer::Found { column, origin } => {
            let origin = origin_text(alloc, Some(*origin))?;
            format!(in alloc; "{column}{origin}")
        }
    }
}

/// The mappings that a text has.
pub(crate) fn list_in(alloc: Global, text: &str) -> Result<Vec<Mapping>, RowFault> {
    let mut list = Vec::new(alloc);
    for word in text.split_whitespace() {
        list.push(mapping_in(alloc, word)?)?;
    }
    Ok(list)
}

fn mapping_in(alloc: Global, word: &str) -> Result<Mapping, RowFault> {
    mapping_of(&numbers_in(alloc, word)?)
}

fn numbers_in(alloc: Global, word: &str) -> Result<Vec<u32>, RowFault> {
    let mut numbers = Vec::new(alloc);
    for number in word.split(',') {
        numbers.push(number_in(number)?)?;
    }
    Ok(numbers)
}

fn mapping_of(numbers: &[u32]) -> Result<Mapping, RowFault> {
    match numbers {
        [line, column] => Ok(Mapping {
            line: *line,
            column: *column,
            origin: None,
        }),
        [line, column, source, from_line, from_column, rest @ ..] => Ok(Mapping {
            line: *line,
            column: *column,
            origin: Some(Origin {
                source: *source,
                line: *from_line,
                column: *from_column,
                name: rest.first().copied(),
            }),
        }),
        _ => Err(RowFault::BadNumber),
    }
}
