//! What a map answers for one position, with its excerpt.
ghost use Rattle.std.specs.Prelude.{◌≡◌, ◌+◌, None, IfOk, option_map};
ghost use Rattle.smap_printing.specs.Json.{answer_value, json_line, lookup_json};
ghost use Rattle.smap_printing.specs.Lookup.{lookup_text};

use crate::answer::{answer_excerpt, from_one, lookup_answer};
use crate::growing_text::GrowingText;
use crate::json_form::{AskedPosition, put_answer_object};
use crate::output::Output;
use crate::text_form::put_answer_line;
use smap_command::Direction;
use smap_record::{Answer, MapFile, ReadyMap};
use std::alloc::{AllocError, Global};

/// What is printed for a generated line and column, both from 0: the line for what the map answers, and after that of a
/// place its excerpt.
pub fn lookup_text(
    alloc: Global,
    map: &ReadyMap,
    line: u32,
    column: u32,
    direction: Direction,
) -> Result<Vec<u8>, AllocError>
    ensures { IfOk result (λ text. text.items ≡ lookup_text direction line column map.now.stated) }
{
    let answer = lookup_answer(alloc, map, line, column, direction);
    let excerpt = answer_excerpt(alloc, map.map(), &answer)?;
    let mut text = GrowingText::new(alloc);
    put_answer_line(map.map(), &answer, None, &mut text);
    if let Some(excerpt) = excerpt {
        text.put(excerpt.as_bytes());
        text.put(b"\n");
    }
    text.text()
}

/// What is printed as JSON for a generated line and column, both from 0: the object for what the map answers, with the
/// excerpt, where there is one, and an LF.
pub fn lookup_as_json(
    alloc: Global,
    map: &ReadyMap,
    line: u32,
    column: u32,
    direction: Direction,
) -> Result<Vec<u8>, AllocError>
    ensures { IfOk result (λ text. text.items ≡ lookup_json direction line column map.now.stated) }
{
    let answer = lookup_answer(alloc, map, line, column, direction);
    let excerpt = answer_excerpt(alloc, map.map(), &answer)?;
    let mut text = GrowingText::new(alloc);
    put_object(
        map.map(),
        line,
        column,
        &answer,
        excerpt.as_deref(),
        &mut text,
    );
    text.text()
}

// Puts the line for what a map answers for a line and a column, both from 0, with this excerpt.
fn put_object<O: Output>(
    map: &MapFile,
    line: u32,
    column: u32,
    answer: &Answer,
    excerpt: Option<&str>,
    output: &mut O,
)
    ensures { O.Puts output.old output.new (json_line
        (answer_value None (option_map (λ excerpt. excerpt.now) excerpt.entry) None None
        map.now.stated (record { line = line + 1; column = column + 1 }) answer.now)) }
{
    let asked = AskedPosition {
        line: from_one(line),
        column: from_one(column),
        function: None,
        url: None,
    };
    put_answer_object(map, asked, answer, None, excerpt, output);
}
