//! The lines that are printed, each with its LF.
ghost use Rattle.std.specs.Prelude.{◌≡◌, string_bytes, IfOk};
ghost use Rattle.smap_map_answers.specs.ComposedLines.{first_names, name_at, name_line};
ghost use Rattle.smap_map_answers.specs.ComposedLines.{no_source_named_lines, no_source_named_text};

use smap_codes::Code;
use smap_record::{MapFile, source_name};
use smap_text::shown;
use std::alloc::{AllocError, Global};

// How many of the first sources are named.
const MOST_NAMED: u32 = 5;

/// Standard error: no source of the outer map has this name; which command prints the names of all, and those of the first.
pub fn no_source_named_text(
    alloc: Global,
    outer: &MapFile,
    name: &str,
) -> Result<String, AllocError>
    ensures { IfOk result (λ text. string_bytes text
        ≡ no_source_named_text outer.now.stated.sources name.now) }
{
    let mut text = no_source_named_lines(alloc, name)?;
    let names = first_names(alloc, outer)?;
    text.push_str(&names)?;
    Ok(text)
}

// That there is no such source, and which command prints the names of all.
fn no_source_named_lines(alloc: Global, name: &str) -> Result<String, AllocError>
    ensures { IfOk result (λ text. string_bytes text ≡ no_source_named_lines name.now) }
{
    let (code, name) = (Code::C4.text(), shown(alloc, name)?);
    format!(in alloc;
        "\
refused: {code} {name}
  the first names of sources, of which smap sources OUTER prints all:
"
    )
}

// The names of the first sources of a map, a line each.
fn first_names(alloc: Global, map: &MapFile) -> Result<String, AllocError>
    ensures { IfOk result (λ names. string_bytes names ≡ first_names map.now.stated.sources) }
{
    let mut names = String::new(alloc);
    for i in 0..MOST_NAMED {
        let line = name_at(alloc, map, i)?;
        names.push_str(&line)?;
    }
    Ok(names)
}

// The name of the source of this number, as a line, where there is one and it has a name.
fn name_at(alloc: Global, map: &MapFile, i: u32) -> Result<String, AllocError>
    ensures { IfOk result (λ line. string_bytes line ≡ name_at map.now.stated.sources i) }
{
    match source_name(map.source(i)) {
        Some(name) => name_line(alloc, name),
        None => Ok(String::new(alloc)),
    }
}

fn name_line(alloc: Global, name: &str) -> Result<String, AllocError>
    ensures { IfOk result (λ line. string_bytes line ≡ name_line name.now) }
{
    let name = shown(alloc, name)?;
    format!(in alloc; "  {name}\n")
}
