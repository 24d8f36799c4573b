//! The generated places of an original place, a line each.
ghost use Rattle.std.specs.Prelude.{◌≡◌, IfOk};
ghost use Rattle.std.specs.List.{flat_map};
ghost use Rattle.smap_printing.specs.Generated.{generated_line, generated_text};

use crate::growing_text::GrowingText;
use crate::json_form::put_mapping_object;
use crate::mappings::{put_mapping_line, put_no_mapping};
use crate::output::Output;
use smap_command::Form;
use smap_record::{MapFile, Mapping};
use std::alloc::{AllocError, Global};

/// What is printed of these mappings of a map, which are those of an original place: a line each or, where there is none, a
/// line that says so.
pub fn generated_text(
    alloc: Global,
    map: &MapFile,
    mappings: &[Mapping],
    form: Form,
) -> Result<Vec<u8>, AllocError>
    ensures { IfOk result (λ text. text.items ≡ generated_text form map.now.stated mappings.now) }
{
    let mut text = GrowingText::new(alloc);
    if mappings.is_empty() {
        put_no_mapping(form, &mut text);
    } else {
        put_lines(map, mappings, form, &mut text);
    }
    text.text()
}

// Puts the lines for mappings.
fn put_lines<O: Output>(map: &MapFile, mappings: &[Mapping], form: Form, output: &mut O)
    ensures { O.Puts output.old output.new
        (flat_map (generated_line form map.now.stated) mappings.now) }
{
    for mapping in mappings {
        put_line(map, mapping, form, output);
    }
}

// Puts the line for a mapping.
fn put_line<O: Output>(map: &MapFile, mapping: &Mapping, form: Form, output: &mut O)
    ensures { O.Puts output.old output.new (generated_line form map.now.stated mapping.now) }
{
    if form.is_json() {
        put_mapping_object(map, mapping, output)
    } else {
        put_mapping_line(map, mapping, b" of ", &None, output)
    }
}
