//! Answers as lines of text, each with its LF.
ghost use Rattle.std.specs.Prelude.{◌≡◌, ◌++◌, codes, option_and_then, option_map, slice_get, IfSome, true};
ghost use Rattle.smap_printing.specs.Functions.{pieces_text};
ghost use Rattle.smap_printing.specs.Lines.{function_suffix, ignored_text, name_suffix};
ghost use Rattle.smap_printing.specs.Lookup.{answer_line, origin_line, source_text};
ghost use Rattle.smap_printing.specs.Private.Plain.{IsKept, IsPlain};
ghost use Rattle.smap_record.specs.Written.{text_of_source};

use crate::answer::{from_one, name_at};
use crate::functions::{FunctionText, put_function_end};
use crate::kept_source::KeptSource;
use crate::map_text::put_shown;
use crate::output::{Output, put_number};
use smap_record::{Answer, MapFile, Origin, is_ignored, source_name};

/// No mapping stands at the position or before it on its line.
pub const NONE: &str = "none\n";

/// The position stands in generated code without an original.
pub const UNMAPPED: &str = "unmapped\n";

pub const BAD_POSITION: &str = "bad position\n";

/// Puts the line for what a map answers, with the function that was asked for, where one was.
pub fn put_answer_line<O: Output>(
    map: &MapFile,
    answer: &Answer,
    function: Option<FunctionText<'_>>,
    output: &mut O,
)
    ensures { O.Puts output.old output.new
        (answer_line map.now.stated (option_map pieces_text function.entry) answer.now) }
{
    match answer {
        Answer::Nothing => put_word_line(b"none", function, output),
        Answer::Unmapped { .. } => put_word_line(b"unmapped", function, output),
        Answer::Found { origin, .. } => put_origin_line(map, origin, &None, function, output),
    }
}

// Puts a line that is a word, with the function that was asked for, where one was.
fn put_word_line<O: Output>(word: &[u8], function: Option<FunctionText<'_>>, output: &mut O)
    ensures { O.Puts output.old output.new
        (word.now ++ (function_suffix (option_map pieces_text function.entry) ++ codes "\n")) }
{
    output.put(word);
    put_function_end(function, output);
}

/// Puts the line for a place in a source, which may be kept, with the function that was asked for, where one was.
#[inline(always)]
pub fn put_origin_line<O: Output>(
    map: &MapFile,
    origin: &Origin,
    kept: &Option<KeptSource>,
    function: Option<FunctionText<'_>>,
    output: &mut O,
)
    requires { IfSome kept.now (IsKept map.now.stated) }
    ensures { O.Puts output.old output.new
        (origin_line map.now.stated (option_map pieces_text function.entry) origin.now) }
{
    put_source_at(map, origin.source, kept, output);
    put_number(b":", from_one(origin.line), output);
    put_number(b":", from_one(origin.column), output);
    put_name(name_at(map, origin.name), output);
    put_line_end(is_ignored(map.source(origin.source)), function, output);
}

// Puts how the source of this index prints, which may be kept.
#[inline(always)]
fn put_source_at<O: Output>(map: &MapFile, index: u32, kept: &Option<KeptSource>, output: &mut O)
    requires { IfSome kept.now (IsKept map.now.stated) }
    ensures { O.Puts output.old output.new (source_text
        (option_and_then text_of_source (slice_get map.now.stated.sources index)) index) }
{
    match kept {
        Some(source) if source.index == index => put_kept(map, source, output),
        _ => put_source(source_name(map.source(index)), index, false, output),
    }
}

// Puts how a source prints that is kept.
#[inline(always)]
fn put_kept<O: Output>(map: &MapFile, source: &KeptSource, output: &mut O)
    requires { IsKept map.now.stated source.now }
    ensures { O.Puts output.old output.new (source_text
        (option_and_then text_of_source (slice_get map.now.stated.sources source.now.index))
        source.now.index) }
{
    match &source.name {
        Some(name) => output.put_piece(name),
        None => put_source(
            source_name(map.source(source.index)),
            source.index,
            true,
            output,
        ),
    }
}

/// Puts how a source of this name and index prints, which is as it is where the name is known to be plain.
pub fn put_source<O: Output>(name: Option<&str>, index: u32, is_plain: bool, output: &mut O)
    requires { is_plain ≡ true → IfSome (option_map (λ name. name.now) name) IsPlain }
    ensures { O.Puts output.old output.new
        (source_text (option_map (λ name. name.now) name.entry) index) }
{
    match name {
        Some(name) => put_shown(name, is_plain, output),
        None => {
            put_number(b"[", u64::from(index), output);
            output.put(b"]");
        }
    }
}

fn put_name<O: Output>(name: Option<&str>, output: &mut O)
    ensures { O.Puts output.old output.new
        (name_suffix (option_map (λ name. name.now) name.entry)) }
{
    if let Some(name) = name {
        output.put(b" name ");
        put_shown(name, false, output);
    }
}

// Puts whether a source is ignored, the function that was asked for, where one was, and the end of the line.
fn put_line_end<O: Output>(ignored: bool, function: Option<FunctionText<'_>>, output: &mut O)
    ensures { O.Puts output.old output.new (ignored_text ignored
        ++ (function_suffix (option_map pieces_text function.entry) ++ codes "\n")) }
{
    put_ignored_text(ignored, output);
    put_function_end(function, output);
}

fn put_ignored_text<O: Output>(ignored: bool, output: &mut O)
    ensures { O.Puts output.old output.new (ignored_text ignored) }
{
    if ignored {
        output.put(b" ignored");
    }
}
