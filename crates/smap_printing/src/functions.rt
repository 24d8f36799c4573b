//! The function that is asked for beside a place.
ghost use Rattle.std.specs.Prelude.{◌≡◌, ◌++◌, codes, option_map};
ghost use Rattle.smap_printing.specs.Functions.{function_answered, function_asked, pieces_text, with_written};
ghost use Rattle.smap_printing.specs.Lines.{function_suffix};
ghost use Rattle.smap_printing.specs.Private.Members.{function_member};

use crate::map_text::{put_json_pieces, put_shown_bytes};
use crate::output::Output;
use smap_record::Answer;

/// The function that is asked for beside a place.
#[derive(Clone, Copy)]
pub struct AskedFunction<'a> {
    /// As it is asked for.
    pub text: &'a str,
    /// What stands before its name in that.
    pub before: &'a [u8],
    /// The name that was written for it, where that is known: where the place has an original, it stands in the stead of its
    /// name.
    pub written: Option<&'a [u8]>,
}

/// The function as it is answered: its name, and what stands before that.
#[derive(Clone, Copy)]
pub struct FunctionText<'a> {
    pub before: &'a [u8],
    pub name: &'a [u8],
}

/// The function as it is asked for, where one is.
pub fn as_asked<'a>(function: Option<AskedFunction<'a>>) -> Option<FunctionText<'a>>
    ensures { option_map pieces_text result
        ≡ option_map (λ it. it.text) (option_map function_asked function.entry) }
{
    match function {
        Some(function) => Some(whole(function.text)),
        None => None,
    }
}

/// The function as it is answered beside what a map answers for the place.
pub fn as_answered<'a>(
    answer: &Answer,
    function: Option<AskedFunction<'a>>,
) -> Option<FunctionText<'a>>
    ensures { option_map pieces_text result
        ≡ option_map (function_answered answer.now) (option_map function_asked function.entry) }
{
    match function {
        Some(function) => Some(answered(answer, function)),
        None => None,
    }
}

fn answered<'a>(answer: &Answer, function: AskedFunction<'a>) -> FunctionText<'a>
    ensures { pieces_text result
        ≡ function_answered answer.now (function_asked function.entry) }
{
    match answer {
        Answer::Nothing => whole(function.text),
        Answer::Unmapped { .. } => whole(function.text),
        Answer::Found { .. } => with_written(function),
    }
}

// The function with the name that was written for it, where that is known.
fn with_written(function: AskedFunction<'_>) -> FunctionText<'_>
    ensures { pieces_text result ≡ with_written (function_asked function.entry)
        (function_asked function.entry).written }
{
    match function.written {
        Some(name) => FunctionText {
            before: function.before,
            name,
        },
        None => whole(function.text),
    }
}

// A text as one piece.
fn whole(text: &str) -> FunctionText<'_>
    ensures { pieces_text result ≡ text.now }
{
    FunctionText {
        before: &[],
        name: text.as_bytes(),
    }
}

/// Puts a function behind a line of text, where there is one, and the end of the line.
pub fn put_function_end<O: Output>(function: Option<FunctionText<'_>>, output: &mut O)
    ensures { O.Puts output.old output.new
        (function_suffix (option_map pieces_text function.entry) ++ codes "\n") }
{
    put_function_suffix(function, output);
    output.put(b"\n");
}

fn put_function_suffix<O: Output>(function: Option<FunctionText<'_>>, output: &mut O)
    ensures { O.Puts output.old output.new
        (function_suffix (option_map pieces_text function.entry)) }
{
    if let Some(function) = function {
        output.put(b"\t");
        put_shown_bytes(function.before, false, output);
        put_shown_bytes(function.name, false, output);
    }
}

/// Puts the member that holds a function, where there is one.
pub fn put_function_member<O: Output>(function: Option<FunctionText<'_>>, output: &mut O)
    ensures { O.Puts output.old output.new
        (function_member (option_map pieces_text function.entry)) }
{
    if let Some(function) = function {
        output.put(b",\"function\":");
        put_json_pieces(function.before, function.name, output);
    }
}
