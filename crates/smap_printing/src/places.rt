//! The lines that answer places: generated positions in files that URLs name.
ghost use Rattle.std.specs.Prelude.{◌≡◌, option_map};
ghost use Rattle.std.specs.Result.{result_map_both};
ghost use Rattle.serde_json.specs.Written.{compact_text};
ghost use Rattle.smap_lines.specs.LineOutput.{IsPut};
ghost use Rattle.smap_printing.specs.Functions.{function_asked, pieces_text};
ghost use Rattle.smap_printing.specs.Places.{bad_place_line, code_of, fault_in, fault_of, place_line, unanswered, unanswered_line, unanswered_value, unanswered_word};
ghost use Rattle.smap_printing.specs.Positions.{asked_line};
ghost use Rattle.smap_printing.specs.Private.Members.{code_member, code_word};

use crate::answer::lookup_answer;
use crate::functions::{
    AskedFunction, FunctionText, as_answered, as_asked, put_function_end, put_function_member,
};
use crate::gathered_line::GatheredLine;
use crate::json_form::{AskedPosition, put_answer_object, put_end};
use crate::map_text::put_json_text;
use crate::output::{Output, put_number};
use crate::printed_position::PrintedPosition;
use crate::short_text::ShortText;
use crate::text_form::put_answer_line;
use smap_codes::Code;
use smap_command::{AnswerOptions, Form};
use smap_io::{ByteSink, DeviceFault};
use smap_lines::LineOutput;
use smap_record::{MapRefusal, ReadyMap};
use smap_trace::NoMap;
use std::alloc::Global;

/// A generated position in the file of a URL, as it is asked for.
#[derive(Clone, Copy)]
pub struct AskedPlace<'a> {
    pub url: &'a str,
    pub position: PrintedPosition,
}

/// Puts the line for a place after the bytes that wait: what its map answers, or why none does; and with it the function
/// that is asked for, where one is. The call takes no memory.
pub fn put_place_line<W: ByteSink>(
    alloc: Global,
    options: AnswerOptions,
    place: AskedPlace<'_>,
    function: Option<AskedFunction<'_>>,
    found: Result<&ReadyMap, NoMap>,
    output: &mut LineOutput<'_, W>,
) -> Result<(), DeviceFault>
    ensures { IsPut W.seen output.old output.new
        (place_line options (option_map function_asked function.entry) place.entry.url.now
        place.entry.position
        (result_map_both (λ map. map.now.stated) (λ why. why) found.entry)) result }
{
    let mut line = GatheredLine {
        output,
        text: ShortText::new(),
        done: Ok(()),
    };
    put_place(alloc, options, place, function, found, &mut line);
    line.hand_on();
    line.done
}

/// Puts the line for what is no place after the bytes that wait.
pub fn put_bad_place<W: ByteSink>(
    form: Form,
    output: &mut LineOutput<'_, W>,
) -> Result<(), DeviceFault>
    ensures { IsPut W.seen output.old output.new (bad_place_line form) result }
{
    output.put(bad_place(form))
}

#[tactic(auto, unfolding(json::specs::Print::escape_byte))]
fn bad_place(form: Form) -> &'static [u8]
    ensures { result.now ≡ bad_place_line form }
{
    if form.is_json() {
        b"{\"answer\":\"bad place\"}\n"
    } else {
        b"bad place\n"
    }
}

// Puts the line for a place.
fn put_place<O: Output>(
    alloc: Global,
    options: AnswerOptions,
    place: AskedPlace<'_>,
    function: Option<AskedFunction<'_>>,
    found: Result<&ReadyMap, NoMap>,
    output: &mut O,
)
    ensures { O.Puts output.old output.new
        (place_line options (option_map function_asked function.entry) place.entry.url.now
        place.entry.position
        (result_map_both (λ map. map.now.stated) (λ why. why) found.entry)) }
{
    match found {
        Ok(map) => {
            let url = Some(place.url);
            put_answer(alloc, map, options, place.position, function, url, output)
        }
        Err(why) => put_unanswered(options.form, place, as_asked(function), why, output),
    }
}

/// Puts the line for what a map answers for a position, with the function and the URL that were asked for, where there were
/// such.
pub fn put_answer<O: Output>(
    alloc: Global,
    map: &ReadyMap,
    options: AnswerOptions,
    position: PrintedPosition,
    function: Option<AskedFunction<'_>>,
    url: Option<&str>,
    output: &mut O,
)
    ensures { O.Puts output.old output.new
        (asked_line options (option_map function_asked function.entry)
        (option_map (λ url. url.now) url.entry) map.now.stated position) }
{
    let line = position.line.saturating_sub(1);
    let column = position.column.saturating_sub(1);
    let answer = lookup_answer(alloc, map, line, column, options.direction);
    let function = as_answered(&answer, function);
    let map = map.map();
    if options.form.is_json() {
        let asked = AskedPosition {
            line: u64::from(position.line),
            column: u64::from(position.column),
            function,
            url,
        };
        put_answer_object(map, asked, &answer, options.context, None, output)
    } else {
        put_answer_line(map, &answer, function, output)
    }
}

// Puts the line that says why no map answers.
fn put_unanswered<O: Output>(
    form: Form,
    place: AskedPlace<'_>,
    function: Option<FunctionText<'_>>,
    why: NoMap,
    output: &mut O,
)
    ensures { O.Puts output.old output.new
        (unanswered form (option_map pieces_text function.entry) place.entry.url.now
        place.entry.position why) }
{
    if form.is_json() {
        put_unanswered_object(place, function, why, output);
        output.put(b"\n");
    } else {
        put_unanswered_line(function, why, output);
    }
}

fn put_unanswered_line<O: Output>(function: Option<FunctionText<'_>>, why: NoMap, output: &mut O)
    ensures { O.Puts output.old output.new
        (unanswered_line (option_map pieces_text function.entry) why) }
{
    output.put(word_of(why).as_bytes());
    put_code_word(code_of(why), output);
    put_function_end(function, output);
}

// Puts a code behind a word, where there is one.
fn put_code_word<O: Output>(code: Option<Code>, output: &mut O)
    ensures { O.Puts output.old output.new (code_word code) }
{
    if let Some(code) = code {
        output.put(b" ");
        output.put(code.label().as_bytes());
    }
}

fn put_unanswered_object<O: Output>(
    place: AskedPlace<'_>,
    function: Option<FunctionText<'_>>,
    why: NoMap,
    output: &mut O,
)
    ensures { O.Puts output.old output.new (compact_text
        (unanswered_value (option_map pieces_text function.entry) place.entry.url.now
        place.entry.position why)) }
{
    output.put(b"{\"answer\":");
    put_json_text(Some(word_of(why)), output);
    put_number(b",\"column\":", u64::from(place.position.column), output);
    put_code(b",\"fault\":", fault_of(why), output);
    put_function_member(function, output);
    put_number(b",\"line\":", u64::from(place.position.line), output);
    put_code(b",\"refusal\":", code_of(why), output);
    put_end(Some(place.url), output);
}

fn word_of(why: NoMap) -> &'static str
    ensures { result.now ≡ unanswered_word why }
{
    match why {
        NoMap::Unnamed => "no map",
        NoMap::Unread => "no file",
        NoMap::Refused(_) => "refused",
        NoMap::Memory => "no memory",
    }
}

// By which code a map is refused, where it is.
fn code_of(why: NoMap) -> Option<Code>
    ensures { result ≡ code_of why }
{
    match why {
        NoMap::Refused(refused) => Some(refused.code()),
        _ => None,
    }
}

// The code of the fault for which the mappings of a map are refused, where they are.
fn fault_of(why: NoMap) -> Option<Code>
    ensures { result ≡ fault_of why }
{
    match why {
        NoMap::Refused(refused) => fault_in(refused),
        _ => None,
    }
}

fn fault_in(refused: MapRefusal) -> Option<Code>
    ensures { result ≡ fault_in refused }
{
    match refused {
        MapRefusal::Text(_, fault) => Some(fault.kind.code()),
        _ => None,
    }
}

// Puts a code behind what stands before it, where there is one.
fn put_code<O: Output>(front: &[u8], code: Option<Code>, output: &mut O)
    ensures { O.Puts output.old output.new (code_member front.now code) }
{
    if let Some(code) = code {
        output.put(front);
        put_json_text(Some(code.label()), output);
    }
}
