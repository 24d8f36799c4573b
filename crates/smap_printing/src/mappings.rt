//! Printing the mappings of a map.
ghost use Rattle.std.specs.Prelude.{◌≡◌, ◌⊎◌, [], false, option_copied, true, IfErr, IfSome, OnErr, OnOk, if◌then◌else◌, nat_lt};
ghost use Rattle.smap_index.specs.Parts.{joined};
ghost use Rattle.smap_io.specs.Device.{Takes, TakesFront};
ghost use Rattle.smap_lines.specs.RunEnds.{is_write_fault};
ghost use Rattle.smap_lines.specs.LineOutput.{IsPut};
ghost use Rattle.smap_lines.specs.declared.fault.LineFault.TheVariants.{Memory, Write};
ghost use Rattle.smap_printing.specs.Json.{json_line};
ghost use Rattle.smap_printing.specs.Mappings.{asked_text, id_value, is_bare, is_on_line, line_with, mappings_text, no_mapping_line, printed_id, printed_mapping};
ghost use Rattle.smap_printing.specs.Mappings.{text_with_id};
ghost use Rattle.smap_printing.specs.Private.Bare.{is_nothing};
ghost use Rattle.smap_printing.specs.Private.GatheredLine.{Gathers};
ghost use Rattle.smap_printing.specs.Private.Past.{is_past_line};
ghost use Rattle.smap_printing.specs.Private.Plain.{IsKept};

use crate::answer::from_one;
use crate::gathered_line::GatheredLine;
use crate::json_form::put_mapping_object;
use crate::kept_source::{KeptSource, keep_source};
use crate::map_text::put_json_text;
use crate::output::{Output, put_number};
use crate::short_text::ShortText;
use crate::text_form::{NONE, UNMAPPED, put_origin_line};
use smap_command::{Form, MappingsOptions};
use smap_io::{ByteSink, DeviceFault};
use smap_lines::{Gathered, LineFault, LineOutput};
use smap_record::{Answer, MapFile, Mapping, Meter};
use std::alloc::Global;

/// Prints the mappings of a map that the options ask for, a line each in their order, or that none stands on the line that
/// they ask for, and behind them the debug id, where one is given, as a JSON object. The caller gives an output that has
/// not failed.
///
/// It walks through the map's mappings and holds none of them. A room of 65,536 bytes is made before the first write, lines
/// are gathered in it and written when it is full, and at the end, and no line takes memory. The first failure ends it, and
/// then the beginning of the lines was written; where memory ran out, the output was not asked.
pub fn print_mappings<W: ByteSink>(
    alloc: Global,
    map: &MapFile,
    id: Option<&str>,
    options: MappingsOptions,
    output: &mut W,
) -> Result<(), LineFault>
    requires output_works { (W.seen output.old).failed ≡ false }
    ensures printed { OnOk result (Takes (W.seen output.old).taken (W.seen output.new).taken
        (text_with_id options (option_copied id.entry) map.now.stated)) }
    ensures flushed { OnOk result ((W.seen output.new).flushed ≡ true) }
    ensures front { OnErr result (TakesFront (W.seen output.old).taken (W.seen output.new).taken
        (text_with_id options (option_copied id.entry) map.now.stated)) }
    ensures faults { IfErr result (λ fault. (fault ≡ Write) ⊎ (fault ≡ Memory)) }
    ensures output_failure { (W.seen output.new).failed ≡ is_write_fault result }
    ensures memory_output { IfErr result (λ fault. fault ≡ Memory → output.new ≡ output.old) }
{
    let Ok(mut gathered) = Gathered::new(alloc) else {
        return Err(LineFault::Memory);
    };
    let Ok(()) = write_mappings(alloc, map, id, options, &mut gathered, output) else {
        return Err(LineFault::Write);
    };
    match output.flush() {
        Ok(()) => Ok(()),
        Err(DeviceFault) => Err(LineFault::Write),
    }
}

// Writes the lines through a room in which none waits.
fn write_mappings<W: ByteSink>(
    alloc: Global,
    map: &MapFile,
    id: Option<&str>,
    options: MappingsOptions,
    gathered: &mut Gathered,
    output: &mut W,
) -> Result<(), DeviceFault>
    requires none { gathered.old ≡ [] }
    ensures written { OnOk result (Takes (W.seen output.old).taken (W.seen output.new).taken
        (text_with_id options (option_copied id.entry) map.now.stated)) }
    ensures no_failure { OnOk result ((W.seen output.new).failed ≡ (W.seen output.old).failed) }
    ensures front { OnErr result (TakesFront (W.seen output.old).taken (W.seen output.new).taken
        (text_with_id options (option_copied id.entry) map.now.stated)) }
    ensures failure { OnErr result ((W.seen output.new).failed ≡ true) }
{
    let mut lent = LineOutput {
        gathered,
        sink: output,
    };
    put_mappings(alloc, map, id, options, &mut lent)?;
    lent.write()
}

// Puts the lines, and that of a debug id, after the bytes that wait. They are joined in one short text, so that the output
// is seldom asked for room.
fn put_mappings<W: ByteSink>(
    alloc: Global,
    map: &MapFile,
    id: Option<&str>,
    options: MappingsOptions,
    output: &mut LineOutput<'_, W>,
) -> Result<(), DeviceFault>
    ensures { IsPut W.seen output.old output.new
        (text_with_id options (option_copied id.entry) map.now.stated) result }
{
    let mut lines = GatheredLine {
        output,
        text: ShortText::new(),
        done: Ok(()),
    };
    gather_asked(alloc, map, options, &mut lines);
    put_debug_id(id, &mut lines);
    lines.hand_on();
    lines.done
}

// Puts the lines behind one another or, where none stands on the line that is asked for, one that says so.
fn gather_asked<W: ByteSink>(
    alloc: Global,
    map: &MapFile,
    options: MappingsOptions,
    lines: &mut GatheredLine<'_, '_, W>,
)
    ensures { Gathers W.seen lines.old lines.new (asked_text options map.now.stated) }
{
    if is_bare(alloc, map, options.line) {
        put_no_mapping(options.form, lines);
    } else {
        gather_mappings(alloc, map, options, lines);
    }
}

// Whether no mapping stands on a line that is given: a search of the map finds the first.
fn is_bare(alloc: Global, map: &MapFile, line: Option<u32>) -> bool
    ensures { result ≡ is_bare line (joined map.now.stated.parts) }
{
    let Some(line) = line else {
        return false;
    };
    let mut meter = Meter::new(alloc);
    is_nothing(map.look_up_from(line, 0, &mut meter))
}

fn is_nothing(answer: Answer) -> bool
    ensures { result ≡ is_nothing answer }
{
    match answer {
        Answer::Nothing => true,
        Answer::Unmapped { .. } | Answer::Found { .. } => false,
    }
}

// Puts the lines behind one another, until a write fails. The mappings stand in order, so none is sought past the line that
// is asked for.
#[tactic(auto, unfolding(crate::specs::Mappings::mappings_text))]
fn gather_mappings<W: ByteSink>(
    alloc: Global,
    map: &MapFile,
    options: MappingsOptions,
    lines: &mut GatheredLine<'_, '_, W>,
)
    ensures { Gathers W.seen lines.old lines.new (mappings_text options map.now.stated) }
{
    let mut kept = None;
    for mapping in map.mappings(alloc) {
        if is_past_line(options.line, &mapping) {
            return;
        }
        if lines.done.is_err() {
            return;
        }
        keep_source(map, &mapping, &mut kept);
        put_asked(map, options, &mapping, &kept, lines);
    }
}

// Puts the line for a debug id, where one is given.
fn put_debug_id<O: Output>(id: Option<&str>, output: &mut O)
    ensures { O.Puts output.old output.new (printed_id (option_copied id.entry)) }
{
    if let Some(id) = id {
        put_id_object(id, output);
    }
}

fn put_id_object<O: Output>(id: &str, output: &mut O)
    ensures { O.Puts output.old output.new (json_line (id_value id.now)) }
{
    output.put(b"{\"debugId\":");
    put_json_text(Some(id), output);
    output.put(b"}");
    output.put(b"\n");
}

// Whether a mapping stands past this line, where one is given.
fn is_past_line(line: Option<u32>, mapping: &Mapping) -> bool
    ensures { result ≡ is_past_line line mapping.now }
{
    line.is_some_and(|line| line < mapping.line)
}

// Puts the line for a mapping, if it is asked for. Its source may be kept.
fn put_asked<O: Output>(
    map: &MapFile,
    options: MappingsOptions,
    mapping: &Mapping,
    kept: &Option<KeptSource>,
    output: &mut O,
)
    requires { IfSome kept.now (IsKept map.now.stated) }
    ensures { O.Puts output.old output.new
        (if is_on_line options.line mapping.now
        then printed_mapping options.form map.now.stated mapping.now else []) }
{
    if is_on_line(options.line, mapping) {
        put_mapping(map, mapping, options.form, kept, output);
    }
}

// Whether a mapping stands on this line, where one is given.
fn is_on_line(line: Option<u32>, mapping: &Mapping) -> bool
    ensures { result ≡ is_on_line line mapping.now }
{
    line.is_none_or(|line| mapping.line == line)
}

// Puts the line for a mapping.
fn put_mapping<O: Output>(
    map: &MapFile,
    mapping: &Mapping,
    form: Form,
    kept: &Option<KeptSource>,
    output: &mut O,
)
    requires { IfSome kept.now (IsKept map.now.stated) }
    ensures { O.Puts output.old output.new
        (printed_mapping form map.now.stated mapping.now) }
{
    if form.is_json() {
        put_mapping_object(map, mapping, output)
    } else {
        put_mapping_line(map, mapping, b" ", kept, output)
    }
}

/// Puts that there is no mapping.
#[tactic(auto, unfolding(json::specs::Print::escape_byte))]
pub fn put_no_mapping<O: Output>(form: Form, output: &mut O)
    ensures { O.Puts output.old output.new (no_mapping_line form) }
{
    if form.is_json() {
        output.put(b"{\"answer\":\"none\"}\n");
    } else {
        output.put(NONE.as_bytes());
    }
}

/// Puts the line for a mapping as text: its place, a text, and what it answers. Its source may be kept.
pub fn put_mapping_line<O: Output>(
    map: &MapFile,
    mapping: &Mapping,
    between: &[u8],
    kept: &Option<KeptSource>,
    output: &mut O,
)
    requires { IfSome kept.now (IsKept map.now.stated) }
    ensures { O.Puts output.old output.new (line_with between.now map.now.stated mapping.now) }
{
    output.put_decimal(from_one(mapping.line));
    put_number(b":", from_one(mapping.column), output);
    output.put(between);
    match mapping.origin {
        None => output.put(UNMAPPED.as_bytes()),
        Some(origin) => put_origin_line(map, &origin, kept, None, output),
    }
}
