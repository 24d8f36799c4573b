//! The lines of a text of places and functions, answered one by one.
ghost use Rattle.std.specs.Prelude.{◌≡◌, None, Some, option_map};
ghost use Rattle.smap_lines.specs.LineOutput.{IsPut};
ghost use Rattle.smap_printing.specs.Functions.{function_asked};
ghost use Rattle.smap_store.specs.Named.{named_seen, names_in};
ghost use Rattle.smap_store.specs.Stored.{outcome_at};
ghost use Rattle.smap_text_answers.specs.NamedLocating.{function_at, function_with, named_line};
ghost use Rattle.smap_text_answers.specs.PlaceSeen.{place_seen};

use crate::named_place::{NamedPlace, read_named_place};
use smap_command::AnswerOptions;
use smap_declarations::function_name;
use smap_io::{ByteSink, DeviceFault};
use smap_lines::{LineEditor, LineOutput};
use smap_printing::{AskedFunction, AskedPlace, put_bad_place, put_place_line};
use smap_store::{MapLoader, NamedMaps, NamesLoader};
use smap_trace::Maps;
use std::alloc::Global;

/// Answers the lines of a text of places, each by a line, over maps that are read when a line names their URLs, and with the
/// written names of the functions beside the places, where what is listed of their programs says them.
#[derive(Drop)]
pub struct NamedLocator<'s, 'c, 'n, L: MapLoader, N: NamesLoader> {
    pub maps: NamedMaps<'s, 'c, 'n, L, N>,
    pub options: AnswerOptions,
}

impl<L: MapLoader, N: NamesLoader> LineEditor for NamedLocator<'_, '_, '_, L, N> {
    ghost use Rattle.smap_text_answers.specs.Private.NamedLocator.{NamedBecomes, NamedReaches, NamedSteps, no_bound};
    ghost use Rattle.smap_text_answers.specs.Laws.NamedLocator.{became_answered, named_goes_on, named_stays, room_then, same_answered, some_answered};

    ghost Becomes = { NamedBecomes L.MayLoad N.MayName };

    ghost Steps = { NamedSteps L.Loads N.Names };

    ghost Reaches = { NamedReaches L.Loads N.Names };

    ghost room = { no_bound };

    fn edit<W: ByteSink>(
        &mut self,
        line: &[u8],
        _is_ended: bool,
        output: &mut LineOutput<'_, W>,
    ) -> Result<(), DeviceFault> {
        let Some(named) = read_named_place(line) else {
            return put_bad_place(self.options.form, output);
        };
        let NamedPlace { place, function } = named;
        let url = place.url.as_bytes();
        self.maps.find(url);
        put_named_line(&self.maps, self.options, place, function, output)
    }

    ghost some = { some_answered L.MayLoad N.MayName };

    ghost became = { became_answered L.MayLoad N.MayName L.Loads L.given N.Names N.given_names };

    ghost same = { same_answered L.MayLoad N.MayName L.Loads L.given N.Names N.given_names L.same N.same_names };

    ghost stays = { named_stays L.Loads N.Names };

    ghost goes_on = { named_goes_on L.Loads N.Names };

    ghost room_for_one = { room_then L.Loads N.Names };
}

// Puts the line for a place and the function beside it, over maps of which that of the place's URL was looked for.
fn put_named_line<L: MapLoader, N: NamesLoader, W: ByteSink>(
    maps: &NamedMaps<'_, '_, '_, L, N>,
    options: AnswerOptions,
    place: AskedPlace<'_>,
    function: Option<&str>,
    output: &mut LineOutput<'_, W>,
) -> Result<(), DeviceFault>
    ensures { let url = place.entry.url.now in
        let function = option_map (λ text. text.now) function.entry in
        IsPut W.seen output.old output.new (named_line options
        (record { place = place_seen place.entry; function = function })
        (names_in (named_seen maps.now) url) (outcome_at (named_seen maps.now).stored url)) result }
{
    match function {
        Some(text) => put_function_line(maps, options, place, text, output),
        None => put_alone(maps, options, place, output),
    }
}

// The same with no function.
fn put_alone<L: MapLoader, N: NamesLoader, W: ByteSink>(
    maps: &NamedMaps<'_, '_, '_, L, N>,
    options: AnswerOptions,
    place: AskedPlace<'_>,
    output: &mut LineOutput<'_, W>,
) -> Result<(), DeviceFault>
    ensures { let url = place.entry.url.now in
        IsPut W.seen output.old output.new (named_line options
        (record { place = place_seen place.entry; function = None })
        (names_in (named_seen maps.now) url) (outcome_at (named_seen maps.now).stored url)) result }
{
    let url = place.url.as_bytes();
    let found = maps.maps.outcome_at(url);
    put_place_line(maps.maps.alloc, options, place, None, found, output)
}

// The same with this function.
fn put_function_line<'a, L: MapLoader, N: NamesLoader, W: ByteSink>(
    maps: &'a NamedMaps<'_, '_, '_, L, N>,
    options: AnswerOptions,
    place: AskedPlace<'_>,
    text: &'a str,
    output: &mut LineOutput<'_, W>,
) -> Result<(), DeviceFault>
    ensures { let url = place.entry.url.now in
        IsPut W.seen output.old output.new (named_line options
        (record { place = place_seen place.entry; function = Some text.now })
        (names_in (named_seen maps.now) url) (outcome_at (named_seen maps.now).stored url)) result }
{
    let alloc = maps.maps.alloc;
    let url = place.url.as_bytes();
    let found = maps.maps.outcome_at(url);
    let function = known_function(alloc, maps, place, text);
    put_place_line(alloc, options, place, Some(function), found, output)
}

// What the maps know of the function that is asked for beside a place.
fn known_function<'a, M: Maps>(
    alloc: Global,
    maps: &'a M,
    place: AskedPlace<'_>,
    text: &'a str,
) -> AskedFunction<'a>
    ensures { function_asked result
        ≡ function_at (M.names maps.now place.entry.url.now) place.entry.position text.now }
{
    match function_name(text.as_bytes()) {
        Some(name) => named_function(alloc, maps, place, text, name),
        None => AskedFunction {
            text,
            before: &[],
            written: None,
        },
    }
}

// The same of one that is this name, behind what stands before it.
fn named_function<'a, M: Maps>(
    alloc: Global,
    maps: &'a M,
    place: AskedPlace<'_>,
    text: &'a str,
    name: &'a [u8],
) -> AskedFunction<'a>
    ensures { function_asked result ≡ function_with (M.names maps.now place.entry.url.now)
        place.entry.position text.now (Some name.now) }
{
    let url = place.url.as_bytes();
    let position = place.position;
    let function = text.as_bytes();
    AskedFunction {
        text,
        before: &function[..function.len().saturating_sub(name.len())],
        written: maps.written_name(alloc, url, name, position.line, position.column),
    }
}
