//! Look-ups over the maps of a table, by URL.
ghost use Rattle.std.specs.Prelude.{◌≡◌, IfSome, IsSome, MatchOption, option_map};
ghost use Rattle.smap_c.specs.TableLook.{IsLookedUp, IsSourceOf, answer_in, name_found};
ghost use Rattle.smap_c.specs.Texts.{text_or_none};
ghost use Rattle.smap_store.specs.UrlTable.{map_under};

use crate::handles::{Holder, TableHandle};
use crate::look_up::{FoundNumbers, answer_numbers};
use crate::status::{DONE, REFUSED};
use crate::texts::{Source, Text, no_source, reported};
use smap_record::{Answer, MapFile, Meter, ReadyMap};
use std::alloc::Global;

/// How a place is looked up in a table.
#[repr(C)]
#[derive(Clone, Copy)]
pub struct TableOptions {
    /// Whether the first mapping on the line that is not before the place answers, and not the last that is not after it.
    pub after: bool,
    /// Whether a URL under which the table has no map has the one under it without its query and its fragment, before those
    /// of patterns.
    pub cut: bool,
}

/// Looks a generated position up in the map that a table has for a URL, and lends the source that answers and the name of
/// the mapping. What the answer does not have is lent without a byte. Where the table has no such map, nothing is written.
#[unsafe(no_mangle)]
pub extern "C" fn smap_table_look_up<'a>(
    alloc: Global,
    table: &'a mut TableHandle,
    url: &[u8],
    line: u32,
    column: u32,
    options: &TableOptions,
    found: &mut FoundNumbers,
    source: &mut Source<'a>,
    name: &mut Text<'a>,
) -> u32
    requires { IsSome table.old.held }
    ensures { IfSome table.old.held (λ maps. MatchOption (map_under options.now.cut maps url.now)
        ((result ≡ 1) × (found.new ≡ found.old) × (source.new ≡ source.old) × (name.new ≡ name.old))
        (λ stated. (result ≡ 0) × IsLookedUp stated
        (answer_in options.now.after stated line column) found.new source.new name.new)) }
{
    let Some(map) = table.lend().map_under(url, options.cut) else {
        return REFUSED;
    };
    let answer = answer_in(alloc, map, line, column, options.after);
    *found = answer_numbers(answer);
    *source = source_of(map.map(), answer);
    name.text = name_of(map.map(), answer);
    DONE
}

/// What a map answers at a position, in one direction or the other.
pub(crate) fn answer_in(
    alloc: Global,
    map: &ReadyMap,
    line: u32,
    column: u32,
    after: bool,
) -> Answer
    ensures { result ≡ answer_in after map.now.stated line column }
{
    let mut meter = Meter::new(alloc);
    if after {
        map.look_up_from(line, column, &mut meter)
    } else {
        map.look_up(line, column, &mut meter)
    }
}

/// The source that answers, or one of which there is nothing.
pub(crate) fn source_of(map: &MapFile, answer: Answer) -> Source<'_>
    ensures { IsSourceOf map.now.stated answer result }
{
    match answer {
        Answer::Found { origin, .. } => match map.source(origin.source) {
            Some(entry) => reported(entry),
            None => no_source(),
        },
        Answer::Nothing | Answer::Unmapped { .. } => no_source(),
    }
}

/// The name of the mapping that answers, or no bytes.
pub(crate) fn name_of(map: &MapFile, answer: Answer) -> &[u8]
    ensures { result.now ≡ text_or_none (name_found map.now.stated answer) }
{
    match name_in(map, answer) {
        Some(name) => name.as_bytes(),
        None => &[],
    }
}

fn name_in(map: &MapFile, answer: Answer) -> Option<&str>
    ensures { option_map (λ name. name.now) result ≡ name_found map.now.stated answer }
{
    match answer {
        Answer::Found { origin, .. } => map.name(origin.name?),
        Answer::Nothing | Answer::Unmapped { .. } => None,
    }
}
