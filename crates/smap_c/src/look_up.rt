//! Look-ups, one by one.
ghost use Rattle.std.specs.Prelude.{◌≡◌, IfSome, IsSome};
ghost use Rattle.smap_record.specs.Record.{answer_of_map, answer_of_map_from};
ghost use Rattle.smap_c.specs.Look.{answer_numbers};

use crate::handles::{Holder, MapHandle};
use crate::status::DONE;
use smap_record::{Answer, Meter};
use std::alloc::Global;

/// What a look-up answers. `kind` is 0 where no mapping answers, 1 where one does that has no original, and 2 where it
/// has one; what the kind has not is 0. All count from 0, columns in UTF-16 code units.
#[repr(C)]
#[derive(Clone, Copy)]
pub struct FoundNumbers {
    pub kind: u32,
    /// The column of the mapping that answers, in the generated file.
    pub generated_column: u32,
    pub source: u32,
    pub line: u32,
    pub column: u32,
    /// 1 where the mapping has a name, and else 0.
    pub named: u32,
    pub name: u32,
}

// An answer as numbers.
pub(crate) fn answer_numbers(answer: Answer) -> FoundNumbers
    ensures { result ≡ answer_numbers answer }
{
    let nothing = FoundNumbers {
        kind: 0,
        generated_column: 0,
        source: 0,
        line: 0,
        column: 0,
        named: 0,
        name: 0,
    };
    match answer {
        Answer::Nothing => nothing,
        Answer::Unmapped { column } => FoundNumbers {
            kind: 1,
            generated_column: column,
            ..nothing
        },
        Answer::Found { column, origin } => {
            let (named, name) = match origin.name {
                Some(name) => (1, name),
                None => (0, 0),
            };
            FoundNumbers {
                kind: 2,
                generated_column: column,
                source: origin.source,
                line: origin.line,
                column: origin.column,
                named,
                name,
            }
        }
    }
}

/// Looks a generated position up: the last mapping on the line whose column is not after the asked one answers, and of
/// equal columns the last.
#[unsafe(no_mangle)]
pub extern "C" fn smap_look_up(
    alloc: Global,
    map: &mut MapHandle,
    line: u32,
    column: u32,
    found: &mut FoundNumbers,
) -> u32
    requires { IsSome map.old.held }
    ensures answer { IfSome map.old.held (λ held.
        found.new ≡ answer_numbers (answer_of_map held.stated line column)) }
    ensures stays { map.new.held ≡ map.old.held }
    ensures status { result ≡ 0 }
{
    let mut meter = Meter::new(alloc);
    *found = answer_numbers(map.lend().ready().look_up(line, column, &mut meter));
    DONE
}

/// Looks a generated position up in the other direction: the first mapping on the line whose column is not before the
/// asked one answers, and of equal columns the first.
#[unsafe(no_mangle)]
pub extern "C" fn smap_look_up_from(
    alloc: Global,
    map: &mut MapHandle,
    line: u32,
    column: u32,
    found: &mut FoundNumbers,
) -> u32
    requires { IsSome map.old.held }
    ensures answer { IfSome map.old.held (λ held.
        found.new ≡ answer_numbers (answer_of_map_from held.stated line column)) }
    ensures stays { map.new.held ≡ map.old.held }
    ensures status { result ≡ 0 }
{
    let mut meter = Meter::new(alloc);
    *found = answer_numbers(map.lend().ready().look_up_from(line, column, &mut meter));
    DONE
}
