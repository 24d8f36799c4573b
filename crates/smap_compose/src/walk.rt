//! A walk through the mappings of an inner map, while positions in it are asked.
ghost use Rattle.std.specs.Prelude.{◌≡◌, length, IfSome};
ghost use Rattle.smap_mappings.specs.Range.{position_at, stands_before};
ghost use Rattle.smap_mappings.specs.Within.{IsOriginWithin};
ghost use Rattle.smap_record.specs.Record.{answer_of_map};
ghost use Rattle.smap_compose.specs.Private.Walk.{IsWalkThrough, origin_in, origin_on, stands_up_to};

use smap_record::{Answer, JoinedMappings, MapFile, Mapping, Meter, Origin};
use std::alloc::Global;

// How many mappings a walk passes at most for one position.
const MOST_STEPS: u32 = 8;

/// A walk through the inner map of a source of the outer map.
#[derive(Drop)]
pub struct SourceWalk<'m> {
    pub source: u32,
    pub walk: Walk<'m>,
}

/// A walk through the mappings of a map. Most positions that are asked one after another stand in order, and close together.
#[derive(Drop)]
pub struct Walk<'m> {
    /// The last mapping that was passed.
    pub before: Option<Mapping>,
    /// The first that was not.
    pub next: Option<Mapping>,
    /// Those after it.
    pub left: JoinedMappings<'m>,
}

impl<'m> Walk<'m> {
    /// A walk that has passed no mapping of this map.
    pub fn new(alloc: Global, map: &'m MapFile) -> Walk<'m>
        ensures { IsWalkThrough map.now.stated result }
    {
        let mut left = map.mappings(alloc);
        let next = left.next();
        Walk {
            before: None,
            next,
            left,
        }
    }

    /// The origin that the map answers for a position, both from 0, where it answers with one. A position at the last one
    /// that was asked or a little after it costs no look-up.
    pub fn origin_at(
        &mut self,
        alloc: Global,
        map: &MapFile,
        line: u32,
        column: u32,
    ) -> Option<Origin>
        requires { IsWalkThrough map.now.stated self.old }
        ensures answer { result ≡ origin_in (answer_of_map map.now.stated line column) }
        ensures within { IfSome result (IsOriginWithin
            (length map.now.stated.sources) (length map.now.stated.names)) }
        ensures walk { IsWalkThrough map.now.stated self.new }
    {
        if stands_up_to(&self.before, line, column) {
            for _ in 0..MOST_STEPS {
                let Some(next) = self.next else {
                    return origin_on(line, &self.before);
                };
                if is_past(&next, line, column) {
                    return origin_on(line, &self.before);
                }
                self.before = Some(next);
                self.next = self.left.next();
            }
        }
        looked_up(alloc, map, line, column)
    }
}

// The origin that the map answers for a position, where it answers with one.
fn looked_up(alloc: Global, map: &MapFile, line: u32, column: u32) -> Option<Origin>
    ensures answer { result ≡ origin_in (answer_of_map map.now.stated line column) }
    ensures within { IfSome result (IsOriginWithin
        (length map.now.stated.sources) (length map.now.stated.names)) }
{
    let mut meter = Meter::new(alloc);
    match map.look_up(line, column, &mut meter) {
        Answer::Found { origin, .. } => Some(origin),
        Answer::Unmapped { .. } => None,
        Answer::Nothing => None,
    }
}

// Whether no mapping stands after a position, or one that does not.
#[inline(always)]
fn stands_up_to(mapping: &Option<Mapping>, line: u32, column: u32) -> bool
    ensures { result ≡ stands_up_to line column mapping.now }
{
    match mapping {
        Some(mapping) => !is_past(mapping, line, column),
        None => true,
    }
}

// Whether a mapping stands after a position.
#[inline(always)]
fn is_past(mapping: &Mapping, line: u32, column: u32) -> bool
    ensures { result ≡ stands_before (position_at line column) mapping.now }
{
    line < mapping.line || line == mapping.line && column < mapping.column
}

// The origin of a mapping, where it stands on this line.
#[inline(always)]
fn origin_on(line: u32, mapping: &Option<Mapping>) -> Option<Origin>
    ensures { result ≡ origin_on line mapping.now }
{
    match mapping {
        Some(mapping) if mapping.line == line => mapping.origin,
        _ => None,
    }
}
