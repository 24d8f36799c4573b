//! The calls by their names.
use crate::answer::Answer;
use crate::fault::RowFault;
use crate::row::Row;
use crate::{
    composing, contents, indexes, look_ups, maps, numbers, originals, paths, positions, sources,
    texts, traces,
};
use smap_command::Direction;

/// Asks the call that a row names.
pub fn answer_call(row: &Row<'_>, answer: &mut Answer) -> Result<(), RowFault> {
    match row.field(0)? {
        "read_vlq" => numbers::read(row, answer),
        "write_vlq" => numbers::write(row, answer),
        "check" => texts::check(row, answer),
        "decode" => texts::decode(row, answer),
        "next" => texts::next(row, answer),
        "encode" => texts::encode_list(row, answer),
        "index" => indexes::index(row, answer),
        "look_up" => indexes::look_up(row, answer, Direction::AtOrBefore),
        "look_up_from" => indexes::look_up(row, answer, Direction::AtOrAfter),
        "look_ups" => look_ups::answer(row, answer),
        "resolve" => sources::answer(row, answer),
        "line_at" => contents::line(row, answer),
        "units" => contents::count(row, answer),
        "unit_place" => contents::place(row, answer),
        "excerpt" => contents::shown(row, answer),
        _ => answer_map_call(row, answer),
    }
}

// The calls over map files, traces and lines of positions.
fn answer_map_call(row: &Row<'_>, answer: &mut Answer) -> Result<(), RowFault> {
    match row.field(0)? {
        "read" => maps::read(row, answer),
        "write" => maps::write(row, answer),
        "originals" => originals::answer(row, answer),
        "compose" => composing::two(row, answer),
        "compose_three" => composing::three(row, answer),
        "frame" => traces::parts(row, answer),
        "table" => traces::added(row, answer),
        "path" => paths::answer(row, answer),
        "list" => paths::list(row, answer),
        "rewrite" => traces::frames(row, answer),
        "rewrite_places" => traces::places(row, answer),
        "read_position" => positions::answer(row, answer),
        _ => Err(RowFault::UnknownCall),
    }
}
