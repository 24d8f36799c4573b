//! The positions of a text, answered line by line.
ghost use Rattle.std.specs.Prelude.{None};
ghost use Rattle.smap_lines.specs.LineOutput.{IsPut};
ghost use Rattle.smap_printing.specs.Positions.{position_line};

use crate::gathered_line::GatheredLine;
use crate::json_form::put_bad_position;
use crate::output::Output;
use crate::places::put_answer;
use crate::printed_position::PrintedPosition;
use crate::reading::read_position;
use crate::short_text::ShortText;
use crate::text_form::BAD_POSITION;
use smap_command::AnswerOptions;
use smap_io::{ByteSink, DeviceFault};
use smap_lines::{LineEditor, LineOutput};
use smap_record::ReadyMap;
use std::alloc::Global;

/// Answers the lines of a text of positions, counts them, and keeps the number of the first that is no position.
#[derive(Drop)]
pub struct PositionAnswerer<'m> {
    pub alloc: Global,
    pub map: &'m ReadyMap,
    pub options: AnswerOptions,
    pub lines: u64,
    pub first_bad: Option<u64>,
}

impl LineEditor for PositionAnswerer<'_> {
    ghost use Rattle.smap_printing.specs.Private.Answerer.{after_position, answer_of, room_of};
    ghost use Rattle.smap_lines.specs.Laws.OneText.{Only, OnlyStep};
    ghost use Rattle.smap_printing.specs.Laws.Answerer.{room_after, same_after};
    ghost use Rattle.std.specs.Prelude.{refl, ⊤};

    ghost Becomes = { λ answerer. Only (answer_of answerer) };

    ghost Steps = { OnlyStep answer_of after_position };

    ghost Reaches = { λ answerer later. ⊤ };

    ghost room = { room_of };

    fn edit<W: ByteSink>(
        &mut self,
        line: &[u8],
        _is_ended: bool,
        output: &mut LineOutput<'_, W>,
    ) -> Result<(), DeviceFault> {
        let position = read_position(line);
        self.lines += 1;
        if position.is_none() && self.first_bad.is_none() {
            self.first_bad = Some(self.lines);
        }
        self.put_gathered(position, output)
    }

    ghost some = { λ answerer line. (answer_of answerer line, refl) };

    ghost became = { λ answerer after line text steps. steps.0 };

    ghost same = { same_after };

    ghost stays = { λ answerer. tt };

    ghost goes_on = { λ answerer mid later one two. tt };

    ghost room_for_one = { room_after };
}

impl PositionAnswerer<'_> {
    // Puts the line for a position, and for what is none, after the bytes that wait.
    fn put_gathered<W: ByteSink>(
        &self,
        position: Option<PrintedPosition>,
        output: &mut LineOutput<'_, W>,
    ) -> Result<(), DeviceFault>
        ensures { IsPut W.seen output.old output.new
            (position_line self.now.options self.now.map.now.stated position) result }
    {
        let mut line = GatheredLine {
            output,
            text: ShortText::new(),
            done: Ok(()),
        };
        self.put_line(position, &mut line);
        line.hand_on();
        line.done
    }

    // Puts the line for a position, and for what is none.
    fn put_line<O: Output>(&self, position: Option<PrintedPosition>, output: &mut O)
        ensures { O.Puts output.old output.new
            (position_line self.now.options self.now.map.now.stated position) }
    {
        match position {
            Some(position) => put_answer(
                self.alloc,
                self.map,
                self.options,
                position,
                None,
                None,
                output,
            ),
            None => self.put_bad(output),
        }
    }

    // Puts the line for what is no position.
    fn put_bad<O: Output>(&self, output: &mut O)
        ensures { O.Puts output.old output.new
            (position_line self.now.options self.now.map.now.stated None) }
    {
        if self.options.form.is_json() {
            put_bad_position(output)
        } else {
            output.put(BAD_POSITION.as_bytes())
        }
    }
}
