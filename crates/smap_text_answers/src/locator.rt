//! The lines of a text of places, answered one by one.
use crate::place::read_place;
use smap_command::AnswerOptions;
use smap_io::{ByteSink, DeviceFault};
use smap_lines::{LineEditor, LineOutput};
use smap_printing::{put_bad_place, put_place_line};
use smap_store::{MapLoader, StoredMaps};
use smap_trace::Maps;

/// Answers the lines of a text of places, each by a line, over maps that are read when a line names their URLs.
#[derive(Drop)]
pub struct Locator<'s, 'c, L: MapLoader> {
    pub maps: StoredMaps<'s, 'c, L>,
    pub options: AnswerOptions,
}

impl<L: MapLoader> LineEditor for Locator<'_, '_, L> {
    ghost use Rattle.smap_text_answers.specs.Private.Locator.{LocatorBecomes, LocatorReaches, LocatorSteps, no_limit};
    ghost use Rattle.smap_text_answers.specs.Laws.Locator.{became_answer, locator_goes_on, locator_stays, room_after, same_answer, some_answer};

    ghost Becomes = { LocatorBecomes L.MayLoad };

    ghost Steps = { LocatorSteps L.Loads };

    ghost Reaches = { LocatorReaches L.Loads };

    ghost room = { no_limit };

    fn edit<W: ByteSink>(
        &mut self,
        line: &[u8],
        _is_ended: bool,
        output: &mut LineOutput<'_, W>,
    ) -> Result<(), DeviceFault> {
        let Some(place) = read_place(line) else {
            return put_bad_place(self.options.form, output);
        };
        let url = place.url.as_bytes();
        self.maps.find(url);
        let found = self.maps.outcome_at(url);
        put_place_line(self.maps.alloc, self.options, place, None, found, output)
    }

    ghost some = { some_answer L.MayLoad };

    ghost became = { became_answer L.MayLoad L.Loads L.given };

    ghost same = { same_answer L.MayLoad L.Loads L.given L.same };

    ghost stays = { locator_stays L.Loads };

    ghost goes_on = { locator_goes_on L.Loads };

    ghost room_for_one = { room_after L.Loads };
}
