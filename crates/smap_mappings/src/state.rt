//! A state between two segments, as callers keep it.
use crate::cursor::Cursor;
use std::marker::Model;

/// A place between two segments of a text, and all running values there. One comes from a text alone: `start`, `next`
/// and `state_at` give it, and `next` of the same text takes it back.
#[derive(Clone, Copy)]
pub struct State {
    cursor: Cursor,
}

impl Model for State {
    ghost use Rattle.smap_mappings.specs.declared.cursor.Cursor.{Cursor};

    ghost Value = { Cursor };

    ghost view = { λ s. s.cursor };

    ghost inverse = { λ c. record { cursor = c } };
}

impl State {
    ghost use Rattle.std.specs.Prelude.{◌≡◌};

    // The state at this place, with these running values.
    #[inline(always)]
    pub(crate) fn new(cursor: Cursor) -> Self
        ensures { result ≡ cursor }
    {
        State { cursor }
    }

    /// The place and the running values of the state.
    #[inline(always)]
    pub fn cursor(&self) -> Cursor
        ensures { result ≡ self.now }
    {
        self.cursor
    }
}

// A state is a place and its running values: with a further field this would not compile.
fn has_these_fields_alone(state: &State) {
    let State { cursor } = state;
    let Cursor {
        place: _,
        line: _,
        column: _,
        source: _,
        original_line: _,
        original_column: _,
        name: _,
    } = cursor;
}
