//! What a look-up answers.

ghost use Rattle.std.specs.Prelude.{◌≡◌};
ghost use Rattle.smap_index.specs.Answer.{answer_of, answer_of_last};
ghost use Rattle.smap_index.specs.Private.Search.{on_line};

use smap_mappings::{Mapping, Origin};

/// What a look-up answers. `column` is the generated column of the mapping that answers, from 0, in UTF-16 code units.
#[derive(Clone, Copy, Debug, PartialEq, Eq)]
pub enum Answer {
    /// No mapping stands on the line at the position or before it.
    Nothing,
    /// The mapping that answers has no origin.
    Unmapped { column: u32 },
    /// The mapping that answers has this origin.
    Found { column: u32, origin: Origin },
}

/// The mappings next to a generated position.
#[derive(Clone, Copy)]
pub struct Neighbours {
    /// The last mapping at the position or before it, on its line or on one before.
    pub before: Option<Mapping>,
    /// The first mapping after it, on its line or on one below.
    pub after: Option<Mapping>,
}

// What a mapping answers for a position on this line, where there is one and it stands there.
#[inline(always)]
pub fn answer_on(line: u32, mapping: Option<Mapping>) -> Answer
    ensures { result ≡ answer_of_last (on_line line mapping) }
{
    match mapping {
        Some(mapping) if mapping.line == line => answer_of(&mapping),
        Some(_) => Answer::Nothing,
        None => Answer::Nothing,
    }
}

fn answer_of(mapping: &Mapping) -> Answer
    ensures { result ≡ answer_of mapping.now }
{
    let column = mapping.column;
    match mapping.origin {
        None => Answer::Unmapped { column },
        Some(origin) => Answer::Found { column, origin },
    }
}
