//! Why two maps are not composed.
ghost use Rattle.std.specs.Prelude.{◌≡◌};
ghost use Rattle.smap_compose.specs.declared.refusal.ComposeRefusal.TheVariants.{Memory};
ghost use Rattle.smap_compose.specs.Codes.{compose_code};

use smap_codes::Code;
use std::alloc::AllocError;

/// Why two maps are not composed: the first of these that holds, in this order.
#[derive(Clone, Copy, Debug, PartialEq, Eq)]
pub enum ComposeRefusal {
    /// C1: the outer map has no source of this number, from 0.
    SourceIndex,
    /// C2: the two maps have more than 33,554,432 sources together, or names, or the mappings' canonical text has more
    /// than 67,108,864 bytes.
    TooLarge,
    /// C3: there is not enough memory. It may stand in place of `TooLarge` where only the text decides that.
    Memory,
}

impl ComposeRefusal {
    /// The code by which it is called.
    pub fn code(self) -> Code
        ensures { result ≡ compose_code self }
    {
        match self {
            ComposeRefusal::SourceIndex => Code::C1,
            ComposeRefusal::TooLarge => Code::C2,
            ComposeRefusal::Memory => Code::C3,
        }
    }
}

impl From<AllocError> for ComposeRefusal {
    ghost from_gives = { λ _ refusal. refusal ≡ Memory };

    fn from(_error: AllocError) -> ComposeRefusal {
        ComposeRefusal::Memory
    }
}
