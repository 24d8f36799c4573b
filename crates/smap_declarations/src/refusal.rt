//! Why a text's declarations are not listed.
ghost use Rattle.std.specs.Prelude.{◌≡◌};
ghost use Rattle.smap_declarations.specs.declared.refusal.DeclarationsRefusal.TheVariants.{Memory};

use std::alloc::AllocError;

/// Why the declarations of a text are not listed: the first of these that holds.
#[derive(Clone, Copy, Debug, PartialEq, Eq)]
pub enum DeclarationsRefusal {
    /// The text has more than 67,108,864 bytes.
    TooLarge,
    /// There is not enough memory.
    Memory,
}

impl From<AllocError> for DeclarationsRefusal {
    ghost from_gives = { λ _ refusal. refusal ≡ Memory };

    fn from(_error: AllocError) -> DeclarationsRefusal {
        DeclarationsRefusal::Memory
    }
}
