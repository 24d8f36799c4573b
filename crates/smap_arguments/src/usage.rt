//! Why arguments give no command.
ghost use Rattle.std.specs.Prelude.{◌≡◌};
ghost use Rattle.smap_arguments.specs.declared.usage.Usage.TheVariants.{Memory};

use std::alloc::AllocError;

/// Why the arguments give no command. A text ends in one LF.
#[derive(Drop)]
pub enum Usage {
    /// They ask for help or for the version: the text goes to standard output, with status 0.
    Help(String),
    /// They are no command: the text goes to standard error, with status 2.
    Words(String),
    /// Memory ran out.
    Memory,
}

impl From<AllocError> for Usage {
    ghost from_gives = { λ _ usage. usage ≡ Memory };

    fn from(_error: AllocError) -> Usage {
        Usage::Memory
    }
}
