//! Why a source gets no name.
ghost use Rattle.std.specs.Prelude.{◌≡◌};
ghost use Rattle.smap_resolve.specs.declared.refusal.ResolveRefusal.TheVariants.{Memory};
ghost use Rattle.smap_resolve.specs.Codes.{resolve_code};

use smap_codes::Code;
use std::alloc::AllocError;

/// Why a source gets no name. Neither says whether its text is a URL.
#[derive(Clone, Copy)]
pub enum ResolveRefusal {
    /// U1: `url` answered that the URL is too long for it, which is 4 GiB or more.
    UrlTooLong,
    /// U2: there is not enough memory for the name, or on the way to it.
    Memory,
}

impl ResolveRefusal {
    /// The code by which it is called.
    pub fn code(self) -> Code
        ensures { result ≡ resolve_code self }
    {
        match self {
            ResolveRefusal::UrlTooLong => Code::U1,
            ResolveRefusal::Memory => Code::U2,
        }
    }
}

impl From<AllocError> for ResolveRefusal {
    ghost from_gives = { λ _ refusal. refusal ≡ Memory };

    fn from(_: AllocError) -> ResolveRefusal {
        ResolveRefusal::Memory
    }
}
