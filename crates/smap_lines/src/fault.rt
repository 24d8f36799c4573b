//! Why the editing of a text ends.
ghost use Rattle.std.specs.Prelude.{◌≡◌};
ghost use Rattle.smap_lines.specs.Codes.{line_code};

use smap_codes::Code;

/// Why the editing of a text ended before its end.
#[derive(Clone, Copy, Debug, PartialEq, Eq)]
pub enum LineFault {
    /// A read failed.
    Read,
    /// A write failed.
    Write,
    /// The text has more bytes than were to be taken.
    TooMuch,
    /// There was not enough memory.
    Memory,
}

impl LineFault {
    /// The code by which it is called.
    pub fn code(self) -> Code
        ensures { result ≡ line_code self }
    {
        match self {
            LineFault::Read => Code::X1,
            LineFault::Write => Code::X2,
            LineFault::TooMuch => Code::X3,
            LineFault::Memory => Code::X4,
        }
    }
}
