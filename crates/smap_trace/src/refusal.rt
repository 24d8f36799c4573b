//! Why a map is not put into a table.
ghost use Rattle.std.specs.Prelude.{◌≡◌};
ghost use Rattle.smap_trace.specs.Codes.{table_code};

use smap_codes::Code;

/// Of `Table::add`, which hands the URL and the map back. The first two are reported before the third.
#[derive(Clone, Copy, Debug, PartialEq, Eq)]
pub enum TableRefusal {
    /// A1: the URL is empty, holds a CR or an LF, or begins with `async ` or `eval at `.
    BadUrl,
    /// A2: the table has a map under this URL.
    Twice,
    /// A3: there is not enough memory.
    Memory,
}

impl TableRefusal {
    /// The code by which it is called.
    pub fn code(self) -> Code
        ensures { result ≡ table_code self }
    {
        match self {
            TableRefusal::BadUrl => Code::A1,
            TableRefusal::Twice => Code::A2,
            TableRefusal::Memory => Code::A3,
        }
    }
}
