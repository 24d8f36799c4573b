//! Why an index is not built, and why its mappings are not encoded.
ghost use Rattle.std.specs.Prelude.{◌≡◌};
ghost use Rattle.smap_index.specs.Codes.{build_code};

use smap_codes::Code;

/// Why an index is not built: the first of these that holds, in this order. Numbers of parts count from 0, and each is
/// the least of its kind.
#[derive(Clone, Copy, Debug, PartialEq, Eq)]
pub enum BuildRefusal {
    /// B1: the interval is not 1 to 4096.
    Interval,
    /// B2: the offset of this part stands before that of the part before it.
    SectionOrder(u64),
    /// B3: a mapping of the part before this one stands after this one's offset.
    SectionOverlap(u64),
    /// B4: this part's offset, or a number of one of its mappings at its place, is past 2147483647.
    PositionRange(u64),
    /// B5: there is not enough memory for the table.
    Memory,
}

impl BuildRefusal {
    /// The code by which it is called.
    pub fn code(self) -> Code
        ensures { result ≡ build_code self }
    {
        match self {
            BuildRefusal::Interval => Code::B1,
            BuildRefusal::SectionOrder(_) => Code::B2,
            BuildRefusal::SectionOverlap(_) => Code::B3,
            BuildRefusal::PositionRange(_) => Code::B4,
            BuildRefusal::Memory => Code::B5,
        }
    }
}

/// Why the mappings of an index are not encoded.
#[derive(Clone, Copy)]
pub enum EncodeAllRefusal {
    /// The text would have more than 67,108,864 bytes.
    TooLong,
    /// There is not enough memory for the text.
    Memory,
}
