//! What is wrong with a text.
ghost use Rattle.std.specs.Prelude.{◌≡◌};
ghost use Rattle.smap_mappings.specs.Codes.{kind_code};

use smap_codes::Code;

/// What is wrong with a segment, in the order in which the kinds are asked: the least that holds is reported. A kind from
/// `FieldCount` on is asked only where every number is spelled right, one from `Negative` on only where the number of
/// fields is right.
#[derive(Clone, Copy, Debug, PartialEq, Eq)]
pub enum FaultKind {
    /// F1: one of its bytes is no Base64 digit.
    BadDigit,
    /// F2: its last byte says that another digit follows.
    Unended,
    /// F3: one of its numbers has more than seven digits.
    TooLong,
    /// F4: one of its numbers has a magnitude past 2147483647.
    TooLarge,
    /// F5: one of its numbers is a negative zero.
    NegativeZero,
    /// F6: it has not one, four or five numbers.
    FieldCount,
    /// F7: a running value after it is below 0.
    Negative,
    /// F8: a running value after it is past 2147483647.
    PastLimit,
    /// F9: its first field is negative, and an earlier segment stands on its line.
    ColumnFalls,
    /// F10: it has an origin, and its source index is not below the number of sources.
    SourceIndex,
    /// F11: it has a name, and its name index is not below the number of names.
    NameIndex,
}

impl FaultKind {
    /// The code by which it is called.
    pub fn code(self) -> Code
        ensures { result ≡ kind_code self }
    {
        match self {
            FaultKind::BadDigit => Code::F1,
            FaultKind::Unended => Code::F2,
            FaultKind::TooLong => Code::F3,
            FaultKind::TooLarge => Code::F4,
            FaultKind::NegativeZero => Code::F5,
            FaultKind::FieldCount => Code::F6,
            FaultKind::Negative => Code::F7,
            FaultKind::PastLimit => Code::F8,
            FaultKind::ColumnFalls => Code::F9,
            FaultKind::SourceIndex => Code::F10,
            FaultKind::NameIndex => Code::F11,
        }
    }
}

/// The first faulty segment of a text.
#[derive(Clone, Copy, Debug, PartialEq, Eq)]
pub struct Fault {
    /// Where the segment begins in the text, in bytes from 0.
    pub byte: u64,
    /// Its generated line, from 0.
    pub line: u32,
    /// The least kind that holds of the segment.
    pub kind: FaultKind,
}
