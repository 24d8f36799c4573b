//! The codes of all refusals and failures, and how each is called.
ghost use Rattle.std.specs.Prelude.{◌≡◌};
ghost use Rattle.std.specs.List.{Contains};
ghost use Rattle.smap_codes.specs.Codes.{all_codes, called, called_by, label_of, name_of, number_of, text_of};

/// Why something is refused, or failed: a letter and a number, as `M14`, which has a name, as `Text`; or a word that stands
/// alone, which has none.
#[derive(Clone, Copy, Debug, PartialEq, Eq)]
pub enum Code {
    // Why a map file is refused.
    M1,
    M2,
    M3,
    M4,
    M5,
    M6,
    M7,
    M8,
    M9,
    M10,
    M11,
    M12,
    M13,
    M14,
    M15,
    M16,
    M17,
    M18,
    // The faults of a `mappings` text.
    F1,
    F2,
    F3,
    F4,
    F5,
    F6,
    F7,
    F8,
    F9,
    F10,
    F11,
    // Why the index of a map is not built.
    B1,
    B2,
    B3,
    B4,
    B5,
    // Why a map is not written or composed.
    O1,
    O2,
    C1,
    C2,
    C3,
    C4,
    E1,
    E2,
    E3,
    E4,
    U1,
    U2,
    // Why a trace or positions are not answered to their end, and why a word of `rewrite` gives no map.
    A1,
    A2,
    A3,
    A4,
    P1,
    P2,
    X1,
    X2,
    X3,
    X4,
    X5,
    X6,
    // What is reported by a word alone.
    TextTooLong,
    NotUtf8,
    Device,
    Memory,
    Usage,
    Refused,
}

impl Code {
    /// The letter and the number, as `M14`, or the word.
    pub fn label(self) -> &'static str
        ensures { result.now ≡ label_of self }
    {
        names_of(self).label
    }

    /// The number behind the letter, and 0 of a word.
    pub fn number(self) -> u32
        ensures { result ≡ number_of self }
    {
        names_of(self).number
    }

    /// The name, as `Text`, or the word.
    pub fn name(self) -> &'static str
        ensures { result.now ≡ name_of self }
    {
        names_of(self).name
    }

    /// What is printed: the label and the name, as `M14 Text`, or the word.
    pub fn text(self) -> &'static str
        ensures { result.now ≡ text_of self }
    {
        names_of(self).text
    }
}

/// All codes, by families, and after them the words that stand alone.
#[tactic(auto, unfolding(crate::specs::Codes::all_codes))]
pub fn all() -> &'static [Code]
    ensures all { result.now ≡ all_codes }
    ensures each { (code : Code) → Contains result.now code }
{
    ALL
}

const ALL: &[Code] = &[
    Code::M1,
    Code::M2,
    Code::M3,
    Code::M4,
    Code::M5,
    Code::M6,
    Code::M7,
    Code::M8,
    Code::M9,
    Code::M10,
    Code::M11,
    Code::M12,
    Code::M13,
    Code::M14,
    Code::M15,
    Code::M16,
    Code::M17,
    Code::M18,
    Code::F1,
    Code::F2,
    Code::F3,
    Code::F4,
    Code::F5,
    Code::F6,
    Code::F7,
    Code::F8,
    Code::F9,
    Code::F10,
    Code::F11,
    Code::B1,
    Code::B2,
    Code::B3,
    Code::B4,
    Code::B5,
    Code::O1,
    Code::O2,
    Code::C1,
    Code::C2,
    Code::C3,
    Code::C4,
    Code::E1,
    Code::E2,
    Code::E3,
    Code::E4,
    Code::U1,
    Code::U2,
    Code::A1,
    Code::A2,
    Code::A3,
    Code::A4,
    Code::P1,
    Code::P2,
    Code::X1,
    Code::X2,
    Code::X3,
    Code::X4,
    Code::X5,
    Code::X6,
    Code::TextTooLong,
    Code::NotUtf8,
    Code::Device,
    Code::Memory,
    Code::Usage,
    Code::Refused,
];

// How a code is called.
#[derive(Clone, Copy)]
struct Called {
    label: &'static str,
    number: u32,
    name: &'static str,
    text: &'static str,
}

// By this letter, number and name, or by this word.
macro_rules! called {
    ($letter:literal, $number:literal, $name:literal) => {
        Called {
            label: concat!($letter, $number),
            number: $number,
            name: $name,
            text: concat!($letter, $number, " ", $name),
        }
    };
    ($word:literal) => {
        Called {
            label: $word,
            number: 0,
            name: $word,
            text: $word,
        }
    };
}

#[tactic(auto, unfolding(crate::specs::Codes::called))]
fn names_of(code: Code) -> Called
    ensures { called_by result.label.now result.number result.name.now result.text.now
        ≡ called code }
{
    match code {
        Code::M1 => called!("M", 1, "TooLarge"),
        Code::M2 => called!("M", 2, "NotJson"),
        Code::M3 => called!("M", 3, "NotObject"),
        Code::M4 => called!("M", 4, "Version"),
        Code::M5 => called!("M", 5, "Sections"),
        Code::M6 => called!("M", 6, "SectionOffset"),
        Code::M7 => called!("M", 7, "Nested"),
        Code::M8 => called!("M", 8, "Sources"),
        Code::M9 => called!("M", 9, "Names"),
        Code::M10 => called!("M", 10, "SourcesContent"),
        Code::M11 => called!("M", 11, "IgnoreList"),
        Code::M12 => called!("M", 12, "FileOrRoot"),
        Code::M13 => called!("M", 13, "Mappings"),
        Code::M14 => called!("M", 14, "Text"),
        Code::M15 => called!("M", 15, "Build"),
        Code::M16 => called!("M", 16, "Url"),
        Code::M17 => called!("M", 17, "Memory"),
        Code::M18 => called!("M", 18, "LongNames"),
        Code::F1 => called!("F", 1, "BadDigit"),
        Code::F2 => called!("F", 2, "Unended"),
        Code::F3 => called!("F", 3, "TooLong"),
        Code::F4 => called!("F", 4, "TooLarge"),
        Code::F5 => called!("F", 5, "NegativeZero"),
        Code::F6 => called!("F", 6, "FieldCount"),
        Code::F7 => called!("F", 7, "Negative"),
        Code::F8 => called!("F", 8, "PastLimit"),
        Code::F9 => called!("F", 9, "ColumnFalls"),
        Code::F10 => called!("F", 10, "SourceIndex"),
        Code::F11 => called!("F", 11, "NameIndex"),
        Code::B1 => called!("B", 1, "Interval"),
        Code::B2 => called!("B", 2, "SectionOrder"),
        Code::B3 => called!("B", 3, "SectionOverlap"),
        Code::B4 => called!("B", 4, "PositionRange"),
        Code::B5 => called!("B", 5, "Memory"),
        Code::O1 => called!("O", 1, "TextTooLong"),
        Code::O2 => called!("O", 2, "Memory"),
        Code::C1 => called!("C", 1, "SourceIndex"),
        Code::C2 => called!("C", 2, "TooLarge"),
        Code::C3 => called!("C", 3, "Memory"),
        Code::C4 => called!("C", 4, "NoSource"),
        Code::E1 => called!("E", 1, "NotSorted"),
        Code::E2 => called!("E", 2, "OutOfRange"),
        Code::E3 => called!("E", 3, "TooLong"),
        Code::E4 => called!("E", 4, "Memory"),
        Code::U1 => called!("U", 1, "UrlTooLong"),
        Code::U2 => called!("U", 2, "Memory"),
        Code::A1 => called!("A", 1, "BadUrl"),
        Code::A2 => called!("A", 2, "Twice"),
        Code::A3 => called!("A", 3, "Memory"),
        Code::A4 => called!("A", 4, "Misfit"),
        Code::P1 => called!("P", 1, "BadPosition"),
        Code::P2 => called!("P", 2, "LongLine"),
        Code::X1 => called!("X", 1, "Read"),
        Code::X2 => called!("X", 2, "Write"),
        Code::X3 => called!("X", 3, "TooMuch"),
        Code::X4 => called!("X", 4, "Memory"),
        Code::X5 => called!("X", 5, "LongOutput"),
        Code::X6 => called!("X", 6, "FewMapped"),
        Code::TextTooLong => called!("TextTooLong"),
        Code::NotUtf8 => called!("NotUtf8"),
        Code::Device => called!("device"),
        Code::Memory => called!("memory"),
        Code::Usage => called!("usage"),
        Code::Refused => called!("refused"),
    }
}
