//! What is known of why a map file is refused.

use smap_mappings::Fault;

/// What is known of why a map file is refused, beside its refusal.
#[derive(Drop)]
pub enum Explanation {
    /// Nothing more.
    Nothing,
    /// The file has more bytes than a map may have, which is 67,108,864.
    TooLarge,
    /// The file is no JSON text.
    NotJson(NotJsonFacts),
    /// The JSON value of the file is no object, but this.
    NotObject(FoundValue),
    /// What stands at a key is none of what may stand there.
    Key(KeyFacts),
    /// A segment of the mappings is faulty.
    Segment(SegmentFacts),
    /// The index of the sections is not built.
    Build(BuildFacts),
}

/// What is known of a file that is no JSON text.
#[derive(Drop)]
pub struct NotJsonFacts {
    pub begins_as: Beginning,
    /// Where reading stopped; nothing of a file that can be read, which is not refused so.
    pub stop: Option<JsonStop>,
}

/// What the bytes of a file begin as.
#[derive(Clone, Copy, PartialEq, Eq)]
pub enum Beginning {
    /// There are none, or only blanks.
    Nothing,
    /// A file that is packed with gzip.
    Gzip,
    /// One that is packed with xz.
    Xz,
    /// One that is packed with zstd.
    Zstd,
    /// A zip archive.
    Zip,
    /// UTF-16, by its byte order mark, or by two characters of ASCII.
    Utf16,
    /// HTML or XML.
    Html,
    /// A `data:` URL.
    DataUrl,
    /// A JSON text, which then breaks off or goes on as none.
    Json,
    /// A JavaScript text that names its source map.
    Script,
    /// None of these.
    Other,
}

/// Where the reader of a JSON text stopped.
#[derive(Drop)]
pub struct JsonStop {
    /// The line of the file, from 1, and the byte of it, from 1.
    pub line: u64,
    pub column: u64,
    /// The byte of the file, from 0.
    pub byte: u64,
    /// Whether the text ends too early, as one that was cut does, by the word of its reader.
    pub is_cut: bool,
    /// The text about it: at most 20 bytes before it and at most 20 from it on, with U+FFFD for what is cut of a character.
    pub before: String,
    pub after: String,
}

/// What stands at a place of a JSON text.
#[derive(Drop)]
pub enum FoundValue {
    /// Nothing.
    Nothing,
    Null,
    Boolean(bool),
    /// A number that is written without sign, point and exponent, and fits 64 bits.
    Whole(u64),
    /// Any other number.
    Number,
    /// A text: its first 80 bytes, or as many as it has, with U+FFFD for a character that is cut.
    Text(String),
    /// A list of this many items.
    List(u64),
    Object,
}

/// A key of a map file.
#[derive(Clone, Copy, PartialEq, Eq)]
pub enum Key {
    Version,
    Sections,
    /// `map` of a section.
    Map,
    /// `offset` of a section.
    Offset,
    /// `line` of a section's offset.
    OffsetLine,
    /// `column` of a section's offset.
    OffsetColumn,
    /// `sections` of a section's map.
    NestedSections,
    Sources,
    Names,
    SourcesContent,
    IgnoreList,
    /// `x_google_ignoreList`, the older key.
    OldIgnoreList,
    File,
    SourceRoot,
    Mappings,
}

/// What stands at a key where something else should.
#[derive(Drop)]
pub struct KeyFacts {
    pub key: Key,
    /// The number of the section in whose map or offset the key stands, from 0, where the file is an index map and the key
    /// is of a section.
    pub section: Option<u64>,
    /// The number of the item of the list at the key, from 0, where the list is wrong by one of its items.
    pub index: Option<u64>,
    /// What stands at the key or, where there is an index, as this item.
    pub found: FoundValue,
    /// The greatest number, index or count that may stand there, where there is one; an index into no sources has none.
    pub most: Option<u64>,
}

/// What is known of the first faulty segment of the mappings.
#[derive(Drop)]
pub struct SegmentFacts {
    /// The number of the section, from 0.
    pub section: u64,
    /// The fault: its byte and its line count from 0.
    pub fault: Fault,
    /// The first 80 bytes of the segment, or as many as it has, with U+FFFD for a character that is cut.
    pub text: String,
    /// The generated column, from 1, where the segment spells a number for it and it is not before the line.
    pub column: Option<u64>,
    /// The first 8 numbers that the segment spells, or as many as it has, where each is spelled right.
    pub numbers: Option<Vec<i32>>,
    /// How many numbers it spells beyond these.
    pub more: u64,
    /// What is wrong with the segment, as far as that is a value.
    pub measure: Option<Measure>,
}

/// A value of a segment, or of the map after it, and what it may be.
#[derive(Clone, Copy)]
pub struct Measure {
    pub quantity: Quantity,
    pub value: i64,
    pub least: Option<i64>,
    pub most: Option<i64>,
}

/// What a value is.
#[derive(Clone, Copy, PartialEq, Eq)]
pub enum Quantity {
    /// The first byte that is no digit of Base64 (F1), which has neither a least nor a most.
    Digit,
    /// How many digits the first number has that has too many (F3): 1 to 7.
    Digits,
    /// The magnitude of the first number that is too large (F4): 0 to 2147483647.
    Magnitude,
    /// How many numbers the segment has (F6), which has neither.
    Numbers,
    /// The generated column after the segment, from 0 (F7, F8; F9, where the least is the column before it).
    Column,
    /// The index of the source after it (F7, F8; F10, where the most is one less than the number of sources).
    Source,
    /// The original line after it, from 0 (F7, F8).
    OriginalLine,
    /// The original column after it, from 0 (F7, F8).
    OriginalColumn,
    /// The index of the name after it (F7, F8; F11, where the most is one less than the number of names).
    Name,
}

/// A generated line and column, both from 1.
#[derive(Clone, Copy, PartialEq, Eq)]
pub struct PrintedPlace {
    pub line: u64,
    pub column: u64,
}

/// What is known of an index that is not built.
#[derive(Clone, Copy)]
pub struct BuildFacts {
    /// The number of the section, from 0.
    pub section: u64,
    /// Where the section begins.
    pub offset: PrintedPlace,
    /// Where the section before it begins, where that is not before this one.
    pub offset_before: Option<PrintedPlace>,
    /// The first mapping of the section before that stands after this one's offset, or the first of this one of which a
    /// number at its place is past 2147483647.
    pub mapping: Option<PrintedPlace>,
}
