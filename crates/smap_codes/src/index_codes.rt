//! Why the index of a map is not built.

use crate::code::Code;
use crate::row::Row;

pub const B1: &Row = &Row {
    code: Code::B1,
    meaning: "The interval of the checkpoints is not 1 to 4096.",
    cause: "A program that calls the library asks for another one.",
    remedy: "Ask for an interval from 1 to 4096, of which 64 is usual.",
};

pub const B2: &Row = &Row {
    code: Code::B2,
    meaning: "\
        The offset of a section, whose number follows, stands before that of the section in front of \
        it.",
    cause: "The sections were not sorted.",
    remedy: "Sort the sections by their offsets, by line and then by column.",
};

pub const B3: &Row = &Row {
    code: Code::B3,
    meaning: "The section in front of the one whose number follows has a mapping after its offset.",
    cause: "\
        The offset is wrong, files were joined with the maps of others, or the length of a file was \
        counted wrong.",
    remedy: "Correct the offset, or drop the mappings that stand after it.",
};

pub const B4: &Row = &Row {
    code: Code::B4,
    meaning: "\
        A mapping of a section, whose number follows, stands at a line or a column past 2147483647.",
    cause: "The offset of the section is wrong.",
    remedy: "Correct the offset.",
};

pub const B5: &Row = &Row {
    code: Code::B5,
    meaning: "Memory ran out for the index.",
    cause: "The map is large, or its interval is small.",
    remedy: "Give the process more memory, or ask for a greater interval.",
};
