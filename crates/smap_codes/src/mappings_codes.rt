//! The faults of a `mappings` text, of which the first one is reported.

use crate::code::Code;
use crate::row::Row;

pub const F1: &Row = &Row {
    code: Code::F1,
    meaning: "A byte of the segment is no digit of Base64.",
    cause: "\
        A blank, a line end, a quote or a `=` came into the string, or its writer used the digits \
        `-` and `_` of Base64url.",
    remedy: "Drop what is no digit, and write `+` for `-` and `/` for `_`.",
};

pub const F2: &Row = &Row {
    code: Code::F2,
    meaning: "\
        The segment ends within a number, since its last digit says that another one follows.",
    cause: "The string was cut off, or has lost bytes.",
    remedy: "Have the map written again, or take the whole file.",
};

pub const F3: &Row = &Row {
    code: Code::F3,
    meaning: "A number of the segment has more than 7 digits.",
    cause: "The string is damaged, or its writer pads numbers.",
    remedy: "Have the map written by a tool that writes each number in its shortest spelling.",
};

pub const F4: &Row = &Row {
    code: Code::F4,
    meaning: "A number of the segment is more than 2147483647 away from 0.",
    cause: "The string is damaged, or a number overflowed in its writer.",
    remedy: "Have the map written again.",
};

pub const F5: &Row = &Row {
    code: Code::F5,
    meaning: "A number of the segment is 0 with a minus sign, such as `B`.",
    cause: "Its writer takes the sign before it takes the number.",
    remedy: "Have the writer write `A` for 0.",
};

pub const F6: &Row = &Row {
    code: Code::F6,
    meaning: "The segment has other than 1, 4 or 5 numbers.",
    cause: "The string is damaged, or it uses an extension of the format.",
    remedy: "Have the map written without extensions.",
};

pub const F7: &Row = &Row {
    code: Code::F7,
    meaning: "\
        After the segment a value is below 0: the generated column, the source, the original line or \
        column, or the name.",
    cause: "Segments were dropped, or two strings were joined without starting the values anew.",
    remedy: "Have the map written again, or join maps with a tool that adds their values up.",
};

pub const F8: &Row = &Row {
    code: Code::F8,
    meaning: "\
        After the segment a value is past 2147483647: the generated column, the source, the original \
        line or column, or the name.",
    cause: "Segments were dropped or repeated, or a number overflowed in its writer.",
    remedy: "Have the map written again.",
};

pub const F9: &Row = &Row {
    code: Code::F9,
    meaning: "The generated column of the segment is less than the one before it on its line.",
    cause: "Its writer puts segments out of order.",
    remedy: "\
        Have the writer sort the segments of each line, or rewrite the map with a tool that does.",
};

pub const F10: &Row = &Row {
    code: Code::F10,
    meaning: "The segment names a source that the list `sources` does not have.",
    cause: "The list was cut, or `mappings` comes from another map.",
    remedy: "Give the map the whole list, or the mappings that belong to it.",
};

pub const F11: &Row = &Row {
    code: Code::F11,
    meaning: "The segment names a name that the list `names` does not have.",
    cause: "The list was cut or left out, or `mappings` comes from another map.",
    remedy: "Give the map the whole list, or the mappings that belong to it.",
};
