//! Why a map is not written or composed.

use crate::code::Code;
use crate::row::Row;

pub const O1: &Row = &Row {
    code: Code::O1,
    meaning: "\
        The mappings to be written, as one string, would have more than 64 MiB (67,108,864 bytes).",
    cause: "A section stands at a very great line, since each line that is passed takes a byte.",
    remedy: "Correct the offset of the section, or split the generated file into smaller ones.",
};

pub const O2: &Row = &Row {
    code: Code::O2,
    meaning: "Memory ran out while the map was written.",
    cause: "The map is large.",
    remedy: "Give the process more memory.",
};

pub const C1: &Row = &Row {
    code: Code::C1,
    meaning: "The map, in `compose` the outer one, has no source of this number.",
    cause: "Sources count from 0, or the number is of another map.",
    remedy: "See with `smap sources MAP` which sources the map has.",
};

pub const C2: &Row = &Row {
    code: Code::C2,
    meaning: "\
        The composed map would have more than 33,554,432 sources or names, or mappings of more than \
        64 MiB (67,108,864 bytes).",
    cause: "The maps are very large together.",
    remedy: "Leave out with `--prune` what no mapping has, or compose fewer maps.",
};

pub const C3: &Row = &Row {
    code: Code::C3,
    meaning: "Memory ran out while maps were composed.",
    cause: "The maps are large.",
    remedy: "Give the process more memory, or compose fewer maps.",
};

pub const C4: &Row = &Row {
    code: Code::C4,
    meaning: "The map, in `compose` the outer one, has no source of the name that follows.",
    cause: "\
        The name is written otherwise in the map, or was resolved against another base. Or the map \
        leads to the sources already, since the bundler read the maps of its inputs.",
    remedy: "See with `smap sources MAP` how the sources are called, and write the name so.",
};

pub const E1: &Row = &Row {
    code: Code::E1,
    meaning: "A mapping that is to be encoded stands before the one in front of it.",
    cause: "The list was not sorted by generated line and column.",
    remedy: "Sort the list.",
};

pub const E2: &Row = &Row {
    code: Code::E2,
    meaning: "A number of a mapping that is to be encoded is past 2147483647.",
    cause: "It was computed wrong, or cut from a negative number.",
    remedy: "Correct the number.",
};

pub const E3: &Row = &Row {
    code: Code::E3,
    meaning: "\
        The text of the mappings that are to be encoded would have more than 64 MiB \
        (67,108,864 bytes).",
    cause: "There are very many mappings, or the last stands at a very great line.",
    remedy: "Encode fewer mappings at once.",
};

pub const E4: &Row = &Row {
    code: Code::E4,
    meaning: "Memory ran out while mappings were encoded.",
    cause: "There are many of them.",
    remedy: "Give the process more memory.",
};

pub const U1: &Row = &Row {
    code: Code::U1,
    meaning: "The URL of a source is too long, which is 4 GB or more. Of a whole map that is M16.",
    cause: "\
        The base, `sourceRoot` and the name of the source are joined, and one of them is very long.",
    remedy: "Shorten the base, `sourceRoot` or the name of the source.",
};

pub const U2: &Row = &Row {
    code: Code::U2,
    meaning: "Memory ran out while the name of a source was made.",
    cause: "The name is long.",
    remedy: "Give the process more memory.",
};
