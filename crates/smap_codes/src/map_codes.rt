//! Why a map file is refused.

use crate::code::Code;
use crate::row::Row;

pub const M1: &Row = &Row {
    code: Code::M1,
    meaning: "\
        The file has more than 64 MiB (67,108,864 bytes), the most that a map may have. A list of \
        maps or a composed map that is too large is also called `TooLarge`.",
    cause: "The map holds the whole text of every source (`sourcesContent`) of a large bundle.",
    remedy: "\
        Leave the texts of the sources out of the map, or split the generated file into smaller \
        ones.",
};

pub const M2: &Row = &Row {
    code: Code::M2,
    meaning: "The file is no JSON text.",
    cause: "\
        It is empty or cut off, an error page in HTML, the generated file in place of its map, or \
        compressed; or it is not UTF-8.",
    remedy: "\
        `smap check --explain FILE` says what the file begins as, and where it ends or is broken. \
        If a script holds its map in a `data:` URL, take that out of it first.",
};

pub const M3: &Row = &Row {
    code: Code::M3,
    meaning: "The file is JSON, but its value is no object.",
    cause: "Several maps were written as one list, or only a part of a map was written.",
    remedy: "Give a file whose JSON value is the object of the map.",
};

pub const M4: &Row = &Row {
    code: Code::M4,
    meaning: "The key `version` is missing, or is not the number 3.",
    cause: "\
        The writer put quotes, a point or an exponent around the 3, or the map is of an older \
        format.",
    remedy: "\
        Write `3` without quotes, point and exponent. Have a map of version 1 or 2 written anew.",
};

pub const M5: &Row = &Row {
    code: Code::M5,
    meaning: "\
        The key `sections` is no list of at most 65,536 objects, each with an object as its `map`.",
    cause: "\
        A section names its map by a `url`, which is not fetched, or `sections` stands in a regular \
        map.",
    remedy: "Write the map of each section into it, and leave `sections` out of a regular map.",
};

pub const M6: &Row = &Row {
    code: Code::M6,
    meaning: "\
        A section, whose number follows, has no `offset` with a `line` and a `column`, each a whole \
        number from 0 to 2147483647.",
    cause: "One of the two is missing, is negative, or stands in quotes.",
    remedy: "Write both, from 0, without quotes, sign, point and exponent.",
};

pub const M7: &Row = &Row {
    code: Code::M7,
    meaning: "The map of a section, whose number follows, is an index map itself.",
    cause: "Bundles that have index maps were joined once more.",
    remedy: "\
        Put its sections into the outer list, each at its place in the whole file, or have a regular \
        map written.",
};

pub const M8: &Row = &Row {
    code: Code::M8,
    meaning: "\
        The key `sources` is missing, or is no list of strings and nulls, or there are more than \
        33,554,432 sources.",
    cause: "The writer left the list out, or wrote one name without a list.",
    remedy: "Write the names of the sources as a list, or `[]` where there are none.",
};

pub const M9: &Row = &Row {
    code: Code::M9,
    meaning: "\
        The key `names` is there and is no list of strings, or there are more than 33,554,432 names.",
    cause: "The writer put a null or a number among the names.",
    remedy: "Write strings alone, or leave `names` out where there are none.",
};

pub const M10: &Row = &Row {
    code: Code::M10,
    meaning: "The key `sourcesContent` is there and is no list of strings and nulls.",
    cause: "The writer put an object, `false` or a number where it had no text of a source.",
    remedy: "Write null for each source whose text is not there.",
};

pub const M11: &Row = &Row {
    code: Code::M11,
    meaning: "\
        The key `ignoreList`, or in its place `x_google_ignoreList`, is there and is no list of \
        numbers of sources.",
    cause: "\
        A number is as great as the number of sources or greater, or it is written with a sign, a \
        point or quotes.",
    remedy: "\
        Write whole numbers from 0 that are less than the number of sources, in an index map of \
        those of the section.",
};

pub const M12: &Row = &Row {
    code: Code::M12,
    meaning: "The key `file` or `sourceRoot` is there and is no string.",
    cause: "The writer put a number, a list or `false` there.",
    remedy: "Write a string, or leave the key out.",
};

pub const M13: &Row = &Row {
    code: Code::M13,
    meaning: "\
        The key `mappings` is missing, or is no string, or has more than 64 MiB (67,108,864 bytes).",
    cause: "The writer wrote the mappings as a list, or left them out since there are none.",
    remedy: "Write them as one string in Base64 VLQ, which is empty where there are none.",
};

pub const M14: &Row = &Row {
    code: Code::M14,
    meaning: "\
        The mappings of a section have a fault at the place that follows: section, fault, line, \
        byte.",
    cause: "\
        The string was cut, edited or joined by hand, or belongs to other lists of sources and \
        names.",
    remedy: "\
        See the code F1 to F11 that stands with it. `smap check --explain FILE` shows the segment.",
};

pub const M15: &Row = &Row {
    code: Code::M15,
    meaning: "The sections of the map do not stand one after the other.",
    cause: "Maps were joined at offsets that do not fit the files that were joined.",
    remedy: "\
        See the code B1 to B5 that stands with it. `smap check --explain FILE` shows the places.",
};

pub const M16: &Row = &Row {
    code: Code::M16,
    meaning: "The URL of a source is too long, which is 4 GB or more.",
    cause: "\
        The base, `sourceRoot` and the name of the source are joined, and one of them is very long.",
    remedy: "Shorten the base, `sourceRoot` or the name of the source.",
};

pub const M17: &Row = &Row {
    code: Code::M17,
    meaning: "Memory ran out while the map was read. The program prints `memory` for it.",
    cause: "The map is large, or many maps are held at once.",
    remedy: "Give the process more memory, or read fewer maps at once.",
};

pub const M18: &Row = &Row {
    code: Code::M18,
    meaning: "\
        The names of all sources are made of more bytes than the caller of the library takes. The \
        program has no such bound.",
    cause: "A long `sourceRoot`, or a long base, stands before each of many sources.",
    remedy: "Raise the bound if the map is trusted, or shorten `sourceRoot` and the base.",
};
