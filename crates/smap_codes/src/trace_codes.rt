//! Why a trace or positions are not answered to their end, and why a word of `rewrite` gives no map.

use crate::code::Code;
use crate::row::Row;

pub const A1: &Row = &Row {
    code: Code::A1,
    meaning: "\
        No frame of a trace can name this URL: it is empty, has a line end, or begins with `async ` \
        or `eval at `.",
    cause: "\
        The argument has nothing in front of its `=`, or a word of the frame was copied with the \
        URL.",
    remedy: "Write the URL as the frames have it, without what stands around it.",
};

pub const A2: &Row = &Row {
    code: Code::A2,
    meaning: "The URL, the prefix or the name has a map already.",
    cause: "It is given by two arguments, or by an argument and a list.",
    remedy: "Give it once.",
};

pub const A3: &Row = &Row {
    code: Code::A3,
    meaning: "Memory ran out while a map was put into a table.",
    cause: "The table is large.",
    remedy: "Give the process more memory.",
};

pub const A4: &Row = &Row {
    code: Code::A4,
    meaning: "The map does not fit the generated file that it is taken with.",
    cause: "The map or the file is of another release, or the file was changed after it was built.",
    remedy: "`smap fit MAP FILE` says where they differ. Give the two of one build.",
};

pub const P1: &Row = &Row {
    code: Code::P1,
    meaning: "The line of standard input whose number follows is the first that is no position.",
    cause: "\
        It is empty, or has a sign, a leading zero, a text, or a number that is not 1 to 2147483648.",
    remedy: "Write LINE and COLUMN, both from 1, with blanks or one `:` between them.",
};

pub const P2: &Row = &Row {
    code: Code::P2,
    meaning: "A line of standard input has more than 64 KiB (65,536 bytes), which is no position.",
    cause: "Standard input is another file, or has lost its line ends.",
    remedy: "Write a position a line.",
};

pub const X1: &Row = &Row {
    code: Code::X1,
    meaning: "Reading standard input failed.",
    cause: "It is a folder, or a device that failed.",
    remedy: "See to it that standard input can be read.",
};

pub const X2: &Row = &Row {
    code: Code::X2,
    meaning: "Writing to standard output failed.",
    cause: "The disk is full, or the program behind the pipe has ended.",
    remedy: "Make room, or read the output to its end.",
};

pub const X3: &Row = &Row {
    code: Code::X3,
    meaning: "\
        Standard input has more than 1 GiB (1,073,741,824 bytes), or more than `--limit` says.",
    cause: "It is a log that is very long or never ends.",
    remedy: "Ask for more with `--limit`, or hand the text over in parts.",
};

pub const X4: &Row = &Row {
    code: Code::X4,
    meaning: "Memory ran out while a text was rewritten. The program prints `memory` for it.",
    cause: "The maps are large, or there are many.",
    remedy: "Give the process more memory, or give fewer maps at once.",
};

pub const X5: &Row = &Row {
    code: Code::X5,
    meaning: "\
        The rewritten text would have more bytes than the caller of the library takes. The program has \
        no such bound.",
    cause: "The map has very long names of sources, which stand in the place of short URLs.",
    remedy: "Raise the bound if the map is trusted, or hand the text over in parts.",
};

pub const X6: &Row = &Row {
    code: Code::X6,
    meaning: "\
        `rewrite --require-mapped`: fewer of the frames got their places than were asked for. All \
        output was written.",
    cause: "The maps are of other URLs or releases, or are missing.",
    remedy: "`--explain` says of each URL why its frames stay.",
};
