//! What is reported by a word alone.

use crate::code::Code;
use crate::row::Row;

pub const TEXT_TOO_LONG: &Row = &Row {
    code: Code::TextTooLong,
    meaning: "The bare mappings text on standard input has more than 64 MiB (67,108,864 bytes).",
    cause: "Standard input is another file, or the text is of a very large file.",
    remedy: "Split the generated file into smaller ones.",
};

pub const NOT_UTF8: &Row = &Row {
    code: Code::NotUtf8,
    meaning: "A bare mappings text, or a list of maps, is not UTF-8.",
    cause: "It is another file, is compressed, or was saved in another encoding.",
    remedy: "Save it in UTF-8. A mappings text is ASCII alone.",
};

pub const DEVICE: &Row = &Row {
    code: Code::Device,
    meaning: "\
        A file can't be read, standard input can't, or standard output can't be written. Status 3.",
    cause: "\
        The file is missing, is a folder, a URL, or may not be read; the disk is full, or the \
        program behind the pipe has ended.",
    remedy: "\
        See that the path is right and may be read. `smap check --explain FILE` says why it can't be. \
        A folder of maps is given as `PREFIX/=FOLDER/`, with both `/`.",
};

pub const MEMORY: &Row = &Row {
    code: Code::Memory,
    meaning: "Memory ran out. Status 3.",
    cause: "A map is large, or many maps are held at once.",
    remedy: "\
        Give the process more memory, or fewer maps at once. `rewrite` keeps fewer with `--cache`.",
};

pub const USAGE: &Row = &Row {
    code: Code::Usage,
    meaning: "The arguments are no command, or one of them is not what it is to be. Status 2.",
    cause: "\
        An argument is missing, is one too many, is of another form, or excludes another \
        (`not together`).",
    remedy: "See `smap --help`, and `smap COMMAND --help` for its arguments.",
};

pub const REFUSED: &Row = &Row {
    code: Code::Refused,
    meaning: "A map, a mappings text, a list or a trace is not accepted. Status 1.",
    cause: "The code that stands with it says which.",
    remedy: "Give the code to `smap explain`.",
};
