//! Look-ups in bare mappings texts.
use crate::worked::Row;

pub const RAW: &[Row] = &[
    (
        "raw 1 6",
        &[],
        b"AAAA,CAAC;AACA",
        "0|source 0 line 1 column 2\n|",
    ),
    (
        "raw 2 1",
        &[],
        b"AAAA,CAAC;AACA",
        "0|source 0 line 2 column 2\n|",
    ),
    (
        "raw 2 1",
        &[],
        b"ACAAC;AAAAA",
        "0|source 1 line 1 column 1 name 1\n|",
    ),
    ("raw 1 1", &[], b"", "0|none\n|"),
    ("raw 2 1", &[], b"AAAA", "0|none\n|"),
    ("raw 1 2147483648", &[], b"+/////D", "0|unmapped\n|"),
    ("raw 1 1", &[], b"A,A,A", "0|unmapped\n|"),
    (
        "raw --interval 2 1 4",
        &[],
        b"AAAA,CAAC,C,CAAC",
        "0|source 0 line 1 column 3\n|",
    ),
    (
        "raw 1 1",
        &[],
        b"AAAAA",
        "0|source 0 line 1 column 1 name 0\n|",
    ),
    ("raw 1 1", &[], b"AAAA\x0a", "0|source 0 line 1 column 1\n|"),
    (
        "raw 1 1",
        &[],
        b"+/////D,C",
        "1||refused: F8 PastLimit line 1 byte 8\n",
    ),
    (
        "raw 1 1",
        &[],
        b"ggggggE",
        "1||refused: F4 TooLarge line 1 byte 0\n",
    ),
    (
        "raw 1 1",
        &[],
        b"gggggggA",
        "1||refused: F3 TooLong line 1 byte 0\n",
    ),
    (
        "raw 1 1",
        &[],
        b"B",
        "1||refused: F5 NegativeZero line 1 byte 0\n",
    ),
    (
        "raw 1 1",
        &[],
        b"Ag",
        "1||refused: F2 Unended line 1 byte 0\n",
    ),
    (
        "raw 1 1",
        &[],
        b"AA",
        "1||refused: F6 FieldCount line 1 byte 0\n",
    ),
    (
        "raw 1 1",
        &[],
        b"A!A",
        "1||refused: F1 BadDigit line 1 byte 0\n",
    ),
    (
        "raw 1 1",
        &[],
        b"CAAA,DAAA",
        "1||refused: F9 ColumnFalls line 1 byte 5\n",
    ),
    (
        "raw 1 1",
        &[],
        b"DAAA",
        "1||refused: F7 Negative line 1 byte 0\n",
    ),
    (
        "raw 1 1",
        &[],
        b"AAAA\x0a\x0a",
        "1||refused: F1 BadDigit line 1 byte 0\n",
    ),
    ("raw 1 1", &[], b"\xff", "1||refused: NotUtf8\n"),
];
