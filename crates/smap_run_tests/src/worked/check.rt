//! Checks of maps.
use crate::worked::Row;

pub const CHECK: &[Row] = &[
    (
        "check m.map",
        &[(
            "m.map",
            r#"{"version":3,"sections":[{"offset":{"line":0,"column":0},"map":{"version":3,"sources":["a.js"],"mappings":"AAAA"}},{"offset":{"line":0,"column":10},"map":{"version":3,"sources":["b.js"],"mappings":"AAAA"}}]}"#,
        )],
        b"",
        "0|ok sections 2 sources 2 names 0 segments 2 lines 2 checkpoints 2\n|",
    ),
    (
        "check m.map",
        &[(
            "m.map",
            r#"{"version":3,"sections":[{"offset":{"line":0,"column":0},"map":{"version":3,"sources":["a.js"],"mappings":"AAAA,WAAA"}},{"offset":{"line":0,"column":10},"map":{"version":3,"sources":["b.js"],"mappings":"AAAA"}}]}"#,
        )],
        b"",
        "1||refused: m.map: M15 Build B3 SectionOverlap 1\n",
    ),
    (
        "check m.map",
        &[("m.map", "")],
        b"",
        "1||refused: m.map: M2 NotJson\n",
    ),
    (
        "check m.map",
        &[("m.map", r#"{"version":3,"#)],
        b"",
        "1||refused: m.map: M2 NotJson\n",
    ),
    (
        "check m.map",
        &[("m.map", ")]}'")],
        b"",
        "1||refused: m.map: M2 NotJson\n",
    ),
    (
        "check m.map",
        &[("m.map", "[]")],
        b"",
        "1||refused: m.map: M3 NotObject\n",
    ),
    (
        "check m.map",
        &[("m.map", r#"{"version":2}"#)],
        b"",
        "1||refused: m.map: M4 Version\n",
    ),
    (
        "check m.map",
        &[("m.map", r#"{"version":3}"#)],
        b"",
        "1||refused: m.map: M8 Sources\n",
    ),
    (
        "check m.map",
        &[("m.map", r#"{"version":3,"sources":["a.js"],"mappings":7}"#)],
        b"",
        "1||refused: m.map: M13 Mappings\n",
    ),
    (
        "check m.map",
        &[(
            "m.map",
            r#"{"version":3,"sources":["a.js"],"mappings":"ACAA"}"#,
        )],
        b"",
        "1||refused: m.map: M14 Text 0 F10 SourceIndex line 1 byte 0\n",
    ),
    (
        "check m.map",
        &[(
            "m.map",
            r#"{"version":3,"sources":["a.js"],"mappings":"AAAAA"}"#,
        )],
        b"",
        "1||refused: m.map: M14 Text 0 F11 NameIndex line 1 byte 0\n",
    ),
    (
        "check m.map",
        &[(
            "m.map",
            r#"{"version":3,"sources":["a.js"],"ignoreList":[1],"mappings":""}"#,
        )],
        b"",
        "1||refused: m.map: M11 IgnoreList\n",
    ),
    (
        "check m.map",
        &[(
            "m.map",
            ")]}'\n{\"version\":3,\"sources\":[\"a.ts\"],\"mappings\":\"AAAA,CAAC\"}",
        )],
        b"",
        "0|ok sections 1 sources 1 names 0 segments 2 lines 1 checkpoints 1\n|",
    ),
    (
        "check --base nope m.map",
        &[(
            "m.map",
            r#"{"version":3,"sourceRoot":"src","sources":["a.ts"],"mappings":"AAAA"}"#,
        )],
        b"",
        "2||usage: bad base URL\n",
    ),
    (
        "check m.map",
        &[("m.map", r#"{"version":3,"sections":[]}"#)],
        b"",
        "0|ok sections 0 sources 0 names 0 segments 0 lines 0 checkpoints 0\n|",
    ),
    (
        "check m.map",
        &[("m.map", r#"{"version":3,"sections":[7]}"#)],
        b"",
        "1||refused: m.map: M5 Sections\n",
    ),
    (
        "check m.map",
        &[(
            "m.map",
            r#"{"version":3,"sections":[{"offset":{"line":0},"map":{}}]}"#,
        )],
        b"",
        "1||refused: m.map: M6 SectionOffset 0\n",
    ),
    (
        "check m.map",
        &[(
            "m.map",
            r#"{"version":3,"sections":[{"offset":{"line":0,"column":0},"map":{"sections":[]}}]}"#,
        )],
        b"",
        "1||refused: m.map: M7 Nested 0\n",
    ),
    (
        "check m.map",
        &[(
            "m.map",
            r#"{"version":3,"sections":[{"offset":{"line":1,"column":0},"map":{"sources":[],"mappings":""}},{"offset":{"line":0,"column":5},"map":{"sources":[],"mappings":""}}]}"#,
        )],
        b"",
        "1||refused: m.map: M15 Build B2 SectionOrder 1\n",
    ),
    (
        "check m.map",
        &[(
            "m.map",
            r#"{"version":3,"sections":[{"offset":{"line":0,"column":2147483647},"map":{"sources":[],"mappings":"C"}}]}"#,
        )],
        b"",
        "1||refused: m.map: M15 Build B4 PositionRange 0\n",
    ),
    (
        "check m.map",
        &[("m.map", r#"{"version":3,"sources":[],"mappings":"AAAA"}"#)],
        b"",
        "1||refused: m.map: M14 Text 0 F10 SourceIndex line 1 byte 0\n",
    ),
    (
        "check m.map",
        &[(
            "m.map",
            r#"{"version":3,"x":[[[[[[[[[[[[[[[[[[[[[[[[[[[[[[[[[[[[[[[[[[[[[[[[[[[[[[[[[[[[[[[[[[[[[[[[[[[[[[[[[[[[[[[[[[[[[[[[[[[[[[[[[[[[[[[[[[[[[[[[[[[[[[[[[[[[[[[[[[[[[[[[[[[[[[[[[[[[[[[[[[[[[[[[[[[[[[[[[[[[[[[[[[[[[[[[[[[[[[[[]]]]]]]]]]]]]]]]]]]]]]]]]]]]]]]]]]]]]]]]]]]]]]]]]]]]]]]]]]]]]]]]]]]]]]]]]]]]]]]]]]]]]]]]]]]]]]]]]]]]]]]]]]]]]]]]]]]]]]]]]]]]]]]]]]]]]]]]]]]]]]]]]]]]]]]]]]]]]]]]]]]]]]]]]]]]]]]]]]]]]]]]]]]]]]]]]]]]]]]]}"#,
        )],
        b"",
        "1||refused: m.map: M2 NotJson\n",
    ),
];
