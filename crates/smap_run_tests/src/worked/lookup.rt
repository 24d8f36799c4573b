//! Look-ups in maps.
use crate::worked::Row;

pub const LOOKUP: &[Row] = &[
    (
        "lookup m.map 1 10",
        &[(
            "m.map",
            r#"{"version":3,"sections":[{"offset":{"line":0,"column":0},"map":{"version":3,"sources":["a.js"],"mappings":"AAAA"}},{"offset":{"line":0,"column":10},"map":{"version":3,"sources":["b.js"],"mappings":"AAAA"}}]}"#,
        )],
        b"",
        "0|a.js:1:1\n|",
    ),
    (
        "lookup m.map 1 11",
        &[(
            "m.map",
            r#"{"version":3,"sections":[{"offset":{"line":0,"column":0},"map":{"version":3,"sources":["a.js"],"mappings":"AAAA"}},{"offset":{"line":0,"column":10},"map":{"version":3,"sources":["b.js"],"mappings":"AAAA"}}]}"#,
        )],
        b"",
        "0|b.js:1:1\n|",
    ),
    (
        "lookup m.map 1 11",
        &[(
            "m.map",
            r#"{"version":3,"sections":[{"offset":{"line":0,"column":0},"map":{"version":3,"sources":["a.js"],"mappings":"AAAA"}},{"offset":{"line":0,"column":10},"map":{"version":3,"sources":["b.js"],"mappings":"CAAA"}}]}"#,
        )],
        b"",
        "0|a.js:1:1\n|",
    ),
    (
        "lookup m.map 1 11",
        &[(
            "m.map",
            r#"{"version":3,"sections":[{"offset":{"line":0,"column":0},"map":{"version":3,"sources":["a.js"],"mappings":"AAAA,UAAA"}},{"offset":{"line":0,"column":10},"map":{"version":3,"sources":["b.js"],"mappings":"AAAA"}}]}"#,
        )],
        b"",
        "0|b.js:1:1\n|",
    ),
    (
        "lookup --after m.map 1 2",
        &[(
            "m.map",
            r#"{"version":3,"sections":[{"offset":{"line":0,"column":0},"map":{"version":3,"sources":["a.js"],"mappings":"AAAA,UAAA"}},{"offset":{"line":0,"column":10},"map":{"version":3,"sources":["b.js"],"mappings":"AAAA"}}]}"#,
        )],
        b"",
        "0|a.js:1:1\n|",
    ),
    (
        "lookup --after m.map 1 11",
        &[(
            "m.map",
            r#"{"version":3,"sections":[{"offset":{"line":0,"column":0},"map":{"version":3,"sources":["a.js"],"mappings":"AAAA,UAAA"}},{"offset":{"line":0,"column":10},"map":{"version":3,"sources":["b.js"],"mappings":"AAAA"}}]}"#,
        )],
        b"",
        "0|a.js:1:1\n|",
    ),
    (
        "lookup m.map 1 1",
        &[(
            "m.map",
            r#"{"version":3,"sources":["a.ts"],"sourcesContent":["let 😀x"],"mappings":"AAAM"}"#,
        )],
        b"",
        "0|a.ts:1:7\nlet 😀x\n     ^\n|",
    ),
    (
        "lookup m.map 1 1",
        &[(
            "m.map",
            r#"{"version":3,"sources":["a.ts"],"sourcesContent":["let 😀x"],"mappings":"AAAQ"}"#,
        )],
        b"",
        "0|a.ts:1:9\n|",
    ),
    (
        "lookup m.map 1 1",
        &[(
            "m.map",
            r#"{"version":3,"sources":[null],"mappings":"AAAA"}"#,
        )],
        b"",
        "0|[0]:1:1\n|",
    ),
    (
        "lookup m.map 1 1",
        &[(
            "m.map",
            r#"{"version":3,"sources":["a.js"],"names":["f"],"ignoreList":[0],"mappings":"AAAAA"}"#,
        )],
        b"",
        "0|a.js:1:1 name f ignored\n|",
    ),
    (
        "lookup m.map 1 1",
        &[(
            "m.map",
            r#"{"version":3,"sources":["a.js"],"x_google_ignoreList":[0],"mappings":"AAAA"}"#,
        )],
        b"",
        "0|a.js:1:1 ignored\n|",
    ),
    (
        "lookup m.map 1 1",
        &[(
            "m.map",
            r#"{"version":3,"sources":["a.js"],"x_google_ignoreList":[0],"ignoreList":[],"mappings":"AAAA"}"#,
        )],
        b"",
        "0|a.js:1:1\n|",
    ),
    (
        "lookup m.map 1 1",
        &[(
            "m.map",
            r#"{"version":3,"sources":["a.js"],"x_google_ignoreList":[0],"ignoreList":null,"mappings":"AAAA"}"#,
        )],
        b"",
        "0|a.js:1:1 ignored\n|",
    ),
    (
        "lookup --base https://ex.test/js/app.js m.map 1 1",
        &[(
            "m.map",
            r#"{"version":3,"sourceRoot":"src","sources":["a.ts"],"mappings":"AAAA"}"#,
        )],
        b"",
        "0|https://ex.test/js/src/a.ts:1:1\n|",
    ),
    (
        "lookup m.map 1 1",
        &[(
            "m.map",
            r#"{"version":3,"sourceRoot":"src","sources":["a.ts"],"mappings":"AAAA"}"#,
        )],
        b"",
        "0|src/a.ts:1:1\n|",
    ),
    (
        "lookup m.map 3 11",
        &[(
            "m.map",
            r#"{"version":3,"sections":[{"offset":{"line":2,"column":10},"map":{"sources":["a.js"],"mappings":"AAAA;AAAA"}}]}"#,
        )],
        b"",
        "0|a.js:1:1\n|",
    ),
    (
        "lookup m.map 4 1",
        &[(
            "m.map",
            r#"{"version":3,"sections":[{"offset":{"line":2,"column":10},"map":{"sources":["a.js"],"mappings":"AAAA;AAAA"}}]}"#,
        )],
        b"",
        "0|a.js:1:1\n|",
    ),
    (
        "lookup m.map 3 10",
        &[(
            "m.map",
            r#"{"version":3,"sections":[{"offset":{"line":2,"column":10},"map":{"sources":["a.js"],"mappings":"AAAA;AAAA"}}]}"#,
        )],
        b"",
        "0|none\n|",
    ),
    (
        "lookup m.map 1 1",
        &[(
            "m.map",
            r#"{"version":3,"sections":[{"offset":{"line":2,"column":10},"map":{"sources":["a.js"],"mappings":"AAAA;AAAA"}}]}"#,
        )],
        b"",
        "0|none\n|",
    ),
];
