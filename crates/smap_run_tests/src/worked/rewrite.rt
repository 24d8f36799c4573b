//! Traces that are rewritten.
use crate::worked::Row;

pub const REWRITE: &[Row] = &[
    (
        "rewrite https://ex.test/app.js=m.map",
        &[(
            "m.map",
            r#"{"version":3,"sources":["a.ts"],"mappings":"AAAA,CAAC"}"#,
        )],
        b"    at f (https://ex.test/app.js:1:6)",
        "0|    at f (https://ex.test/a.ts:1:2)|",
    ),
    (
        "rewrite https://ex.test/app.js=m.map",
        &[(
            "m.map",
            r#"{"version":3,"sources":["a.ts"],"mappings":"AAAA,CAAC"}"#,
        )],
        b"    at f (https://ex.test/x.js:1:6)",
        "0|    at f (https://ex.test/x.js:1:6)|",
    ),
    (
        "rewrite https://ex.test/app.js=m.map",
        &[(
            "m.map",
            r#"{"version":3,"sources":["a.ts"],"mappings":"AAAA,CAAC"}"#,
        )],
        b"    at https://ex.test/app.js:01:1",
        "0|    at https://ex.test/app.js:01:1|",
    ),
    (
        "rewrite https://ex.test/app.js=m.map",
        &[(
            "m.map",
            r#"{"version":3,"sources":["a.ts"],"mappings":"AAAA,CAAC"}"#,
        )],
        b"    at https://ex.test/app.js:0:1",
        "0|    at https://ex.test/app.js:0:1|",
    ),
    (
        "rewrite https://ex.test/app.js=m.map",
        &[(
            "m.map",
            r#"{"version":3,"sources":["a.ts"],"mappings":"AAAA,CAAC"}"#,
        )],
        b"    at https://ex.test/app.js:2147483649:1",
        "0|    at https://ex.test/app.js:2147483649:1|",
    ),
    (
        "rewrite https://ex.test/app.js=m.map",
        &[(
            "m.map",
            r#"{"version":3,"sources":["a.ts"],"mappings":"AAAA,CAAC"}"#,
        )],
        b"",
        "0||",
    ),
    (
        "rewrite https://ex.test/app.js=m.map",
        &[(
            "m.map",
            r#"{"version":3,"sources":["a.ts"],"mappings":"AAAA,CAAC"}"#,
        )],
        b"    at async https://ex.test/app.js:1:1\x0d\x0a",
        "0|    at async https://ex.test/a.ts:1:1\r\n|",
    ),
    (
        "rewrite https://ex.test/app.js=m.map",
        &[(
            "m.map",
            r#"{"version":3,"sources":["a.ts"],"mappings":"AAAA,CAAC"}"#,
        )],
        b"f@https://ex.test/app.js:1:6",
        "0|f@https://ex.test/a.ts:1:2|",
    ),
    (
        "rewrite https://ex.test/app.js=m.map",
        &[(
            "m.map",
            r#"{"version":3,"sources":["a.ts"],"mappings":"AAAA,CAAC"}"#,
        )],
        b"    at Object.f [as g] (https://ex.test/app.js:1:6)\x0d\x0a",
        "0|    at Object.f [as g] (https://ex.test/a.ts:1:2)\r\n|",
    ),
    (
        "rewrite m.map",
        &[(
            "m.map",
            r#"{"version":3,"sources":["a.ts"],"mappings":"AAAA,CAAC"}"#,
        )],
        b"",
        "2||usage: no URL=FILE: m.map\n",
    ),
    (
        "rewrite =m.map",
        &[(
            "m.map",
            r#"{"version":3,"sources":["a.ts"],"mappings":"AAAA,CAAC"}"#,
        )],
        b"",
        "2||usage: A1 BadUrl: =m.map\n",
    ),
    (
        "rewrite u=m.map u=m.map",
        &[(
            "m.map",
            r#"{"version":3,"sources":["a.ts"],"mappings":"AAAA,CAAC"}"#,
        )],
        b"",
        "2||usage: A2 Twice: u=m.map\n",
    ),
];
