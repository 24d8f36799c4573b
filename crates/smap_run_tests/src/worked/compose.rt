//! Maps that are composed.
use crate::worked::Row;

pub const COMPOSE: &[Row] = &[
    (
        "compose o.map 0 i.map",
        &[
            (
                "o.map",
                r#"{"version":3,"sources":["mid.js"],"mappings":"AAAA,KAAK"}"#,
            ),
            (
                "i.map",
                r#"{"version":3,"sources":["a.ts"],"mappings":"AAAA,GACI"}"#,
            ),
        ],
        b"",
        "0|{\"mappings\":\"ACAA,KACI\",\"names\":[],\"sources\":[\"mid.js\",\"a.ts\"],\"version\":3}\n|",
    ),
    (
        "compose o.map 0 i.map",
        &[
            (
                "o.map",
                r#"{"version":3,"sources":["mid.js"],"mappings":"AAAA,KAAK"}"#,
            ),
            (
                "i.map",
                r#"{"version":3,"sources":["a.ts"],"mappings":"GACI"}"#,
            ),
        ],
        b"",
        "0|{\"mappings\":\"A,KCCI\",\"names\":[],\"sources\":[\"mid.js\",\"a.ts\"],\"version\":3}\n|",
    ),
    (
        "compose o.map 1 i.map",
        &[
            (
                "o.map",
                r#"{"version":3,"sources":["mid.js"],"mappings":"AAAA,KAAK"}"#,
            ),
            (
                "i.map",
                r#"{"version":3,"sources":["a.ts"],"mappings":"AAAA,GACI"}"#,
            ),
        ],
        b"",
        "1||refused: C1 SourceIndex\n",
    ),
    (
        "compose o.map 0 i.map",
        &[
            (
                "o.map",
                r#"{"version":3,"sources":["mid.js"],"names":["g"],"mappings":"AAAAA"}"#,
            ),
            (
                "i.map",
                r#"{"version":3,"sources":["a.ts"],"mappings":"AAAA"}"#,
            ),
        ],
        b"",
        "0|{\"mappings\":\"ACAAA\",\"names\":[\"g\"],\"sources\":[\"mid.js\",\"a.ts\"],\"version\":3}\n|",
    ),
    (
        "compose o.map 0 i.map",
        &[
            (
                "o.map",
                r#"{"version":3,"sources":["mid.js"],"names":["g"],"mappings":"AAAAA"}"#,
            ),
            (
                "i.map",
                r#"{"version":3,"sources":["a.ts"],"names":["f"],"mappings":"AAAAA"}"#,
            ),
        ],
        b"",
        "0|{\"mappings\":\"ACAAC\",\"names\":[\"g\",\"f\"],\"sources\":[\"mid.js\",\"a.ts\"],\"version\":3}\n|",
    ),
    (
        "compose o.map 0 i.map",
        &[
            (
                "o.map",
                r#"{"version":3,"sources":["mid.js"],"names":["g"],"mappings":"AAAAA"}"#,
            ),
            (
                "i.map",
                r#"{"version":3,"sources":["a.ts"],"mappings":";AAAA"}"#,
            ),
        ],
        b"",
        "0|{\"mappings\":\"A\",\"names\":[\"g\"],\"sources\":[\"mid.js\",\"a.ts\"],\"version\":3}\n|",
    ),
    (
        "compose o.map 0 i.map",
        &[
            (
                "o.map",
                r#"{"version":3,"sections":[{"offset":{"line":67108864,"column":0},"map":{"sources":["a.js"],"mappings":"A"}}]}"#,
            ),
            (
                "i.map",
                r#"{"version":3,"sources":["a.ts"],"mappings":"AAAA,GACI"}"#,
            ),
        ],
        b"",
        "1||refused: C2 TooLarge\n",
    ),
    (
        "compose o.map 1 i.map",
        &[
            (
                "o.map",
                r#"{"mappings":"ACAA,KACI","names":[],"sources":["mid.js","a.ts"],"version":3}"#,
            ),
            (
                "i.map",
                r#"{"version":3,"sources":["t.ts"],"mappings":"AAAA;CAAC"}"#,
            ),
        ],
        b"",
        "0|{\"mappings\":\"AEAA,KAAC\",\"names\":[],\"sources\":[\"mid.js\",\"a.ts\",\"t.ts\"],\"version\":3}\n|",
    ),
    (
        "compose o.map 0 i.map",
        &[
            (
                "o.map",
                r#"{"version":3,"sources":["a.ts"],"mappings":"AAAA,GACI"}"#,
            ),
            (
                "i.map",
                r#"{"version":3,"sources":["t.ts"],"mappings":"AAAA;CAAC"}"#,
            ),
        ],
        b"",
        "0|{\"mappings\":\"ACAA,GAAC\",\"names\":[],\"sources\":[\"a.ts\",\"t.ts\"],\"version\":3}\n|",
    ),
    (
        "compose o.map 0 i.map",
        &[
            (
                "o.map",
                r#"{"version":3,"sources":["mid.js"],"mappings":"AAAA,KAAK"}"#,
            ),
            (
                "i.map",
                r#"{"mappings":"ACAA,GAAC","names":[],"sources":["a.ts","t.ts"],"version":3}"#,
            ),
        ],
        b"",
        "0|{\"mappings\":\"AEAA,KAAC\",\"names\":[],\"sources\":[\"mid.js\",\"a.ts\",\"t.ts\"],\"version\":3}\n|",
    ),
];
