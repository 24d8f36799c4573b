//! Maps that are shown.
use crate::worked::Row;

pub const SHOW: &[Row] = &[
    (
        "show m.map",
        &[(
            "m.map",
            r#"{"version":3,"sections":[{"offset":{"line":0,"column":0},"map":{"version":3,"sources":["a.js"],"mappings":"AAAA"}},{"offset":{"line":0,"column":10},"map":{"version":3,"sources":["b.js"],"mappings":"AAAA"}}]}"#,
        )],
        b"",
        "0|{\"mappings\":\"AAAA,UCAA\",\"names\":[],\"sources\":[\"a.js\",\"b.js\"],\"version\":3}\n|",
    ),
    (
        "show m.map",
        &[(
            "m.map",
            r#"{"version":3,"sections":[{"offset":{"line":67108864,"column":0},"map":{"sources":[],"mappings":"A"}}]}"#,
        )],
        b"",
        "1||refused: O1 TextTooLong\n",
    ),
    (
        "show m.map",
        &[(
            "m.map",
            r#"{"version":3,"file":"o.js","sources":["a.js",null],"sourcesContent":["x"],"ignoreList":[1,1],"mappings":"gAAAA;;"}"#,
        )],
        b"",
        "0|{\"file\":\"o.js\",\"ignoreList\":[1],\"mappings\":\"AAAA\",\"names\":[],\"sources\":[\"a.js\",null],\"sourcesContent\":[\"x\",null],\"version\":3}\n|",
    ),
];
