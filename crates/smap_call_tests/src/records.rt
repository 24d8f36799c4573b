//! Maps that are written of the lists that they hold.
use crate::same::assert_same;
use smap_record::{SourceEntry, SourceName, write_record};
use std::alloc::{AllocError, Global};
use std::test::Fail;

// A source: its name and whether that is a URL, its content, and whether it is ignored.
type Source = (Option<(&'static str, bool)>, Option<&'static str>, bool);

// The sources, the names, the file and the mappings text, and what is written.
type Row = (
    &'static [Source],
    &'static [&'static str],
    Option<&'static str>,
    &'static str,
    &'static str,
);

const ROWS: &[Row] = &[
    (
        &[],
        &[],
        None,
        "",
        r#"{"mappings":"","names":[],"sources":[],"version":3}"#,
    ),
    (
        &[
            (Some(("a.ts", false)), Some("x"), true),
            (None, None, false),
            (Some(("https://ex.test/b.ts", true)), None, true),
        ],
        &["f", "g"],
        Some("o.js"),
        "AAAAA,ECAAC",
        r#"{"file":"o.js","ignoreList":[0,2],"mappings":"AAAAA,ECAAC","names":["f","g"],"sources":["a.ts",null,"https://ex.test/b.ts"],"sourcesContent":["x",null,null],"version":3}"#,
    ),
    // The text is written as it is handed in, canonical or not.
    (
        &[(None, Some(""), false)],
        &[],
        Some(""),
        "gA;;,",
        r#"{"file":"","mappings":"gA;;,","names":[],"sources":[null],"sourcesContent":[""],"version":3}"#,
    ),
];

fn source_of(alloc: Global, source: &Source) -> Result<SourceEntry, AllocError> {
    let (name, content, ignored) = *source;
    let name = match name {
        Some((name, true)) => Some(SourceName::Resolved(String::from_str(alloc, name)?)),
        Some((name, false)) => Some(SourceName::Kept(String::from_str(alloc, name)?)),
        None => None,
    };
    let content = match content {
        Some(content) => Some(String::from_str(alloc, content)?),
        None => None,
    };
    Ok(SourceEntry {
        name,
        content,
        ignored,
    })
}

fn written(alloc: Global, row: &Row) -> Result<String, AllocError> {
    let (sources, names, file, mappings, _) = *row;
    let mut entries = Vec::new(alloc);
    for source in sources {
        entries.push(source_of(alloc, source)?)?;
    }
    let mut texts = Vec::new(alloc);
    for name in names {
        texts.push(String::from_str(alloc, name)?)?;
    }
    let bytes = write_record(alloc, &entries, &texts, file, mappings)?;
    String::from_utf8_lossy(alloc, &bytes)
}

#[test]
fn lists_are_written_as_one_map(rt: HostRuntime) -> Result<(), Fail> {
    for row in ROWS {
        assert_same(&rt, row.3, &written(rt.alloc(), row)?, row.4);
    }
    Ok(())
}
