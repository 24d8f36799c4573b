//! Frames with the written names of their functions.
use crate::same::assert_holds;
use smap_declarations::Declarations;
use smap_io::{MemorySink, MemorySource};
use smap_record::MapFile;
use smap_trace::{
    Beside, Hiding, NamedTable, NoPlaces, Table, TraceOptions, UrlDeclarations, UrlNotes,
    rewrite_over,
};
use std::alloc::Global;
use std::process::Abort;
use std::test::Fail;

const GENERATED: &str = "function a(){throw 1}";

const MAP: &str = r#"{"version":3,"sources":["s.ts"],"names":["main"],"mappings":"SAAAA,IAAI"}"#;

// Frames of the program, and what each becomes.
const FRAMES: &[(&str, &str)] = &[
    ("    at a (/u:1:14)\n", "    at main (s.ts:1:5)\n"),
    (
        "    at async a (/u:1:14)\n",
        "    at async main (s.ts:1:5)\n",
    ),
    (
        "    at new a (/u:1:14)\r\n",
        "    at new main (s.ts:1:5)\r\n",
    ),
    ("a@/u:1:14\n", "main@s.ts:1:5\n"),
    // Not one name.
    ("    at T.a (/u:1:14)\n", "    at T.a (s.ts:1:5)\n"),
    (
        "    at a [as b] (/u:1:14)\n",
        "    at a [as b] (s.ts:1:5)\n",
    ),
    ("async a@/u:1:14\n", "async a@s.ts:1:5\n"),
    ("a/<@/u:1:14\n", "a/<@s.ts:1:5\n"),
    // No name at all.
    ("    at /u:1:14\n", "    at s.ts:1:5\n"),
    ("@/u:1:14\n", "@s.ts:1:5\n"),
    // Another name, of which nothing is known.
    ("    at b (/u:1:14)\n", "    at b (s.ts:1:5)\n"),
    // A place without an original.
    ("    at a (/u:1:2)\n", "    at a (/u:1:2)\n"),
    // A URL without a map.
    ("    at a (/v:1:14)\n", "    at a (/v:1:14)\n"),
    // No frame.
    ("a (/u:1:14)\n", "a (/u:1:14)\n"),
];

// A call by itself: where an assertion fails in it, nothing is to be dropped.
fn becomes(
    rt: &impl Abort,
    alloc: Global,
    maps: &mut NamedTable<'_>,
    frame: &str,
    wanted: &str,
) -> Result<(), Fail> {
    let mut input = MemorySource::new(Vec::from_slice(alloc, frame.as_bytes())?, 8, 0);
    let mut output = MemorySink::new(Vec::with_capacity(alloc, 100)?, 8, 0);
    let options = TraceOptions::of_frames(Hiding::only_ignored(false), 1_000);
    let mut notes = UrlNotes::new(alloc);
    let mut beside = Beside {
        notes: &mut notes,
        places: &mut NoPlaces,
    };
    let counts = rewrite_over(alloc, &mut input, &mut output, maps, &options, &mut beside);
    assert_holds(rt, frame, counts.is_ok());
    assert_holds(rt, frame, output.bytes() == wanted.as_bytes());
    Ok(())
}

#[test]
fn frames_have_the_written_names_of_their_functions(rt: HostRuntime) -> Result<(), Fail> {
    let map = MapFile::read(rt.alloc(), MAP.as_bytes(), None, 64)?;
    let declarations = Declarations::of_text(rt.alloc(), GENERATED, &map)?;
    let mut table = Table::new(rt.alloc());
    let url = String::from_str(rt.alloc(), "/u")?;
    assert_holds(&rt, "added", table.add(url, map).is_ok());
    let mut declared = UrlDeclarations::new(rt.alloc());
    declared.add(Vec::from_slice(rt.alloc(), b"/u")?, declarations)?;
    let mut maps = NamedTable {
        table: &table,
        declared: &declared,
    };
    for (frame, wanted) in FRAMES {
        becomes(&rt, rt.alloc(), &mut maps, frame, wanted)?;
    }
    Ok(())
}
