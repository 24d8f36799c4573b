//! Commands over a reader and a writer of which each call breaks off in turn.
use crate::broken::{Break, left_broken};
use crate::same::assert_same;
use std::alloc::{AllocError, Global};
use std::process::Abort;
use std::test::Fail;

const BREAKS: &[Break] = &[Break::Interrupted, Break::Failed];

const FILES: &[(&str, &str)] = &[
    (
        "m.map",
        r#"{"version":3,"sources":["a.ts"],"mappings":"AAAA,CAAC"}"#,
    ),
    (
        "o.map",
        r#"{"version":3,"sources":["mid.js"],"mappings":"AAAA,KAAK"}"#,
    ),
    (
        "i.map",
        r#"{"version":3,"sources":["a.ts"],"mappings":"AAAA,GACI"}"#,
    ),
];

// A run: the command line, standard input, whether it is read, how many bytes a call moves, and what is written.
#[derive(Clone, Copy)]
struct Run {
    words: &'static [&'static str],
    input: &'static str,
    is_read: bool,
    piece: usize,
    written: &'static str,
}

const REWRITE: &[&str] = &["rewrite", "https://ex.test/app.js=m.map"];

// The commands that write once they have read all.
const ANSWERS: &[Run] = &[
    Run {
        words: &["raw", "1", "6"],
        input: "AAAA,CAAC;AACA",
        is_read: true,
        piece: 7,
        written: "source 0 line 1 column 2\n",
    },
    Run {
        words: &["check", "m.map"],
        input: "",
        is_read: false,
        piece: 7,
        written: "ok sections 1 sources 1 names 0 segments 2 lines 1 checkpoints 1\n",
    },
    Run {
        words: &["lookup", "m.map", "1", "6"],
        input: "",
        is_read: false,
        piece: 7,
        written: "a.ts:1:2\n",
    },
    Run {
        words: &["show", "m.map"],
        input: "",
        is_read: false,
        piece: 7,
        written: "{\"mappings\":\"AAAA,CAAC\",\"names\":[],\"sources\":[\"a.ts\"],\"version\":3}\n",
    },
    Run {
        words: &["compose", "o.map", "0", "i.map"],
        input: "",
        is_read: false,
        piece: 7,
        written: "{\"mappings\":\"ACAA,KACI\",\"names\":[],\"sources\":[\"mid.js\",\"a.ts\"],\"version\":3}\n",
    },
];

// Traces of a line without an LF, of one with CR and LF, and of two lines. Each line is written before more is read, so no
// write goes over the end of one: of two lines, a write takes a third of one.
const TRACES: &[Run] = &[
    Run {
        words: REWRITE,
        input: "    at f (https://ex.test/app.js:1:6)",
        is_read: true,
        piece: 10,
        written: "    at f (https://ex.test/a.ts:1:2)",
    },
    Run {
        words: REWRITE,
        input: "    at async https://ex.test/app.js:1:1\r\n",
        is_read: true,
        piece: 10,
        written: "    at async https://ex.test/a.ts:1:1\r\n",
    },
    Run {
        words: REWRITE,
        input: "    at f (https://ex.test/app.js:1:6)\n    at f (https://ex.test/app.js:1:6)\n",
        is_read: true,
        piece: 12,
        written: "    at f (https://ex.test/a.ts:1:2)\n    at f (https://ex.test/a.ts:1:2)\n",
    },
];

// What a run leaves of which a read or a write breaks off, from 1, or none at 0.
fn left(alloc: Global, run: &Run, breaks_at: (u64, u64), how: Break) -> Result<String, AllocError> {
    let pieces = (run.piece, run.piece);
    left_broken(
        alloc,
        FILES,
        run.words,
        run.input.as_bytes(),
        pieces,
        breaks_at,
        how,
    )
}

// How many bytes of these calls moved before this one.
fn moved_before(run: &Run, call: u64, all: usize) -> usize {
    (call.saturating_sub(1) as usize)
        .saturating_mul(run.piece)
        .min(all)
}

// How many calls move so many bytes.
fn calls_for(run: &Run, bytes: usize) -> u64 {
    bytes.div_ceil(run.piece.max(1)) as u64
}

// Write `call` breaks off, from 1: what was taken before stands there, and no more.
fn assert_unwritten(
    rt: &impl Abort,
    alloc: Global,
    run: &Run,
    call: u64,
    how: Break,
    reported: &str,
) -> Result<(), AllocError> {
    let taken = moved_before(run, call, run.written.len());
    let front = run.written.get(..taken).unwrap_or("?");
    let wanted = format!(in alloc; "3|{front}|device: {reported}\n")?;
    assert_same(rt, front, &left(alloc, run, (0, call), how)?, &wanted);
    Ok(())
}

// Each write of a run breaks off, and the flush behind the last; no call follows the flush.
fn assert_writes(
    rt: &impl Abort,
    alloc: Global,
    run: &Run,
    reported: &str,
) -> Result<(), AllocError> {
    let writes = calls_for(run, run.written.len());
    for how in BREAKS {
        for call in 1..=writes {
            assert_unwritten(rt, alloc, run, call, *how, reported)?;
        }
        assert_unwritten(rt, alloc, run, writes.saturating_add(1), *how, "write")?;
        assert_whole(rt, alloc, run, (0, writes.saturating_add(2)), *how)?;
    }
    for call in 1..=writes {
        assert_unwritten(rt, alloc, run, call, Break::Empty, reported)?;
    }
    Ok(())
}

// No call of a run is the one that would break off.
fn assert_whole(
    rt: &impl Abort,
    alloc: Global,
    run: &Run,
    breaks_at: (u64, u64),
    how: Break,
) -> Result<(), AllocError> {
    let wanted = format!(in alloc; "0|{}|", run.written)?;
    assert_same(rt, run.written, &left(alloc, run, breaks_at, how)?, &wanted);
    Ok(())
}

#[test]
fn each_write_may_break_off(rt: HostRuntime) -> Result<(), Fail> {
    for run in ANSWERS {
        assert_writes(&rt, rt.alloc(), run, "write")?;
    }
    for run in TRACES {
        assert_writes(&rt, rt.alloc(), run, "X2 Write")?;
    }
    Ok(())
}

// What the whole lines become of so many bytes of a text. Only of a trace is something written before its end.
fn whole_lines(run: &Run, read: usize) -> &'static str {
    let lines = run
        .input
        .bytes()
        .take(read)
        .filter(|byte| *byte == b'\n')
        .count();
    let mut taken = 0usize;
    for line in run.written.split_inclusive('\n').take(lines) {
        taken = taken.saturating_add(line.len());
    }
    run.written.get(..taken).unwrap_or("?")
}

// Each read of a run breaks off, also the one that finds the end: what the lines become that came whole was written, and no
// more. No read follows that one; and none is made where the input is not read.
fn assert_reads(
    rt: &impl Abort,
    alloc: Global,
    run: &Run,
    reported: &str,
) -> Result<(), AllocError> {
    let reads = calls_for(run, run.input.len()).saturating_add(u64::from(run.is_read));
    for how in BREAKS {
        for call in 1..=reads {
            let front = whole_lines(run, moved_before(run, call, run.input.len()));
            let wanted = format!(in alloc; "3|{front}|device: {reported}\n")?;
            assert_same(rt, run.input, &left(alloc, run, (call, 0), *how)?, &wanted);
        }
        assert_whole(rt, alloc, run, (reads.saturating_add(1), 0), *how)?;
    }
    Ok(())
}

#[test]
fn each_read_may_break_off(rt: HostRuntime) -> Result<(), Fail> {
    for run in ANSWERS {
        assert_reads(&rt, rt.alloc(), run, "read standard input")?;
    }
    for run in TRACES {
        assert_reads(&rt, rt.alloc(), run, "X1 Read")?;
    }
    Ok(())
}
