//! Runs over a reader of std without end.
use crate::runs::{MOST_TAKEN, left_text, status_of_words};
use crate::same::assert_same;
use smap_io::{FromStd, MemorySink};
use std::alloc::Global;
use std::io;
use std::process::Abort;
use std::test::Fail;

const FILES: &[(&str, &str)] = &[(
    "m.map",
    r#"{"version":3,"sources":["a.ts"],"mappings":"AAAA,CAAC"}"#,
)];

// The command line, the byte that its standard input is made of, and the status and what is reported.
fn assert_left(
    rt: &impl Abort,
    alloc: Global,
    words: &[&str],
    byte: u8,
    wanted: &str,
) -> Result<(), Fail> {
    let mut errors = MemorySink::new(Vec::with_capacity(alloc, MOST_TAKEN)?, 1, 0);
    let (input, mut output) = (FromStd::new(io::repeat(byte)), FromStd::new(io::sink()));
    let left = match status_of_words(alloc, FILES, words, input, &mut output, &mut errors) {
        Ok(status) => left_text(alloc, status, b"", errors.bytes())?,
        Err(text) => text,
    };
    assert_same(rt, wanted, &left, wanted);
    Ok(())
}

// A line of more than 65,536 bytes passes through; what comes past 1 GiB is too much.
#[test]
fn what_does_not_end_is_too_much(rt: HostRuntime) -> Result<(), Fail> {
    let alloc = rt.alloc();
    let too_long = "1||refused: TextTooLong\n";
    assert_left(&rt, alloc, &["raw", "1", "1"], b';', too_long)?;
    let rewrite = ["rewrite", "https://ex.test/app.js=m.map"];
    let too_much = "1||refused: X3 TooMuch\n";
    assert_left(&rt, alloc, &rewrite, b'a', too_much)
}
