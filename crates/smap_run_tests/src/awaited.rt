//! That nothing waits to be written while more of a trace is awaited.
use crate::runs::{MOST_TAKEN, status_of_words};
use crate::same::assert_holds;
use smap_io::{FromStd, MemorySink};
use std::alloc::{AllocError, Global};
use std::cell::Cell;
use std::io;
use std::test::Fail;

// The pieces that the reads give, each after how many bytes were written before that read.
const PIECES: &[(usize, &str)] = &[
    (0, "    at f (https://ex.test/app.js:1:6)\n    at f (https"),
    (36, "://ex.test/app.js:1:6)"),
    (36, "\n"),
    (72, "x\ny"),
    (74, "z\n\n"),
    (78, "at https://ex.test/app.js:1:6"),
    (78, ""),
];

// A reader of the pieces that notes whether each was asked for when so much was written.
#[derive(Drop)]
struct Asked<'a> {
    written: &'a Cell<usize>,
    asked: usize,
    late: &'a Cell<usize>,
}

impl io::Read for Asked<'_> {
    fn read(&mut self, room: &mut [u8]) -> io::Result<usize> {
        let Some((written, piece)) = PIECES.get(self.asked) else {
            return Ok(0);
        };
        self.asked = self.asked.saturating_add(1);
        if self.written.get() != *written {
            self.late.set(self.asked);
        }
        let count = piece.len().min(room.len());
        room[..count].copy_from_slice(&piece.as_bytes()[..count]);
        Ok(count)
    }
}

// A writer that counts what it takes, which is ten bytes at most at a call.
#[derive(Drop)]
struct Counted<'a> {
    written: &'a Cell<usize>,
}

impl io::Write for Counted<'_> {
    fn write(&mut self, bytes: &[u8]) -> io::Result<usize> {
        let count = bytes.len().min(10);
        self.written.set(self.written.get().saturating_add(count));
        Ok(count)
    }

    fn flush(&mut self) -> io::Result<()> {
        Ok(())
    }
}

const FILES: &[(&str, &str)] = &[(
    "m.map",
    r#"{"version":3,"sources":["a.ts"],"mappings":"AAAA,CAAC"}"#,
)];

// The status of a command line over the pieces, or 2, with what was written, and the last read before which something
// waited.
fn status_over_pieces(
    alloc: Global,
    words: &[&str],
    written: &Cell<usize>,
    late: &Cell<usize>,
) -> Result<u8, AllocError> {
    let mut errors = MemorySink::new(Vec::with_capacity(alloc, MOST_TAKEN)?, 1, 0);
    let input = FromStd::new(Asked {
        written,
        asked: 0,
        late,
    });
    let mut output = FromStd::new(Counted { written });
    let status = status_of_words(alloc, FILES, words, input, &mut output, &mut errors);
    Ok(status.unwrap_or(2))
}

#[test]
fn nothing_waits_while_more_is_awaited(rt: HostRuntime) -> Result<(), Fail> {
    let words = ["rewrite", "https://ex.test/app.js=m.map"];
    let (written, late) = (Cell::new(0), Cell::new(0));
    let status = status_over_pieces(rt.alloc(), &words, &written, &late)?;
    assert_holds(&rt, "the status is 0", status == 0);
    assert_holds(&rt, "nothing waited before a read", late.get() == 0);
    assert_holds(&rt, "all was written", written.get() == 105);
    Ok(())
}
