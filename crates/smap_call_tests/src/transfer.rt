//! Bytes read and written whole, in pieces, up to a limit and over devices that fail.
use crate::same::assert_same;
use smap_io::{MemorySink, MemorySource, read_all, write_all};
use std::alloc::{AllocError, Global};
use std::test::Fail;

// The bytes that are read, or `!` where a read failed, and a blank.
fn all_text(alloc: Global, source: &mut MemorySource, most: usize) -> Result<String, AllocError> {
    match read_all(alloc, source, most) {
        Ok(bytes) => {
            let bytes = String::from_utf8_lossy(alloc, &bytes)?;
            [bytes.as_str(), " "].concat(alloc)
        }
        Err(_) => String::from_str(alloc, "! "),
    }
}

// What `read_all` gives with each of these limits in turn, of a source that gives three bytes a call: the bytes, or
// `!` where a read failed.
fn read_in_turn(
    alloc: Global,
    bytes: &str,
    fails_at: u64,
    limits: &[usize],
) -> Result<String, AllocError> {
    let mut source = MemorySource::new(bytes.as_bytes().to_vec(alloc)?, 3, fails_at);
    let mut text = String::new(alloc);
    for most in limits {
        text.push_str(&all_text(alloc, &mut source, *most)?)?;
    }
    Ok(text)
}

// The bytes, the call that fails, the limits, and what comes.
const READS: &[(&str, u64, &[usize], &str)] = &[
    ("", 0, &[10], " "),
    ("abcdefg", 0, &[9], "abcdefg "),
    // What is past a limit is left for the next.
    ("abcdefg", 3, &[5, 0, 9, 9], "abcde  ! fg "),
    // The fourth call is the one that finds the end.
    ("abcdefg", 1, &[9], "! "),
    ("abcdefg", 2, &[9], "! "),
    ("abcdefg", 3, &[9], "! "),
    ("abcdefg", 4, &[9], "! "),
];

#[test]
fn bytes_are_read_up_to_a_limit(rt: HostRuntime) -> Result<(), Fail> {
    for (bytes, fails_at, limits, wanted) in READS {
        let read = read_in_turn(rt.alloc(), bytes, *fails_at, limits)?;
        assert_same(&rt, bytes, &read, wanted);
    }
    Ok(())
}

const LINE: &str = "source 0 line 1 column 1\n";

// What a sink of this room holds after `write_all` of a line, with `!` where a write failed.
fn written(alloc: Global, room: usize, piece: usize, fails_at: u64) -> Result<String, AllocError> {
    if piece == 0 {
        return String::from_str(alloc, "a sink that takes nothing");
    }
    let mut sink = MemorySink::new(Vec::with_capacity(alloc, room)?, piece, fails_at);
    let fault = match write_all(&mut sink, LINE.as_bytes()) {
        Ok(()) => "",
        Err(_) => "!",
    };
    let taken = String::from_utf8_lossy(alloc, sink.bytes())?;
    format!(in alloc; "{taken}{fault}")
}

// The room, the piece, the call that fails, and what is left.
const WRITES: &[(usize, usize, u64, &str)] = &[
    (50, 1, 0, "source 0 line 1 column 1\n"),
    (50, 7, 0, "source 0 line 1 column 1\n"),
    (25, 8_192, 0, "source 0 line 1 column 1\n"),
    (10, 4, 0, "source 0 l!"),
    (50, 10, 1, "!"),
    (50, 10, 2, "source 0 l!"),
    (50, 10, 3, "source 0 line 1 colu!"),
    // The last write is the third, and nothing is flushed.
    (50, 10, 4, "source 0 line 1 column 1\n"),
];

#[test]
fn bytes_are_written_whole_or_as_a_front(rt: HostRuntime) -> Result<(), Fail> {
    for (room, piece, fails_at, wanted) in WRITES {
        assert_same(
            &rt,
            wanted,
            &written(rt.alloc(), *room, *piece, *fails_at)?,
            wanted,
        );
    }
    Ok(())
}
