//! A reader and a writer of std of which one call breaks off.
ghost use Rattle.std.specs.Prelude.{◌≡◌, IfOk};

use crate::runs::{MOST_TAKEN, left_text, status_of_words};
use smap_io::{FromStd, MemorySink};
use std::alloc::{AllocError, Global};
use std::io;

/// How a call breaks off.
#[derive(Clone, Copy)]
pub enum Break {
    /// It is interrupted.
    Interrupted,
    /// It fails for another reason.
    Failed,
    /// It moves nothing.
    Empty,
}

/// A reader of some bytes, or a writer, and the call that breaks off, from 1, or 0 for none. A flush is a call.
#[derive(Drop)]
struct Broken {
    bytes: Vec<u8>,
    piece: usize,
    breaks_at: u64,
    how: Break,
    calls: u64,
}

impl Broken {
    fn new(bytes: Vec<u8>, piece: usize, breaks_at: u64, how: Break) -> Broken {
        Broken {
            bytes,
            piece,
            breaks_at,
            how,
            calls: 0,
        }
    }

    // Whether this call is the one that breaks off.
    fn is_breaking(&mut self) -> bool {
        self.calls = self.calls.saturating_add(1);
        self.calls == self.breaks_at
    }
}

// What a call comes to that breaks off.
fn broken_off(how: Break) -> io::Result<usize>
    ensures { IfOk result (λ count. count ≡ 0) }
{
    match how {
        Break::Interrupted => Err(io::ErrorKind::Interrupted.into()),
        Break::Failed => Err(io::ErrorKind::Other.into()),
        Break::Empty => Ok(0),
    }
}

impl io::Read for Broken {
    fn read(&mut self, room: &mut [u8]) -> io::Result<usize> {
        if self.is_breaking() {
            return broken_off(self.how);
        }
        let count = room.len().min(self.bytes.len()).min(self.piece);
        room[..count].copy_from_slice(&self.bytes[..count]);
        self.bytes.drain(..count);
        Ok(count)
    }
}

impl io::Write for Broken {
    fn write(&mut self, bytes: &[u8]) -> io::Result<usize> {
        if self.is_breaking() {
            return broken_off(self.how);
        }
        let count = bytes.len().min(self.piece);
        self.bytes.extend_from_slice(&bytes[..count])?;
        Ok(count)
    }

    fn flush(&mut self) -> io::Result<()> {
        if self.is_breaking() {
            broken_off(self.how)?;
        }
        Ok(())
    }
}

/// What a command line leaves over these files and this input, over a reader and a writer that move so many bytes a call
/// each, of which these calls break off.
pub fn left_broken(
    alloc: Global,
    files: &[(&str, &str)],
    words: &[&str],
    input: &[u8],
    pieces: (usize, usize),
    breaks_at: (u64, u64),
    how: Break,
) -> Result<String, AllocError> {
    let mut reader = Broken::new(input.to_vec(alloc)?, pieces.0, breaks_at.0, how);
    let room = Vec::with_capacity(alloc, MOST_TAKEN)?;
    let mut writer = Broken::new(room, pieces.1, breaks_at.1, how);
    left_over(alloc, files, words, &mut reader, &mut writer)
}

// What a command line leaves over this reader and this writer.
fn left_over(
    alloc: Global,
    files: &[(&str, &str)],
    words: &[&str],
    reader: &mut Broken,
    writer: &mut Broken,
) -> Result<String, AllocError> {
    let mut errors = MemorySink::new(Vec::with_capacity(alloc, MOST_TAKEN)?, 8_192, 0);
    let input = FromStd::new(reader);
    let status = {
        let mut output = FromStd::new(&mut *writer);
        status_of_words(alloc, files, words, input, &mut output, &mut errors)
    };
    match status {
        Ok(status) => left_text(alloc, status, &writer.bytes, errors.bytes()),
        Err(text) => Ok(text),
    }
}
