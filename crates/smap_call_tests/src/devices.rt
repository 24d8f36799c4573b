//! Devices: what each call of one comes to, and when it says that it has failed.
ghost use Rattle.std.specs.Prelude.{◌≤◌};

use crate::same::{assert_holds, assert_same};
use smap_io::{ByteSink, ByteSource, DeviceFault, FromStd, MemorySink, MemorySource};
use std::alloc::{AllocError, Global};
use std::io;
use std::test::Fail;

// A call that moved so many bytes, or `!` for one that failed, and `*` where the device says that one has.
fn push_call(
    trace: &mut String,
    alloc: Global,
    count: Result<usize, DeviceFault>,
    failed: bool,
) -> Result<(), AllocError> {
    match count {
        Ok(count) => trace.push_str(&format!(in alloc; "{count}")?)?,
        Err(DeviceFault) => trace.push('!')?,
    }
    trace.push_str(if failed { "* " } else { " " })
}

// Four reads into a room of three bytes, each with what stands in the room then.
fn reads<R: ByteSource>(alloc: Global, source: &mut R) -> Result<String, AllocError> {
    let mut trace = String::new(alloc);
    let mut room = [b'.'; 3];
    for _ in 0..4 {
        let count = source.read(&mut room);
        trace.push_str(&String::from_utf8_lossy(alloc, &room)?)?;
        push_call(&mut trace, alloc, count, source.failed())?;
    }
    Ok(trace)
}

// A write of each of these words, which have a blank between two, and a flush for each `=`.
fn writes<W: ByteSink>(alloc: Global, sink: &mut W, words: &str) -> Result<String, AllocError> {
    let mut trace = String::new(alloc);
    for word in words.split(' ') {
        let count = if word == "=" {
            match sink.flush() {
                Ok(()) => Ok(0),
                Err(fault) => Err(fault),
            }
        } else {
            sink.write(word.as_bytes())
        };
        push_call(&mut trace, alloc, count, sink.failed())?;
    }
    Ok(trace)
}

// A reader and writer of std that moves up to two bytes a call, breaks off at one call, and counts the calls. As a
// writer it holds four bytes, and then takes none.
#[derive(Drop)]
struct Scripted {
    bytes: Vec<u8>,
    calls: u32,
    interrupted_at: u32,
}

impl Scripted {
    fn is_interrupted(&mut self) -> bool {
        self.calls = self.calls.saturating_add(1);
        self.calls == self.interrupted_at
    }
}

impl io::Read for Scripted {
    fn read(&mut self, room: &mut [u8]) -> io::Result<usize> {
        if self.is_interrupted() {
            return Err(io::Error::from(io::ErrorKind::Interrupted));
        }
        let count = room.len().min(self.bytes.len()).min(2);
        room[..count].copy_from_slice(&self.bytes[..count]);
        self.bytes.drain(..count);
        Ok(count)
    }
}

impl io::Write for Scripted {
    fn write(&mut self, bytes: &[u8]) -> io::Result<usize> {
        if self.is_interrupted() {
            return Err(io::Error::from(io::ErrorKind::Interrupted));
        }
        let spare = 4usize.saturating_sub(self.bytes.len());
        let count = bytes.len().min(spare).min(2);
        self.bytes.extend_from_slice(&bytes[..count])?;
        Ok(count)
    }

    fn flush(&mut self) -> io::Result<()> {
        if self.is_interrupted() {
            return Err(io::Error::from(io::ErrorKind::Interrupted));
        }
        Ok(())
    }
}

#[test]
fn a_reader_is_asked_once_a_call(rt: HostRuntime) -> Result<(), Fail> {
    let mut reader = Scripted {
        bytes: b"abc".to_vec(rt.alloc())?,
        calls: 0,
        interrupted_at: 2,
    };
    let trace = reads(rt.alloc(), &mut FromStd::new(&mut reader))?;
    assert_same(&rt, "a reader", &trace, "ab.2 ab.!* cb.1* cb.0* ");
    assert_holds(&rt, "four calls", reader.calls == 4);
    Ok(())
}

// What the calls come to for a writer that holds these bytes before, and how many there were.
fn writes_to_std(
    alloc: Global,
    before: &[u8],
    interrupted_at: u32,
    words: &str,
) -> Result<String, AllocError> {
    let mut writer = Scripted {
        bytes: before.to_vec(alloc)?,
        calls: 0,
        interrupted_at,
    };
    let mut trace = writes(alloc, &mut FromStd::new(&mut writer), words)?;
    let calls = writer.calls;
    trace.push_str(&format!(in alloc; "{calls}")?)?;
    Ok(trace)
}

#[test]
fn a_writer_is_asked_once_a_call(rt: HostRuntime) -> Result<(), Fail> {
    let trace = writes_to_std(rt.alloc(), b"", 3, "abc = cde cde")?;
    assert_same(&rt, "a writer", &trace, "2 0 !* 2* 4");
    let trace = writes_to_std(rt.alloc(), b"full", 0, " e")?;
    assert_same(&rt, "a full writer", &trace, "0 !* 2");
    let trace = writes_to_std(rt.alloc(), b"", 1, "=")?;
    assert_same(&rt, "an interrupted flush", &trace, "!* 1");
    Ok(())
}

// A source of `abcd` that gives three bytes a call and fails at the second.
#[test]
fn a_source_gives_pieces_and_fails_once(rt: HostRuntime) -> Result<(), Fail> {
    let mut source = MemorySource::new(b"abcd".to_vec(rt.alloc())?, 3, 2);
    let trace = reads(rt.alloc(), &mut source)?;
    assert_same(&rt, "a source", &trace, "abc3 abc!* dbc1* dbc0* ");
    Ok(())
}

// What the calls come to, and what the sink holds then.
fn writes_to_memory(
    alloc: Global,
    room: usize,
    piece: usize,
    fails_at: u64,
    words: &str,
) -> Result<String, AllocError>
    requires { 1 ≤ piece }
{
    let mut sink = MemorySink::new(Vec::with_capacity(alloc, room)?, piece, fails_at);
    let mut trace = writes(alloc, &mut sink, words)?;
    trace.push_str(&String::from_utf8_lossy(alloc, sink.bytes())?)?;
    Ok(trace)
}

#[test]
fn a_sink_takes_pieces_and_fails_once(rt: HostRuntime) -> Result<(), Fail> {
    let trace = writes_to_memory(rt.alloc(), 8, 1, 2, "ab = b =")?;
    assert_same(&rt, "a sink that fails", &trace, "1 !* 1* 0* ab");
    let trace = writes_to_memory(rt.alloc(), 2, 3, 0, "abc  c")?;
    assert_same(&rt, "a full sink", &trace, "2 0 !* ab");
    Ok(())
}
