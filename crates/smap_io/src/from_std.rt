//! Devices over the readers and writers of std.
ghost use Rattle.std.specs.Prelude.{◌≡◌, ◌<◌, ◌≤◌, None, true, false, length, IfOk, OnOk, OnErr};
ghost use Rattle.std.specs.Io.KnownBytes.{Keeps, ReadConsumes, WriteAppends};
ghost use Rattle.smap_io.specs.FromStd.{inner_of, has_failed, is_flushed};

use crate::device::{ByteSink, ByteSource, DeviceFault};
use std::io::{Read, Write};

/// A device over a reader or a writer of std. It asks that one once a call and shows no bytes. Each
/// error is a failure, an interrupted call too, and so is a write that takes nothing of some bytes. A
/// write of no bytes that takes none is no failure.
#[derive(Drop)]
pub struct FromStd<T> {
    inner: T,
    failed: bool,
    // Whether the last write or flush was a flush that is Ok.
    flushed: bool,
}

impl<T> FromStd<T> {
    /// The device over `inner`, which is not asked yet.
    pub fn new(inner: T) -> FromStd<T>
        ensures over { inner_of result ≡ inner }
        ensures healthy { has_failed result ≡ false }
        ensures unflushed { is_flushed result ≡ false }
    {
        FromStd {
            inner,
            failed: false,
            flushed: false,
        }
    }

    // Notes a failure of the inner device.
    fn fail(&mut self) -> DeviceFault
        ensures same { inner_of self.new ≡ inner_of self.old }
        ensures same_flush { is_flushed self.new ≡ is_flushed self.old }
        ensures failure { has_failed self.new ≡ true }
    {
        self.failed = true;
        DeviceFault
    }
}

impl<R: Read> ByteSource for FromStd<R> {
    ghost seen = { λ device. record { left = None; failed = has_failed device } };

    fn read(&mut self, room: &mut [u8]) -> Result<usize, DeviceFault>
        ensures fits { IfOk result (λ n. n ≤ length room.new) }
        ensures no_failure { OnOk result (has_failed self.new ≡ has_failed self.old) }
        ensures failure { OnErr result (has_failed self.new ≡ true) }

        // Where the reader shows its bytes, they are what passed.
        ensures hands_on { ReadConsumes
            (R.remaining (inner_of self.old)) (R.remaining (inner_of self.new)) result room.new }
    {
        match self.inner.read(room) {
            Ok(count) => Ok(count),
            Err(_) => Err(self.fail()),
        }
    }

    fn failed(&self) -> bool {
        self.failed
    }
}

impl<W: Write> ByteSink for FromStd<W> {
    ghost seen = { λ device. record { taken = None; flushed = is_flushed device; failed = has_failed device } };

    fn write(&mut self, bytes: &[u8]) -> Result<usize, DeviceFault>
        ensures cleared { is_flushed self.new ≡ false }

        ensures fits { IfOk result (λ n. n ≤ length bytes.now) }
        ensures some { IfOk result (λ n. 0 < length bytes.now → 0 < n) }
        ensures no_failure { OnOk result (has_failed self.new ≡ has_failed self.old) }
        ensures failure { OnErr result (has_failed self.new ≡ true) }

        // Where the writer shows its bytes, they are what passed.
        ensures hands_on { WriteAppends
            (W.contents (inner_of self.old)) (W.contents (inner_of self.new)) result bytes.now }
    {
        self.flushed = false;
        match self.inner.write(bytes) {
            Ok(count) if count > 0 || bytes.is_empty() => Ok(count),
            _ => Err(self.fail()),
        }
    }

    fn flush(&mut self) -> Result<(), DeviceFault>
        ensures no_failure { OnOk result (has_failed self.new ≡ has_failed self.old) }
        ensures flushed { OnOk result (is_flushed self.new ≡ true) }

        ensures failure { OnErr result (has_failed self.new ≡ true) }
        ensures unflushed { OnErr result (is_flushed self.new ≡ false) }

        // Where the writer shows its bytes, they stay.
        ensures hands_on { Keeps
            (W.contents (inner_of self.old)) (W.contents (inner_of self.new)) }
    {
        self.flushed = self.inner.flush().is_ok();
        if self.flushed {
            Ok(())
        } else {
            Err(self.fail())
        }
    }

    fn failed(&self) -> bool {
        self.failed
    }
}
