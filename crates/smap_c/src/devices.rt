//! Devices in memory, for a text that is rewritten.
ghost use Rattle.std.specs.Prelude.{◌≡◌, ◌<◌, ◌≤◌, [], Some, false, length, nat_lt};

use smap_io::{ByteSink, ByteSource, DeviceFault};
use std::alloc::Global;

/// The bytes of a text that are left to read.
#[derive(Drop)]
pub struct Input<'a> {
    pub left: &'a [u8],
}

impl<'a> ByteSource for Input<'a> {
    ghost seen = { λ input. record { left = Some input.left.now; failed = false } };

    fn read(&mut self, room: &mut [u8]) -> Result<usize, DeviceFault> {
        let count = room.len().min(self.left.len());
        room[..count].copy_from_slice(&self.left[..count]);
        self.left = &self.left[count..];
        Ok(count)
    }

    fn failed(&self) -> bool {
        false
    }
}

/// The bytes that were written, up to a bound and one more, which shows that there are more. Then a write fails, as where
/// memory runs out.
#[derive(Drop)]
pub struct Output {
    pub bytes: Vec<u8>,
    pub most: u64,
    pub failed: bool,
    pub flushed: bool,
}

impl Output {
    /// Nothing was written.
    pub fn new(alloc: Global, most: u64) -> Output
        ensures { (result.bytes.items ≡ []) × (result.failed ≡ false) × (result.most ≡ most) }
    {
        Output {
            bytes: Vec::new(alloc),
            most,
            failed: false,
            flushed: false,
        }
    }

    /// Whether more was to be written than the bound.
    pub fn is_over(&self) -> bool
        ensures { result ≡ nat_lt self.now.most (length self.now.bytes.items) }
    {
        (self.bytes.len() as u64) > self.most
    }

    // How many of so many bytes are taken: up to one more than the bound leaves.
    fn taken_of(&self, count: usize) -> usize
        requires { length self.now.bytes.items ≤ self.now.most }
        ensures fits { result ≤ count }
        ensures some { 0 < count → 0 < result }
    {
        let left = self.most - self.bytes.len() as u64;
        if left < count as u64 {
            left as usize + 1
        } else {
            count
        }
    }
}

impl ByteSink for Output {
    ghost seen = { λ output. record {
      taken = Some output.bytes.items;
      flushed = output.flushed;
      failed = output.failed;
    } };

    fn write(&mut self, bytes: &[u8]) -> Result<usize, DeviceFault> {
        self.flushed = false;
        if self.is_over() {
            self.failed = true;
            return Err(DeviceFault);
        }
        let count = self.taken_of(bytes.len());
        match self.bytes.extend_from_slice(&bytes[..count]) {
            Ok(()) => Ok(count),
            Err(_) => {
                self.failed = true;
                Err(DeviceFault)
            }
        }
    }

    fn flush(&mut self) -> Result<(), DeviceFault> {
        self.flushed = true;
        Ok(())
    }

    fn failed(&self) -> bool {
        self.failed
    }
}
