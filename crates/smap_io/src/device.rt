//! What a device is: a source or a sink of bytes that says what it moved, and whether it failed.
ghost use Rattle.std.specs.Prelude.{◌≡◌, ◌<◌, ◌≤◌, true, false, length, take, IfOk, OnOk, OnErr};
ghost use Rattle.std.specs.Io.KnownBytes.{IsAtEnd};
ghost use Rattle.smap_io.specs.Device.{Gives, SinkSeen, SourceSeen, Takes};

/// That a call failed. Which call, and why, is the device's own affair.
#[derive(Clone, Copy, Debug, PartialEq, Eq)]
pub struct DeviceFault;

/// Where bytes come from.
pub trait ByteSource {
    // What a contract sees of it: the bytes that reads will give from here on, where it shows them, and whether a call
    // has failed.
    ghost seen: { Self → SourceSeen };

    /// Fills the front of `room` and counts the bytes. A count of 0 for a room that is not empty is the
    /// end. A fault leaves the bytes of the device as they were. Those of `room` after the count, and
    /// all of them after a fault, are whatever the device left there.
    fn read(&mut self, room: &mut [u8]) -> Result<usize, DeviceFault>
        ensures fits { IfOk result (λ n. n ≤ length room.new) }
        ensures gives { IfOk result (λ n. Gives (seen self.old).left (seen self.new).left
            (take n room.new)) }
        ensures ends { IfOk result (λ n. n ≡ 0 → 0 < length room.new
            → IsAtEnd (seen self.new).left) }
        ensures no_failure { OnOk result ((seen self.new).failed ≡ (seen self.old).failed) }

        ensures keeps { OnErr result ((seen self.new).left ≡ (seen self.old).left) }
        ensures failure { OnErr result ((seen self.new).failed ≡ true) };

    /// Whether a call has ever failed.
    fn failed(&self) -> bool
        ensures { result ≡ (seen self.now).failed };
}

/// Where bytes go.
pub trait ByteSink {
    // What a contract sees of it: the bytes that writes have brought so far, where it shows them, whether it was flushed
    // after its last byte, which the last write or flush decides, and whether a call has failed.
    ghost seen: { Self → SinkSeen };

    /// Takes the front of `bytes` and counts what it took, which is at least one byte where there are
    /// any. The device may hold it back until a flush. A fault leaves the device with what it held.
    fn write(&mut self, bytes: &[u8]) -> Result<usize, DeviceFault>
        ensures cleared { (seen self.new).flushed ≡ false }

        ensures fits { IfOk result (λ n. n ≤ length bytes.now) }
        ensures takes { IfOk result (λ n. Takes (seen self.old).taken (seen self.new).taken
            (take n bytes.now)) }
        ensures some { IfOk result (λ n. 0 < length bytes.now → 0 < n) }
        ensures no_failure { OnOk result ((seen self.new).failed ≡ (seen self.old).failed) }

        ensures keeps { OnErr result ((seen self.new).taken ≡ (seen self.old).taken) }
        ensures failure { OnErr result ((seen self.new).failed ≡ true) };

    /// Hands on what the device may hold back. It brings no byte, also where it fails.
    fn flush(&mut self) -> Result<(), DeviceFault>
        ensures keeps { (seen self.new).taken ≡ (seen self.old).taken }

        ensures no_failure { OnOk result ((seen self.new).failed ≡ (seen self.old).failed) }
        ensures flushed { OnOk result ((seen self.new).flushed ≡ true) }

        ensures failure { OnErr result ((seen self.new).failed ≡ true) }
        ensures unflushed { OnErr result ((seen self.new).flushed ≡ false) };

    /// Whether a call has ever failed.
    fn failed(&self) -> bool
        ensures { result ≡ (seen self.now).failed };
}
