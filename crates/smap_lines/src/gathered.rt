//! Output that is gathered until it is written.
ghost use Rattle.std.specs.Prelude.{◌≡◌, ◌-◌, ◌≤◌, ◌++◌, [], true, length, IfOk, OnErr, OnOk};
ghost use Rattle.smap_io.specs.Device.{Takes, TakesFront};
ghost use Rattle.smap_lines.specs.Gathered.{HandsOn, most_gathered};

use smap_io::{ByteSink, DeviceFault, write_all};
use std::alloc::{AllocError, Global};
use std::marker::Model;

// How many bytes wait at most.
const MOST_GATHERED: usize = 65536;

/// Bytes that wait to be written: the first `len` of a room that is made once, so that to put bytes into it takes no
/// memory.
#[derive(Drop)]
pub struct Gathered {
    room: Vec<u8>,
    len: usize,
}

impl Model for Gathered {
    ghost use Rattle.std.specs.Prelude.{◌≡◌, ℕ, ◌≤◌, List, length, take};
    ghost use Rattle.smap_lines.specs.Gathered.{most_gathered};

    ghost Value = { List ℕ };

    ghost view = { λ gathered. take gathered.len gathered.room.items };

    ghost invariant = { λ gathered.
        (gathered.len ≤ most_gathered) × (length gathered.room.items ≡ most_gathered) };
}

impl Gathered {
    /// Room for bytes, of which none waits yet.
    pub fn new(alloc: Global) -> Result<Gathered, AllocError>
        ensures { IfOk result (λ gathered. gathered ≡ []) }
    {
        Ok(Gathered {
            room: vec![in alloc; 0; MOST_GATHERED]?,
            len: 0,
        })
    }

    /// Puts bytes after those that wait. Where they don't fit, the output takes those first; and where they are more
    /// than ever wait, them too. Where a write fails, it took a front of all of them.
    #[inline(always)]
    pub(crate) fn put<W: ByteSink>(
        &mut self,
        bytes: &[u8],
        output: &mut W,
    ) -> Result<(), DeviceFault>
        ensures put { OnOk result
            (HandsOn (W.seen output.old).taken (W.seen output.new).taken (self.old ++ bytes.now)
            self.new) }
        ensures no_failure { OnOk result ((W.seen output.new).failed ≡ (W.seen output.old).failed) }

        ensures front { OnErr result
            (TakesFront (W.seen output.old).taken (W.seen output.new).taken
            (self.old ++ bytes.now)) }
        ensures failure { OnErr result ((W.seen output.new).failed ≡ true) }
    {
        if bytes.len() > MOST_GATHERED - self.len {
            return self.put_anew(bytes, output);
        }
        self.hold(bytes);
        Ok(())
    }

    // Writes the bytes that wait, and puts these then. It seldom happens, so it stands out of line.
    #[inline(never)]
    fn put_anew<W: ByteSink>(&mut self, bytes: &[u8], output: &mut W) -> Result<(), DeviceFault>
        ensures put { OnOk result
            (HandsOn (W.seen output.old).taken (W.seen output.new).taken (self.old ++ bytes.now)
            self.new) }
        ensures no_failure { OnOk result ((W.seen output.new).failed ≡ (W.seen output.old).failed) }

        ensures front { OnErr result
            (TakesFront (W.seen output.old).taken (W.seen output.new).taken
            (self.old ++ bytes.now)) }
        ensures failure { OnErr result ((W.seen output.new).failed ≡ true) }
    {
        self.write(output)?;
        if bytes.len() > MOST_GATHERED {
            return write_all(output, bytes);
        }
        self.hold(bytes);
        Ok(())
    }

    // Puts bytes that fit after those that wait.
    #[inline(always)]
    fn hold(&mut self, bytes: &[u8])
        requires { length bytes.now ≤ most_gathered - length self.old }
        ensures { self.new ≡ self.old ++ bytes.now }
    {
        let len = self.len;
        self.room[len..len + bytes.len()].copy_from_slice(bytes);
        self.len = len + bytes.len();
    }

    /// Writes the bytes that wait. Where a write fails, the output took a front of them.
    pub(crate) fn write<W: ByteSink>(&mut self, output: &mut W) -> Result<(), DeviceFault>
        ensures none { OnOk result (self.new ≡ []) }
        ensures written { OnOk result (Takes (W.seen output.old).taken (W.seen output.new).taken
            self.old) }
        ensures no_failure { OnOk result ((W.seen output.new).failed ≡ (W.seen output.old).failed) }

        ensures front { OnErr result (TakesFront (W.seen output.old).taken (W.seen output.new).taken
            self.old) }
        ensures failure { OnErr result ((W.seen output.new).failed ≡ true) }
    {
        write_all(output, &self.room[..self.len])?;
        self.len = 0;
        Ok(())
    }
}
