//! The part of a text that is held while it is read.
ghost use Rattle.std.specs.Prelude.{◌≡◌, ◌<◌, ◌≤◌, [], true, drop, length, IfOk, OnErr, OnOk};
ghost use Rattle.std.specs.Io.KnownBytes.{IsAtEnd};
ghost use Rattle.smap_anywhere.specs.Private.Window.{ReadInto};

use smap_io::{ByteSource, DeviceFault};
use std::alloc::{AllocError, Global};
use std::marker::Model;

/// Bytes of a text, one after another: the first `len` of a room that is made once, so that to read more takes no memory.
#[derive(Drop)]
pub struct Window {
    room: Vec<u8>,
    len: usize,
}

impl Model for Window {
    ghost use Rattle.std.specs.Prelude.{◌≤◌, length, take};
    ghost use Rattle.smap_anywhere.specs.Private.Window.{WindowState};

    ghost Value = { WindowState };

    ghost view = { λ window. record { bytes = take window.len window.room.items; size = length window.room.items } };

    ghost invariant = { λ window. window.len ≤ length window.room.items };
}

impl Window {
    /// Room for so many bytes, of which none is there.
    pub fn new(alloc: Global, size: usize) -> Result<Window, AllocError>
        ensures { IfOk result (λ window. window ≡ record { bytes = []; size = size }) }
    {
        Ok(Window {
            room: vec![in alloc; 0; size]?,
            len: 0,
        })
    }

    /// The bytes that are there.
    pub fn bytes(&self) -> &[u8]
        ensures { result.now ≡ self.now.bytes }
    {
        &self.room[..self.len]
    }

    /// Reads bytes behind those that are there, as many as an input gives at once, and counts them. Where it counts none,
    /// the input is at its end.
    pub fn read<R: ByteSource>(&mut self, input: &mut R) -> Result<usize, DeviceFault>
        requires { length self.old.bytes < self.old.size }
        ensures gives { IfOk result (λ count.
            ReadInto (R.seen input.old).left (R.seen input.new).left self.old self.new count) }
        ensures ends { IfOk result (λ count. count ≡ 0 → IsAtEnd (R.seen input.new).left) }
        ensures no_failure { OnOk result ((R.seen input.new).failed ≡ (R.seen input.old).failed) }

        ensures keeps { OnErr result ((R.seen input.new).left ≡ (R.seen input.old).left) }
        ensures failure { OnErr result ((R.seen input.new).failed ≡ true) }
    {
        let count = input.read(&mut self.room[self.len..])?;
        self.len += count;
        Ok(count)
    }

    /// Lets go of the first bytes, so many.
    pub fn cut(&mut self, count: usize)
        requires { count ≤ length self.old.bytes }
        ensures { self.new ≡ record { bytes = drop count self.old.bytes; size = self.old.size } }
    {
        self.room.copy_within(count..self.len, 0);
        self.len -= count;
    }
}
