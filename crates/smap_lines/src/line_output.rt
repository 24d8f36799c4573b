//! An output that lines are put into.
ghost use Rattle.std.specs.Prelude.{◌≡◌, ◌++◌, [], true, map, OnErr, OnOk};
ghost use Rattle.std.specs.List.{concat};
ghost use Rattle.smap_io.specs.Device.{Takes, TakesFront};
ghost use Rattle.smap_lines.specs.LineOutput.{IsPut, IsSameOutput};
ghost use Rattle.smap_lines.specs.Lines.{end_in};

use crate::bytes::end_of_line;
use crate::gathered::Gathered;
use smap_io::{ByteSink, DeviceFault};

/// An output that lines are put into: its sink, and the bytes that wait to be written. To put bytes takes no memory. Where
/// they don't fit, the sink takes those first that wait; and where a write fails, it took a front of all of them.
#[derive(Drop)]
pub struct LineOutput<'o, W: ByteSink> {
    pub gathered: &'o mut Gathered,
    pub sink: &'o mut W,
}

impl<W: ByteSink> LineOutput<'_, W> {
    /// Puts bytes after those that wait.
    #[inline(always)]
    pub fn put(&mut self, bytes: &[u8]) -> Result<(), DeviceFault>
        ensures { IsPut W.seen self.old self.new bytes.now result }
    {
        self.gathered.put(bytes, self.sink)
    }

    /// Puts a line after the bytes that wait, with an LF where it has one.
    pub fn put_line(&mut self, line: &[u8], is_ended: bool) -> Result<(), DeviceFault>
        ensures { IsPut W.seen self.old self.new (line.now ++ end_in is_ended) result }
    {
        self.put(line)?;
        self.put(end_of_line(is_ended))
    }

    /// Puts pieces after the bytes that wait, one after another.
    #[inline(always)]
    pub fn put_all(&mut self, pieces: &[&[u8]]) -> Result<(), DeviceFault>
        ensures { IsPut W.seen self.old self.new
            (concat (map (λ piece. piece.now) pieces.now)) result }
    {
        for piece in pieces {
            self.put(piece)?;
        }
        Ok(())
    }

    /// Writes the bytes that wait.
    pub fn write(&mut self) -> Result<(), DeviceFault>
        ensures same { IsSameOutput self.old self.new }
        ensures none { OnOk result (self.new.gathered.now ≡ []) }
        ensures written { OnOk result (Takes (W.seen self.old.sink.now).taken
            (W.seen self.new.sink.now).taken self.old.gathered.now) }
        ensures no_failure { OnOk result
            ((W.seen self.new.sink.now).failed ≡ (W.seen self.old.sink.now).failed) }

        ensures front { OnErr result (TakesFront (W.seen self.old.sink.now).taken
            (W.seen self.new.sink.now).taken self.old.gathered.now) }
        ensures failure { OnErr result ((W.seen self.new.sink.now).failed ≡ true) }
    {
        self.gathered.write(self.sink)
    }
}
