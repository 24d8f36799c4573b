//! A line that is put after others that wait to be written.
ghost use Rattle.std.specs.Prelude.{◌≡◌, [], OnOk};
ghost use Rattle.smap_printing.specs.Private.GatheredLine.{Gathers};

use crate::output::Output;
use crate::short_text::{ShortPiece, ShortText};
use itoa::Buffer;
use smap_io::{ByteSink, DeviceFault};
use smap_lines::LineOutput;

/// A line that is put after the bytes that wait, or several, or what of them could be put until a write failed. It takes no
/// memory. The pieces are joined in a short text first, since each call of the output asks for room.
#[derive(Drop)]
pub struct GatheredLine<'l, 'o, W: ByteSink> {
    pub output: &'l mut LineOutput<'o, W>,
    pub text: ShortText,
    pub done: Result<(), DeviceFault>,
}

impl<W: ByteSink> Output for GatheredLine<'_, '_, W> {
    ghost use Rattle.smap_printing.specs.Private.GatheredLine.{gathers_both, gathers_none};

    ghost Puts = { λ old new bytes. Gathers W.seen old new bytes };

    #[inline(always)]
    fn put(&mut self, bytes: &[u8]) {
        if !self.text.add(bytes) {
            self.put_long(bytes);
        }
    }

    #[inline(always)]
    fn put_decimal(&mut self, number: u64) {
        if !self.text.add_number(number) {
            let mut digits = Buffer::new();
            self.put_long(digits.format(number).as_bytes());
        }
    }

    #[inline(always)]
    fn put_piece(&mut self, piece: &ShortPiece) {
        if !self.text.add_piece(piece) {
            self.put_long(piece.bytes());
        }
    }

    ghost puts_none = { λ line. gathers_none W.seen line };

    ghost puts_both = { λ old mid new first second. gathers_both W.seen old mid new first second };
}

impl<W: ByteSink> GatheredLine<'_, '_, W> {
    // Puts bytes for which the short text has no room. It seldom happens, so it stands out of line.
    #[inline(never)]
    fn put_long(&mut self, bytes: &[u8])
        ensures { Gathers W.seen self.old self.new bytes.now }
    {
        self.hand_on();
        if self.done.is_ok() {
            self.done = self.output.put(bytes);
        }
    }

    /// Puts the short text after the bytes that wait, unless a write failed before.
    pub fn hand_on(&mut self)
        ensures same { Gathers W.seen self.old self.new [] }
        ensures empty { OnOk self.new.done (self.new.text ≡ []) }
    {
        if self.done.is_ok() {
            self.done = self.output.put(self.text.bytes());
            self.text.clear();
        }
    }
}
