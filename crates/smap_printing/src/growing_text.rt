//! A text that grows as it is put.
ghost use Rattle.std.specs.Prelude.{◌≡◌, [], IfOk, is_ok, true};

use crate::output::Output;
use crate::short_text::ShortPiece;
use itoa::Buffer;
use std::alloc::{AllocError, Global};

/// A text that grows until memory runs out.
#[derive(Drop)]
pub struct GrowingText {
    bytes: Vec<u8>,
    done: Result<(), AllocError>,
}

impl Output for GrowingText {
    ghost use Rattle.smap_printing.specs.Private.GrowingText.{Grows, grows_both, grows_none};

    ghost Puts = { Grows };

    #[inline(always)]
    fn put(&mut self, bytes: &[u8]) {
        if self.done.is_ok() {
            self.done = self.bytes.extend_from_slice(bytes);
        }
    }

    fn put_decimal(&mut self, number: u64) {
        let mut digits = Buffer::new();
        self.put(digits.format(number).as_bytes());
    }

    fn put_piece(&mut self, piece: &ShortPiece) {
        self.put(piece.bytes());
    }

    ghost puts_none = { grows_none };

    ghost puts_both = { grows_both };
}

impl GrowingText {
    /// No text yet.
    pub fn new(alloc: Global) -> GrowingText
        ensures { result.bytes.items ≡ [] }
    {
        GrowingText {
            bytes: Vec::new(alloc),
            done: Ok(()),
        }
    }

    /// The whole text, if memory did not run out.
    pub fn text(self) -> Result<Vec<u8>, AllocError>
        ensures { IfOk result (λ text. (is_ok self.done ≡ true) × (text.items ≡ self.bytes.items)) }
    {
        self.done?;
        Ok(self.bytes)
    }
}
