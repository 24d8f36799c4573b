//! Where an answer is put, piece by piece.
ghost use Rattle.std.specs.Prelude.{◌++◌, [], ℕ, List, decimal};

use crate::short_text::ShortPiece;

/// An output that takes pieces. It keeps its first failure, and takes nothing from then on: whoever made it asks at the end
/// what became of it.
pub trait Output {
    // These bytes were put after those before.
    ghost Puts: { (old new : Self) → List ℕ → Type 0 };

    fn put(&mut self, bytes: &[u8])
        ensures { Puts self.old self.new bytes.now };

    /// Puts the digits of a number.
    fn put_decimal(&mut self, number: u64)
        ensures { Puts self.old self.new (decimal number) };

    /// Puts a piece of fixed size.
    fn put_piece(&mut self, piece: &ShortPiece)
        ensures { Puts self.old self.new piece.now };

    // An output that stays as it is takes nothing.
    ghost puts_none: { (output : Self) → Puts output output [] };

    // Two pieces, one after the other, are one.
    ghost puts_both: { (old mid new : Self) (first second : List ℕ)
        → Puts old mid first → Puts mid new second → Puts old new (first ++ second) };
}

/// Puts a number behind what stands before it.
#[inline(always)]
pub fn put_number<O: Output>(front: &[u8], number: u64, output: &mut O)
    ensures { O.Puts output.old output.new (front.now ++ decimal number) }
{
    output.put(front);
    output.put_decimal(number);
}
