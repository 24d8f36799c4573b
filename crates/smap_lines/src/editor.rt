//! What becomes of a line.
ghost use Rattle.std.specs.Prelude.{◌≡◌, ◌+◌, ◌<◌, ◌≤◌, ℕ, List, false, length};
ghost use Rattle.smap_lines.specs.LineOutput.{IsOnePut};
ghost use Rattle.smap_lines.specs.Limits.{most_line_bytes};
ghost use Rattle.smap_lines.specs.Lines.{Line, has_line_end};

use crate::line_output::LineOutput;
use smap_io::{ByteSink, DeviceFault};

/// What becomes of the lines of a text, each by itself: one of the texts that it may become, where it may become several,
/// as where a file that is read for it can give other bytes when it is read again.
pub trait LineEditor {
    // The texts that a line may become, now or after other lines.
    ghost Becomes: { Self → Line → (text : List ℕ) → Type 0 };

    // What a line became, and how the editor stands after it, which may have counted it, say.
    ghost Steps: { Self → Line → (text : List ℕ) → Self → Type 0 };

    // How the editor may stand later, whether or not a write failed.
    ghost Reaches: { Self → (later : Self) → Type 0 };

    // How many lines it can take at least.
    ghost room: { Self → ℕ };

    /// Puts one of the texts that a line may become, which comes without its LF, into the output; and learns
    /// whether an LF ends it.
    fn edit<W: ByteSink>(
        &mut self,
        line: &[u8],
        is_ended: bool,
        output: &mut LineOutput<'_, W>,
    ) -> Result<(), DeviceFault>
        requires one { has_line_end line.now ≡ false }
        requires short { length line.now ≤ most_line_bytes }
        requires room { 0 < room self.old }

        ensures put { IsOnePut W.seen output.old output.new
            (Becomes self.old (record { bytes = line.now; is_ended = is_ended }))
            (λ text.
            Steps self.old (record { bytes = line.now; is_ended = is_ended }) text self.new)
            result }
        ensures reaches { Reaches self.old self.new };

    // Each line may become some text.
    ghost some: { (editor : Self) (line : Line) → (text : List ℕ) × Becomes editor line text };

    // A line became what it may.
    ghost became: { (editor after : Self) (line : Line) (text : List ℕ) →
        Steps editor line text after → Becomes editor line text };

    // What a line may become after another one, it may become before it.
    ghost same: { (editor after : Self) (line other : Line) (text later : List ℕ) →
        Steps editor line text after → Becomes after other later → Becomes editor other later };

    // The editor may stand as it does, and so on from there.
    ghost stays: { (editor : Self) → Reaches editor editor };

    ghost goes_on: { (editor mid later : Self) → Reaches editor mid → Reaches mid later →
        Reaches editor later };

    // A line takes room for one.
    ghost room_for_one: { (editor after : Self) (line : Line) (text : List ℕ) →
        Steps editor line text after → room editor ≤ room after + 1 };
}
