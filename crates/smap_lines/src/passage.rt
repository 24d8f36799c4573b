//! A text on its way through an editor.
ghost use Rattle.std.specs.Prelude.{◌≡◌, ◌+◌, ◌<◌, ◌≤◌, ◌^◌, ℕ, List, Option, [], true, length, OnErr, OnOk};
ghost use Rattle.smap_lines.specs.LineOutput.{IsSameOutput};
ghost use Rattle.smap_lines.specs.Private.Passage.{IsThrough, TakesEditedFront};

use crate::bytes::cut_at_line_end;
use crate::counts::LineCounts;
use crate::editor::LineEditor;
use crate::line_output::LineOutput;
use crate::open_line::OpenLine;
use smap_io::{ByteSink, DeviceFault};

/// Puts bytes that were read through the editor, and writes what waits then; `counts` counts the lines that end in them.
pub fn edit_bytes<E: LineEditor, W: ByteSink>(
    bytes: &[u8],
    line: &mut OpenLine,
    counts: &mut LineCounts,
    editor: &mut E,
    output: &mut LineOutput<'_, W>,
) -> Result<(), DeviceFault>
    requires countable { counts.old.lines + length bytes.now < 2 ^ 64 }
    requires few { counts.old.long ≤ counts.old.lines }
    requires room { length bytes.now ≤ E.room editor.old }
    ensures through { OnOk result ((first : _) (before : Option (List ℕ)) (text : List ℕ) →
        IsThrough E.Becomes E.Steps E.room first before text (record {
          editor = editor.old;
          taken = (W.seen output.old.sink.now).taken;
          waiting = output.old.gathered.now;
          state = line.old;
          counts = counts.old;
        }) bytes.now →
        IsThrough E.Becomes E.Steps E.room first before text (record {
          editor = editor.new;
          taken = (W.seen output.new.sink.now).taken;
          waiting = output.new.gathered.now;
          state = line.new;
          counts = counts.new;
        }) []) }
    ensures same { IsSameOutput output.old output.new }
    ensures reaches { E.Reaches editor.old editor.new }
    ensures none { OnOk result (output.new.gathered.now ≡ []) }
    ensures no_failure { OnOk result
        ((W.seen output.new.sink.now).failed ≡ (W.seen output.old.sink.now).failed) }

    ensures front { OnErr result ((first : _) (before : Option (List ℕ)) (text : List ℕ) →
        IsThrough E.Becomes E.Steps E.room first before text (record {
          editor = editor.old;
          taken = (W.seen output.old.sink.now).taken;
          waiting = output.old.gathered.now;
          state = line.old;
          counts = counts.old;
        }) bytes.now →
        TakesEditedFront (E.Becomes first) before (W.seen output.new.sink.now).taken text) }
    ensures failure { OnErr result ((W.seen output.new.sink.now).failed ≡ true) }
{
    let mut rest = bytes;
    while let Some((ended, after)) = cut_at_line_end(rest) {
        let is_long = line.end(ended, editor, output)?;
        counts.lines += 1;
        counts.long += u64::from(is_long);
        rest = after;
    }
    line.go_on(rest, output)?;
    output.write()
}
