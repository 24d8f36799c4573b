//! The line that is not yet ended.
ghost use Rattle.std.specs.Prelude.{◌≡◌, ◌<◌, ◌≤◌, ◌+◌, ◌++◌, [], false, true, length, not, IfOk, OnOk};
ghost use Rattle.smap_lines.specs.LineOutput.{IsOnePut, IsPut};
ghost use Rattle.smap_lines.specs.Lines.{has_line_end};
ghost use Rattle.smap_lines.specs.Limits.{most_line_bytes};
ghost use Rattle.smap_lines.specs.Private.OpenLine.{AfterEnded, AfterLast, EndedText, LastText, continued};
ghost use Rattle.smap_lines.specs.Private.OpenLine.{continued_text, is_kept, last_counts, nothing_open};

use crate::counts::LineCounts;
use crate::editor::LineEditor;
use crate::line_output::LineOutput;
use smap_io::{ByteSink, DeviceFault};
use std::alloc::{AllocError, Global};
use std::marker::Model;

/// How many bytes a line has at most that is edited, its LF aside.
pub const MOST_LINE_BYTES: usize = 65536;

/// Its bytes so far, of which there are at most 65,536; or that it is longer and passes through. Its room is made once.
#[derive(Drop)]
pub struct OpenLine {
    kept: Vec<u8>,
    is_passing: bool,
}

impl Model for OpenLine {
    ghost use Rattle.std.specs.Prelude.{◌≡◌, ◌≤◌, [], false, true, length, vec_capacity};
    ghost use Rattle.smap_lines.specs.Lines.{has_line_end};
    ghost use Rattle.smap_lines.specs.Limits.{most_line_bytes};
    ghost use Rattle.smap_lines.specs.Private.OpenLine.{OpenState};

    ghost Value = { OpenState };

    ghost view = { λ line. record { kept = line.kept.items; is_passing = line.is_passing } };

    ghost invariant = { λ line. (length line.kept.items ≤ most_line_bytes)
        × (most_line_bytes ≤ vec_capacity line.kept) × (has_line_end line.kept.items ≡ false)
        × (line.is_passing ≡ true → line.kept.items ≡ []) };
}

impl OpenLine {
    /// Room for a line, of which nothing has come.
    pub fn new(alloc: Global) -> Result<OpenLine, AllocError>
        ensures { IfOk result (λ line. line ≡ nothing_open) }
    {
        Ok(OpenLine {
            kept: Vec::with_capacity(alloc, MOST_LINE_BYTES)?,
            is_passing: false,
        })
    }

    /// Hands the line on, to which these bytes and an LF belong too: edited, or as it is where it is too long; and says
    /// whether it is.
    pub fn end<E: LineEditor, W: ByteSink>(
        &mut self,
        bytes: &[u8],
        editor: &mut E,
        output: &mut LineOutput<'_, W>,
    ) -> Result<bool, DeviceFault>
        requires one { has_line_end bytes.now ≡ false }
        requires room { 0 < E.room editor.old }
        ensures long { IfOk result (λ is_long. is_long ≡ not (is_kept self.old bytes.now)) }
        ensures put { IsOnePut W.seen output.old output.new
            (EndedText (E.Becomes editor.old) self.old bytes.now)
            (λ text. AfterEnded E.Steps editor.old self.old bytes.now text editor.new) result }
        ensures reaches { E.Reaches editor.old editor.new }
        ensures none { OnOk result (self.new ≡ nothing_open) }
    {
        if !self.fits(bytes) {
            self.pass(bytes, output)?;
            output.put(b"\n")?;
            self.is_passing = false;
            return Ok(true);
        }
        if self.kept.is_empty() {
            editor.edit(bytes, true, output)?;
            return Ok(false);
        }
        self.keep(bytes);
        editor.edit(&self.kept, true, output)?;
        self.kept.clear();
        Ok(false)
    }

    /// Takes bytes of the line that don't end it: they are kept, or handed on where the line is too long.
    pub fn go_on<W: ByteSink>(
        &mut self,
        bytes: &[u8],
        output: &mut LineOutput<'_, W>,
    ) -> Result<(), DeviceFault>
        requires { has_line_end bytes.now ≡ false }
        ensures put { IsPut W.seen output.old output.new
            (continued_text self.old bytes.now) result }
        ensures begun { OnOk result (self.new ≡ continued self.old bytes.now) }
    {
        if !self.fits(bytes) {
            return self.pass(bytes, output);
        }
        self.keep(bytes);
        Ok(())
    }

    /// Hands on the line that the text ends in, where there is one; and counts it.
    pub fn finish<E: LineEditor, W: ByteSink>(
        &mut self,
        editor: &mut E,
        output: &mut LineOutput<'_, W>,
    ) -> Result<LineCounts, DeviceFault>
        requires { 0 < E.room editor.old }
        ensures counts { IfOk result (λ counts. counts ≡ last_counts self.old) }
        ensures put { IsOnePut W.seen output.old output.new
            (LastText (E.Becomes editor.old) self.old)
            (λ text. AfterLast E.Steps editor.old self.old text editor.new) result }
        ensures reaches { E.Reaches editor.old editor.new }
    {
        if self.kept.is_empty() {
            let passing = u64::from(self.is_passing);
            return Ok(LineCounts {
                lines: passing,
                long: passing,
            });
        }
        editor.edit(&self.kept, false, output)?;
        Ok(LineCounts { lines: 1, long: 0 })
    }

    // Whether the line with these bytes too is short enough to be edited.
    fn fits(&self, bytes: &[u8]) -> bool
        ensures fits { result ≡ is_kept self.now bytes.now }
        ensures one { has_line_end self.now.kept ≡ false }
    {
        !self.is_passing && bytes.len() <= MOST_LINE_BYTES - self.kept.len()
    }

    // Keeps bytes that fit.
    fn keep(&mut self, bytes: &[u8])
        requires one { has_line_end bytes.now ≡ false }
        requires fits { is_kept self.old bytes.now ≡ true }
        ensures { self.new ≡ record { kept = self.old.kept ++ bytes.now; is_passing = false } }
    {
        if self.kept.extend_from_slice(bytes).is_err() {
            unreachable!("what fits takes no memory");
        }
    }

    // Hands on what is kept, and these bytes, as they are.
    fn pass<W: ByteSink>(
        &mut self,
        bytes: &[u8],
        output: &mut LineOutput<'_, W>,
    ) -> Result<(), DeviceFault>
        ensures put { IsPut W.seen output.old output.new (self.old.kept ++ bytes.now) result }
        ensures begun { OnOk result (self.new ≡ record { kept = []; is_passing = true }) }
    {
        output.put(&self.kept)?;
        self.kept.clear();
        self.is_passing = true;
        output.put(bytes)
    }
}
