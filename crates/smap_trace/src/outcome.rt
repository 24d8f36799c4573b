//! What rewriting a trace comes to.

use crate::text_note::TextNote;

/// What was in a trace that was rewritten.
#[derive(Clone, Copy, Debug, PartialEq, Eq)]
pub struct Summary {
    /// How many lines it had: those that an LF ends, and a rest that is not empty.
    pub lines: u64,
    /// How many of them were frames.
    pub frames: u64,
    /// How many frames were replaced.
    pub mapped: u64,
    /// How many frames were hidden: their lines were dropped.
    pub hidden: u64,
}

/// The same, where more is counted.
#[derive(Clone, Copy)]
pub struct RewriteCounts {
    /// What was in the trace.
    pub summary: Summary,
    /// How many of its lines have more than 65,536 bytes, the LF aside, and so are no frames.
    pub long: u64,
    /// How many places were passed over, in lines of up to 65,536 bytes that are no frames, or whose frames have a URL
    /// without a map and the places another; where they are counted, and as far as they are.
    pub passed: u64,
    /// What is noted of it as a text, where that is asked.
    pub text: TextNote,
}

/// Why the rewriting of a trace ended before its end: X1 a read failed, X2 a write failed, X3 the trace has more bytes than
/// are taken, or X4 there was not enough memory.
pub use smap_lines::LineFault as RewriteFault;
