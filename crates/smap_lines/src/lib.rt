//! A text turned into another one line by line, while it is read: what becomes of a line is a [`LineEditor`]'s affair,
//! and everything else stands here. Lines are cut after each LF. A line of more than 65,536 bytes, its LF aside, stays
//! as it is. What became of each line that was read has been written before more is read, so a text may be piped through.
//! Beside that stands what all read who edit lines: blanks, and the lines and columns that a line of text prints.
//!
//! ```text
//! let mut editor = Editor::new();
//! let counts = edit_lines(alloc, &mut input, &mut output, &mut editor, MOST_TEXT_BYTES)?;
//! ```
#![tactic(auto)]

mod bytes;
mod counts;
mod editing;
mod editor;
mod fault;
mod gathered;
pub mod laws;
mod line_output;
mod numbers;
mod open_line;
mod passage;

pub use bytes::{blanks, end_of_line, has_control};
pub use counts::LineCounts;
pub use editing::{MOST_TEXT_BYTES, edit_lines};
pub use editor::LineEditor;
pub use fault::LineFault;
pub use gathered::Gathered;
pub use line_output::LineOutput;
pub use numbers::{digits, number};
pub use open_line::MOST_LINE_BYTES;
