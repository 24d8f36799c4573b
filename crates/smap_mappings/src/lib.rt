//! The `mappings` text of a source map (ECMA-426): checked once, and then read segment by segment where it stands.
//!
//! ```
//! let packed = PackedText::check(text, sources, names)?;
//! let mut meter = Meter::new(alloc);
//! let mut state = packed.start();
//! while let Some((mapping, after)) = packed.next(&state, &mut meter) {
//!     // a mapping of line, column and origin
//!     state = after;
//! }
//! ```
#![tactic(auto)]

mod advance;
mod base64;
mod canonical;
mod check;
mod copied;
mod cursor;
mod fault;
mod faulty;
mod kind;
mod last_values;
pub mod laws;
mod limits;
mod line_walk;
mod mapping;
mod measures;
mod meter;
mod next;
mod packed_text;
mod position;
mod segment;
mod spelling;
mod state;
mod step;
mod straight;
mod sums;
mod text_check;
mod text_length;
mod text_writer;
mod vlq;
mod walk;

pub use base64::digit;
pub use canonical::{EncodeRefusal, encode};
pub use cursor::Cursor;
pub use fault::{Fault, FaultKind};
pub use faulty::{FaultySegment, faulty_segment};
pub use kind::Kind;
pub use limits::{LIMIT, MOST_DIGITS, MOST_INDICES, MOST_MAPPINGS_BYTES};
pub use line_walk::LineWalk;
pub use mapping::{Mapping, Origin};
pub use measures::{first_bad_digit, large_magnitude, long_number_digits, segment_numbers};
pub use meter::Meter;
pub use packed_text::{PackedText, TextRefusal};
pub use position::Position;
pub use state::State;
pub use sums::RunningSums;
pub use text_check::TextCheck;
pub use text_length::TextLength;
pub use text_writer::TextWriter;
pub use vlq::{VlqFault, read_vlq, write_vlq};
