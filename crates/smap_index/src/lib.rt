//! An index over the parts of a source map: it keeps the packed texts and a table of checkpoints, and answers
//! look-ups from them. Lines and columns count from 0, columns in UTF-16 code units.
//!
//! ```text
//! let index = Index::build(alloc, parts, 64)?;
//! match index.look_up(line, column, &mut meter) {
//!     Answer::Found { column, origin } => ..,
//!     Answer::Unmapped { column } => ..,
//!     Answer::Nothing => ..,
//! }
//! let next = index.look_up_from(line, column, &mut meter);
//! let about = index.neighbours(line, column, &mut meter);
//! ```
#![tactic(auto)]

mod answer;
mod bound;
mod checkpoint;
mod checkpoints;
mod encode;
mod index;
mod interval;
mod joined;
pub mod laws;
mod line_starts;
mod mark;
mod marked;
mod order;
mod part;
mod placed;
mod refusal;
mod resume;
mod search;
mod stretch;
mod totals;

pub use answer::{Answer, Neighbours};
pub use index::Index;
pub use interval::MOST_INTERVAL;
pub use joined::JoinedMappings;
pub use line_starts::LineStarts;
pub use marked::{MarkedText, TextMarks};
pub use part::Part;
pub use refusal::{BuildRefusal, EncodeAllRefusal};
