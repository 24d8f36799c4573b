//! Places in a text as ECMAScript counts them: lines by its line ends, columns in UTF-16 code units; an excerpt that shows
//! such a place; the lines from one on, and how much is shown of a line; and how a text of the user's prints.
//!
//! ```
//! let line = line_at(content, 3)?;
//! match unit_place(line, 5) {
//!     Place::At(byte) => {}
//!     Place::Inside(byte) => {}
//!     Place::Past(units) => {}
//! }
//! let marked = excerpt(alloc, content, 3, 5)?;
//! let rest = rest_from(content, 12)?;
//! print(shown(alloc, "a\nb.map")?); // a?b.map
//! ```
#![tactic(auto)]

mod code_units;
mod excerpts;
mod lines;
mod place;
mod texts;

pub use code_units::units;
pub use excerpts::excerpt;
pub use lines::{line_at, rest_from, split_line};
pub use place::{Place, unit_place};
pub use texts::{shown, shown_byte, shown_bytes};
