//! What is said of a map file, as text and as JSON: how much it holds, why it is refused, and which of its mappings stand
//! nearest to a position.
//!
//! ```text
//! match MapFile::read(alloc, bytes, None, 64) {
//!     Ok(map) => counts_json(alloc, path, map_counts(&map))?,
//!     Err(refusal) => refusal_json(alloc, path, refusal, &explain(alloc, bytes, refusal)?)?,
//! }
//! ```
#![tactic(auto)]

mod as_json;
mod as_text;
mod counts;
mod explained;
mod facts_json;
mod facts_text;
mod measure_text;
mod nearest_lines;
mod segment_lines;

pub use as_json::refusal_json;
pub use as_text::{fault_text, refusal_text};
pub use counts::{MapCounts, counts_json, counts_text, map_counts};
pub use explained::explanation_text;
pub use nearest_lines::nearest_text;
