//! How a map lies over its generated file: whether it is that of the file, and how much of the file each source makes.
//!
//! A map of another file has mappings past the text, or inside words of it. A character of the file comes from the source
//! that a look-up at the character answers, a line end from none.
//!
//! ```text
//! let fit = fit_of(alloc, &map, generated)?;
//! if !fit.fits() {
//!     // fit.past of them stand past the text, and fit.inside inside a word
//! }
//! // at fit.same of fit.compared original places is what is at the generated place
//! let best = best_shift(alloc, &map, generated)?;
//! // best.misfits do not fit with all moved by best.shift
//! let bytes = bytes_by_source(alloc, &map, generated)?;
//! // bytes.sources[0] + .. + bytes.unmapped is generated.len()
//! ```
#![tactic(auto)]

mod agreement;
mod characters;
mod contents;
mod counts;
mod fit;
mod fresh;
mod line_ends;
mod line_place;
mod original_place;
mod owners;
mod rows;
mod segments;
mod shares;
mod shift;
mod standing;
mod text_lines;
mod text_place;
mod words;

pub use fit::{Fit, fit_of};
pub use rows::{SourceRow, SourceTable, source_table};
pub use segments::segments_by_source;
pub use shares::{BytesBySource, bytes_by_source};
pub use shift::{BestShift, Move, Shift, best_shift};
pub use text_lines::code_of;
