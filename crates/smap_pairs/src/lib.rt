//! What stands in a line of any text: escapes and colours, which count as what they mean; the strings and the lines in them,
//! each of which may be read as a line by itself; pairs of a line and a column, each with the piece of the line before it;
//! where in that a URL may begin; and, over URLs that are known, the places of the line.
//!
//! ```text
//! let mut places = LinePlaces::with_room(alloc, 65536)?;
//! places.find(&known, line)?;
//! for place in places.places() {
//!     let url = &line[place.start..place.url_end];
//! }
//! ```
#![tactic(auto)]

mod absolute;
mod bare;
mod before;
mod behind;
mod brackets;
mod bytes;
mod chunk;
mod colours;
mod escapes;
mod file_path;
mod frame_url;
mod halved;
mod known;
pub mod laws;
mod line_places;
mod line_seen;
mod marks;
mod named;
mod numbers;
mod pair_at;
mod pairs;
mod path;
mod path_start;
mod root;
mod seen;
mod settled;
mod signs;
mod token;
mod virtual_lines;
mod whole_frame;
mod word;

pub use behind::{Behind, each_query_is_noted, lowest};
pub use bytes::{is_control, is_edge_byte, is_letter_or_digit};
pub use chunk::{Chunk, first_chunk, staying_bytes};
pub use file_path::paths_of_files_are_plain;
pub use frame_url::is_for_pattern;
pub use known::{KnownUrls, NamedBy};
pub use line_places::{LinePlaces, Span};
pub use marks::{Mark, marks_into};
pub use numbers::numbers_after;
pub use pairs::{Pair, pairs_in_line};
pub use seen::{NOTHING, SeenByte, see_into};
pub use virtual_lines::{VirtualLine, line_of_byte, lines_of_strings_into, virtual_lines_into};
pub use word::begin_by_word;
