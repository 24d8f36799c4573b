//! Places of a generated program wherever they stand in a text, as `URL:line:column`, and not only in the frames of a stack
//! trace: one whose URL has a map and whose place has an original gets it in its stead, and every other byte stays. Lines
//! and columns count from 1. A text is cut into lines, and long lines into chunks, so they may have any length. A
//! `UrlFinder` finds the places over what looks like a URL one after another, for whoever has maps read once they are named.
//!
//! ```text
//! let urls = MapUrls::new(alloc, &table, &locations)?;
//! let options = PlaceOptions { known: &urls, most_bytes, is_noted: false };
//! let summary = rewrite_anywhere(alloc, &mut input, &mut output, &mut maps, &options, &mut notes)?;
//! ```
#![tactic(auto)]

mod chunk_line;
mod chunk_writer;
mod counting;
mod frame_function;
mod frame_url;
pub mod laws;
mod lengths;
mod line_ends;
mod map_urls;
mod notes;
mod parts_writer;
mod plain_lines;
mod replacement;
mod rewriting;
mod seeming_urls;
mod url_finder;
mod window;

pub use chunk_line::find_in_chunk;
pub use counting::LineCounter;
pub use frame_function::{begin_of_part, function_before};
pub use map_urls::MapUrls;
pub use notes::PlaceNotes;
pub use parts_writer::url_of;
pub use replacement::find_replacement;
pub use rewriting::{PlaceOptions, rewrite_anywhere};
pub use seeming_urls::SeemingUrls;
pub use url_finder::{FoundUrl, UrlFinder};
