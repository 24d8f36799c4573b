//! Which map a URL has, by texts and patterns: where the maps of a trace are, in files that are named for a URL, in folders
//! in which the URLs behind a prefix have files of their own, and in files and folders of patterns of URLs; and what else is
//! kept under a text.
//!
//! ```
//! locations.add_folder(text("https://example.test/js/"), text("maps/"))?;
//! let path = locations.path_for(alloc, b"https://example.test/js/a/app.js?v=2")?; // maps/a/app.js.map
//! ```
#![tactic(auto)]

mod by_text;
mod common;
pub mod laws;
mod list_line;
mod locations;
mod named;
mod paths;
mod pattern;
mod patterns;
mod pieces;
mod refusal;
mod text_places;

pub use by_text::ByText;
pub use common::common_front;
pub use list_line::{entry_of_line, is_folder, is_rule, pattern_text};
pub use locations::Locations;
pub use named::NamedPaths;
pub use paths::without_query;
pub use pieces::{ends_in_separator, is_separator};
pub use refusal::{ListFault, ListRefusal, LocationRefusal};
