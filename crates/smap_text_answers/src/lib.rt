//! Rewriting the text on standard input, line by line: over the maps of its arguments, or over files and folders of maps,
//! which are read when the text names them; and answering its lines over these, where each asks for a place.
//!
//! ```text
//! let options = FurtherOptions::new(alloc);
//! let request = TextRequest { maps: &maps, arguments: &arguments, hide_ignored, options: &options, hint: false };
//! let status = answer_rewrite(alloc, &request, &mut input, &mut output, &mut errors, &mut first);
//! ```
#![tactic(auto)]

mod answering;
mod anywhere;
mod dotted;
mod ending;
mod fitting;
mod frames;
mod generated;
mod lines;
mod loader;
mod locating;
mod locating_named;
mod locator;
mod named_locator;
mod named_place;
mod namer;
mod naming;
mod nearest;
mod place;
mod request;
mod required;
mod rewriting;
mod saying;
mod sources;
mod standing;
mod storing;
mod text_over_store;
mod told;
mod trace;
mod url_lines;

pub use answering::answer_rewrite;
pub use locating::answer_locate;
pub use request::TextRequest;
