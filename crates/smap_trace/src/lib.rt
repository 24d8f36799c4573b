//! Stack traces, as V8, Firefox and Safari print them, of a program that was generated: a frame whose URL has a map and
//! whose place has an original gets it in its place, and every other byte stays; frames of sources that a map says to
//! ignore can be left out. Lines and columns of frames count from 1.
//!
//! ```text
//! let mut table = Table::new(alloc);
//! table.add(url, map)?;
//! let hide_ignored = false;
//! let summary = rewrite(alloc, &mut input, &mut output, &table, hide_ignored)?;
//! ```
#![tactic(auto)]

mod beside;
mod cuts;
mod end_number;
mod entry;
mod frame_rewriter;
mod frames;
mod function_name;
mod hiding;
pub mod laws;
mod maps;
mod named_table;
mod options;
mod original;
mod outcome;
mod parts;
mod passed;
mod printed;
mod refusal;
mod remembered;
mod rewriting;
mod sight;
mod table;
mod text_note;
mod url_declarations;
mod url_notes;

pub use beside::Beside;
pub use cuts::cut_at_last_byte;
pub use frames::frame;
pub use function_name::{HeadCut, head_cut};
pub use hiding::Hiding;
pub use maps::{Maps, NoMap, TableMaps};
pub use named_table::{NamedTable, name_declared_beside};
pub use options::TraceOptions;
pub use original::{Original, Replacement, original_at};
pub use outcome::{RewriteCounts, RewriteFault, Summary};
pub use parts::Frame;
pub use passed::{NoPlaces, PlaceCounter};
pub use printed::{MOST_PRINTED_BYTES, print_place};
pub use refusal::TableRefusal;
pub use rewriting::{rewrite, rewrite_over};
pub use table::{Table, is_bad_url};
pub use text_note::{Opening, TextNote};
pub use url_declarations::UrlDeclarations;
pub use url_notes::{Naming, UrlNote, UrlNotes};
