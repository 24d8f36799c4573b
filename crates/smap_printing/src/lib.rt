//! What a map answers for positions, as the texts that are printed: for one position, or for a text of them, a line each,
//! while it is read; its mappings, and its sources, a line each. Lines and columns count from 1 in these texts and in
//! positions that are read, columns in UTF-16 code units.
//!
//! ```text
//! let text = lookup_text(alloc, &map, 0, 5, Direction::AtOrBefore)?;
//! let position = read_position(b"12:7")?;
//! let options = AnswerOptions { direction: Direction::AtOrAfter, form: Form::Json, context: Some(2) };
//! let summary = answer_position_lines(alloc, &mut input, &mut output, &map, options)?;
//! let options = MappingsOptions { line: Some(0), form: Form::Text };
//! print_mappings(alloc, &map, None, options, &mut output)?;
//! let options = SourceOptions { by_bytes: true, form: Form::Text };
//! let text = sources_text(alloc, &map, Some(generated), options)?;
//! ```
#![tactic(auto)]

mod answer;
mod answerer;
mod answering;
mod context_form;
mod functions;
mod gathered_line;
mod generated;
mod growing_text;
mod json_form;
mod kept_source;
mod lookup;
mod map_text;
mod mappings;
mod output;
mod places;
mod printed_position;
mod reading;
mod short_text;
mod sources;
mod text_form;

pub use answer::from_one;
pub use answering::{PositionsSummary, answer_position_lines};
pub use functions::AskedFunction;
pub use generated::generated_text;
pub use lookup::{lookup_as_json, lookup_text};
pub use mappings::print_mappings;
pub use places::{AskedPlace, put_bad_place, put_place_line};
pub use printed_position::PrintedPosition;
pub use reading::{column_of, read_position};
pub use sources::sources_text;
pub use text_form::{NONE, UNMAPPED};
