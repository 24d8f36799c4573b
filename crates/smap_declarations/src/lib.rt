//! Which names a generated text of JavaScript declares, where, and which name its map gives to the function of a frame.
//! Lines and columns count from 0, columns in UTF-16 code units.
//!
//! ```text
//! let declarations = Declarations::of_text(alloc, generated, &map)?;
//! if let Some(function) = function_name(b"async fe") {
//!     // b"fe"
//!     let name = declarations.name_of(&map, function, DeclarationPlace { line: 0, column: 4711 }, &mut meter);
//! }
//! ```
#![tactic(auto)]

mod bodies;
mod brackets;
mod bytes;
mod declarations;
mod frames;
mod functions;
mod given;
mod key;
mod kind;
mod name_list;
mod naming;
mod order;
mod passing;
mod refusal;
mod walk;

pub use declarations::{Declarations, MOST_GENERATED_BYTES};
pub use frames::{function_name, is_name};
pub use refusal::DeclarationsRefusal;
pub use walk::DeclarationPlace;
