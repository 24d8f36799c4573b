//! From original to generated: the mappings of a map whose original is on a line of a source, and of these the ones whose
//! original column is next to an asked one; once by a walk through the map, and as often as is asked by an index. Lines,
//! columns and sources count from 0, columns in UTF-16 code units.
//!
//! ```text
//! let asked = Asked { source, line, column, direction: OriginalDirection::AtOrBefore };
//! let found = generated_next(alloc, &map, &asked)?;
//! let originals = Originals::new(alloc, &map)?;
//! let places = originals.generated(&asked, &mut meter);
//! ```
#![tactic(auto)]

mod asked;
mod gather;
pub mod laws;
mod nearest;
mod originals;
mod place;
mod places;
mod run;
mod search;
mod walk;

pub use asked::{Asked, OriginalDirection};
pub use originals::Originals;
pub use place::GeneratedPlace;
pub use walk::{generated_for, generated_next};
