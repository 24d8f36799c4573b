//! The composition of two source maps: where the outer map is of a minified file, and the inner one of a source of it
//! that was itself generated, the composed map leads from the minified file to what was written by hand. So it is with
//! a bundle and the maps of all its modules.
//!
//! ```text
//! let composed = compose(alloc, &outer, 0, &inner)?;
//! let text = composed.write_owned(alloc)?;
//! let all = compose_all(alloc, &outer, &[Some(&first), None, Some(&third)], LeftOut::NOTHING)?;
//! ```
#![tactic(auto)]

mod composed;
mod composing;
mod follow;
pub mod laws;
mod left;
mod left_out;
mod length;
mod listed;
mod listing;
mod parts;
mod placed;
mod pruned;
mod refusal;
mod used;
mod walk;

pub use composed::Composed;
pub use composing::{compose, compose_all, compose_with};
pub use left_out::LeftOut;
pub use refusal::ComposeRefusal;
