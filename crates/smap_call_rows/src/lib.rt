//! Calls of smap, asked by rows of text: a row is a call and its fields, and its answer a line of as many fields as the call
//! gives. `tests/vectors/README.md` has the calls; those of the program's arguments and commands are in smap_rows.
//!
//! ```text
//! let row = Row::new(rt, "units\tabc", 64)?;
//! let mut answer = Answer::new(rt.alloc());
//! answer_call(&row, &mut answer)?;
//! let line = answer.into_line();
//! ```
#![tactic(auto)]

mod answer;
mod calls;
mod composing;
mod contents;
mod devices;
mod escapes;
mod fault;
mod indexes;
mod lists;
mod look_ups;
mod maps;
mod numbers;
mod originals;
mod paths;
mod positions;
mod row;
mod sources;
mod texts;
mod traces;

pub use answer::{Answer, joined};
pub use calls::answer_call;
pub use devices::{sink, sound_sink, sound_source, source};
pub use fault::RowFault;
pub use row::{EACH, Row};
