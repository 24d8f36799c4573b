//! The arguments of the command line, which clap reads, as the command that they ask for; or why they ask for none.
//!
//! ```text
//! // The words are those of `smap lookup app.js.map 1 6`, as they come from the system.
//! let command = parse(alloc, words)?; // Command::Lookup { path, line: 0, column: 5, .. }
//! ```
#![tactic(auto)]

mod argument;
mod checks;
mod commands;
mod generated;
mod help;
mod line;
mod locate;
mod lookups;
mod mistakes;
mod numbered;
mod pairs;
mod parsing;
mod rewrite;
mod sources;
mod spread;
mod usage;
mod values;
mod written;

pub use parsing::parse;
pub use usage::Usage;
