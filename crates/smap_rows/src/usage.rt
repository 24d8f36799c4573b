//! What the program comes to where the arguments give no command.

use smap_answers::{Failure, Reply};
use smap_arguments::Usage;

/// What the program comes to.
pub fn outcome_of(usage: Usage) -> Result<Reply, Failure> {
    match usage {
        Usage::Help(text) => Ok(Reply::Text(text)),
        Usage::Words(text) => Err(Failure::Misuse(text)),
        Usage::Memory => Err(Failure::Memory),
    }
}
