//! What the program comes to where the arguments give no command.
ghost use Rattle.std.specs.Prelude.{◌≡◌};
ghost use Rattle.smap_replies.specs.Outcome.{report_of};
ghost use Rattle.smap_cli.specs.Usage.{report_of_usage};

use smap_answers::{Failure, Reply};
use smap_arguments::Usage;

/// What the program comes to.
pub fn outcome_of(usage: Usage) -> Result<Reply, Failure>
    ensures { report_of result ≡ report_of_usage usage }
{
    match usage {
        Usage::Help(text) => Ok(Reply::Text(text)),
        Usage::Words(text) => Err(Failure::Misuse(text)),
        Usage::Memory => Err(Failure::Memory),
    }
}
