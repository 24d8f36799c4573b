//! What the program can be asked, as values: the commands with their options, and the numbers that they may have. The
//! arguments of the command line are read into these commands, and the answers are given for them, by crates that do not
//! know each other.
//!
//! ```text
//! let options = LookupOptions { form: Form::Text, explain: false };
//! let (base, interval, after) = (None, USUAL_INTERVAL, false);
//! let command = Command::Lookup { path, line: 0, column: 5, base, interval, after, options };
//! ```
#![tactic(auto)]

mod asked;
mod command;
mod limits;
mod options;

pub use asked::{
    ComposeAll, Explain, Fit, Generated, Locate, MapChoice, Mappings, Positions, SourceContent,
    Sources,
};
pub use command::Command;
pub use limits::{
    LIMIT, MOST_CONTEXT, MOST_HIDDEN, MOST_INTERVAL, MOST_OPTION_BYTES, USUAL_CACHE_BYTES,
    USUAL_INTERVAL, USUAL_LIMIT_BYTES,
};
pub use options::{
    AnswerOptions, CheckOptions, Direction, FitOptions, Form, FurtherOptions, LookupOptions,
    MappingsOptions, Required, SourceOptions, WriteOptions,
};
pub use url::Url;
