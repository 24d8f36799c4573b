//! What the program answers, apart from its arguments: the files that a command of smap_command names, what it comes to over
//! their bytes and standard input, and the lines that say this.
//!
//! ```text
//! let options = LookupOptions { form: Form::Text, explain: false };
//! let (base, interval, after) = (None, USUAL_INTERVAL, false);
//! let command = Command::Lookup { path, line: 0, column: 5, base, interval, after, options };
//! let (status, input) = run_reading(rt.alloc(), &rt, &command, false, input, &mut output, &mut errors, &mut first);
//! ```
#![tactic(auto)]

mod limits;
mod running;
mod telling;

pub use running::{run, run_reading};
pub use smap_replies::{Failure, FileReader, Loaded, Reply, UnreadCause, print_error, report};
