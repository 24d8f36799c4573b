//! What a command comes to, and how that is reported; and how the files are read that a command names.
//!
//! ```text
//! let maps = MapReader { files: &rt, base: None, interval: 64 };
//! let outcome = match read_map(alloc, &maps, 0, "app.js.map") {
//!     Ok(map) => Ok(Reply::Bytes(map.write(alloc)?)),
//!     Err(failure) => Err(failure),
//! };
//! let status = report(&outcome, &mut output, &mut errors, &mut first);
//! ```
#![tactic(auto)]

mod files;
mod lines;
mod lists;
mod map;
mod outcome;
mod refusal;
mod reporting;
mod standing;
mod telling;
mod text;
mod why;

pub use files::{FileReader, Loaded, LoadedFiles, UnreadCause};
pub use lines::{NO_MEMORY, file_failed_line, list_refused_line};
pub use lists::{list_text, reason_of, refused_list};
pub use map::{MapReader, file_bytes, read_chosen, read_map};
pub use outcome::{DONE, FAILED, Failure, REFUSED, Reply};
pub use refusal::{refusal_of, refused_argument, refused_by};
pub use reporting::{print_error, report};
pub use standing::{Standing, map_of, read_standing};
pub use telling::{NamedFile, tell_cause, tell_no_map};
pub use text::{read_text, text_of};
pub use why::{file_bytes_explained, read_map_explained, refused_map};
