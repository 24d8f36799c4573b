//! The codes by which refusals and failures are called, as `M14 Text`; and what each means, what usually causes it, and
//! what to do about it.
//!
//! ```text
//! print(refusal.code().text());
//! if let Some(known) = called_text(alloc, "M14")? {
//!     print(known);
//! }
//! ```
#![tactic(auto)]

mod alone_codes;
mod code;
mod index_codes;
mod map_codes;
mod mappings_codes;
mod row;
mod table;
mod trace_codes;
mod word;
mod writing_codes;

pub use code::{Code, all};
pub use row::{Row, code_text};
pub use table::row_of;
pub use word::{all_codes_text, called_text};
