//! What is answered from maps: for a position or several, or of all mappings of one, of its sources, or of a bare mappings
//! text; the map that is written of a file, or of several that are composed; whether map files are accepted, and why not;
//! whether they can be those of generated files; and what a code means.
//!
//! ```text
//! let options = LookupOptions { form: Form::Text, explain: false };
//! let outcome = answer_lookup(alloc, &maps, "app.js.map", (0, 5), Direction::AtOrBefore, options);
//! let options = WriteOptions { prune: true, no_content: false, keep_debug_id: true };
//! let outcome = answer_show(alloc, &rt, "app.js.map", None, options);
//! let status = answer_fit(alloc, &reader, &fit, &mut output, &mut errors, &mut first);
//! ```
#![tactic(auto)]

mod check;
mod check_lines;
mod compose;
mod compose_all;
mod composed_lines;
mod explain;
mod fit;
mod generated;
mod inners;
mod lines;
mod lookup;
mod mappings;
mod misfits;
mod outer_map;
mod positions;
mod raw;
mod show;
mod sources;
mod warning;
mod with_id;
mod written;

pub use check::answer_check;
pub use compose::answer_compose;
pub use compose_all::answer_compose_all;
pub use explain::answer_explain;
pub use fit::answer_fit;
pub use generated::answer_generated;
pub use lookup::answer_lookup;
pub use mappings::answer_mappings;
pub use positions::answer_positions;
pub use raw::answer_raw;
pub use show::answer_show;
pub use sources::{answer_content, answer_sources};
