//! The names of a map's sources (ECMA-426, Resolving sources): each is the URL that the URL Standard's parser gives,
//! and a text that does not parse stands as it is. And what a source is called where something else stands: by the name
//! of the outer source that an inner map is of, or by the path that is the map's URL or at which its file stands, from
//! whose folder a relative path goes on.
//!
//! ```text
//! let base = Url::parse(alloc, "https://ex.test/js/app.js")?;
//! let name = resolve(alloc, Some("src"), "a.ts", Some(&base))?;
//! print(name.text()); // https://ex.test/js/src/a.ts
//! let name = name_by_path(alloc, b"/srv/app/dist/util/x.js", "../../src/x.ts")?; // /srv/app/src/x.ts
//! ```
#![tactic(auto)]

mod beside;
mod by_path;
mod inner_names;
pub mod laws;
mod paths;
mod refusal;
mod resolution;
mod source_name;

pub use beside::name_beside;
pub use by_path::{is_path, name_by_path};
pub use inner_names::name_from_outer;
pub use refusal::ResolveRefusal;
pub use resolution::{prefix_bytes, resolve};
pub use source_name::SourceName;
