//! The map files of ECMA-426 (Source map format): what the JSON text of a map states, why one is refused, and the text
//! of a written map. A map may be shared: nothing is copied, and it is freed with the last that holds it. Lines, columns and
//! indices count from 0, columns in UTF-16 code units.
//!
//! ```text
//! let map = MapFile::read(alloc, bytes, None, 64)?;
//! if let Answer::Found { origin, .. } = map.look_up(line, column, &mut meter) {
//!     let source = map.source(origin.source);
//! }
//! let bytes = map.write(alloc)?;
//! let held = SharedMap::new(alloc, map)?;
//! let other = held.share()?;
//! ```
#![tactic(auto)]

mod beside;
mod debug_id;
mod entry;
mod fields;
mod file_text;
mod ignored;
mod index;
mod index_map;
mod joined;
mod json;
mod map_file;
mod name_bytes;
mod named_sources;
mod outer;
mod parts;
mod ready_map;
mod refusal;
mod section;
mod shared_map;
mod sources;
mod write;
mod written;

pub use debug_id::put_debug_id;
pub use entry::{SourceEntry, copied_text, is_ignored, source_name};
pub use file_text::{file_members, json_text, without_mark};
pub use map_file::MapFile;
pub use named_sources::name_sources_by_path;
pub use parts::file_parts;
pub use ready_map::ReadyMap;
pub use refusal::MapRefusal;
pub use shared_map::SharedMap;
pub use smap_index::{Answer, BuildRefusal, JoinedMappings, Neighbours};
pub use smap_mappings::{Fault, FaultKind, Mapping, Meter, Origin};
pub use smap_resolve::SourceName;
pub use url::Url;
pub use write::{WriteRefusal, write_owned, write_record};

/// How many bytes a map file has at most, which is as many as a mappings text.
pub const MOST_FILE_BYTES: usize = smap_mappings::MOST_MAPPINGS_BYTES;

/// How many sources a map lists at most, and how many names.
pub const MOST_LISTED: usize = 33554432;
