//! The maps of a trace that are read when a frame first names their URLs: from the files and folders of
//! [`Locations`](smap_locations::Locations), and kept in memory while their bytes are within a bound; and a table of maps
//! that are given, each under a URL or under a pattern of URLs, with the declarations of its program or without.
//!
//! ```
//! let mut locations = Locations::new(alloc);
//! add_list(alloc, &mut locations, &exact, "https://example.test/js/\tmaps/\n")?;
//! let mut cache = MapCache::new(1_073_741_824);
//! let mut maps = StoredMaps { alloc, exact: &exact, locations: &locations, cache: &mut cache, loader: &mut loader };
//! maps.find(b"https://example.test/js/app.js");
//! let map = maps.map_for(b"https://example.test/js/app.js"); // that of maps/app.js.map, read by the loader
//! ```
#![tactic(auto)]

mod cache;
mod fileless;
mod list;
mod loader;
mod named_maps;
mod names_cache;
mod names_loader;
mod pattern_map;
mod program;
mod shared_declarations;
mod stored;
mod url_maps;
mod url_table;

pub use cache::MapCache;
pub use fileless::asks_no_file;
pub use list::{add_list, add_rule};
pub use loader::{LoadedMap, MapLoader};
pub use named_maps::NamedMaps;
pub use names_cache::NamesCache;
pub use names_loader::{LoadedNames, NamesLoader};
pub use program::{MapKind, Program};
pub use shared_declarations::SharedDeclarations;
pub use stored::StoredMaps;
pub use url_maps::UrlMaps;
pub use url_table::UrlTable;
